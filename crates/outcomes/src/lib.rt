// What the calls on a page answer and leave in the lent buffer, and what the program `sheet` writes (document 01,
// 'Outcomes of a page', 'Text'): the definitions stand in specs/, with the starred examples.
#![tactic(auto)]
