// The working-out of a page, from the documents alone, and the statement of demand 3: the definitions stand in specs/.
#![tactic(auto)]
