// The library's face: the calls on a page (document 01, 'Outcomes of a page') with their outcomes as words, the label
// of 19, names and version. The words are defined in specs/, those of names in crate names. Crate sandzguli_c gives the
// face to C.
#![tactic(auto)]

pub mod face;
pub mod part;
pub mod word;
