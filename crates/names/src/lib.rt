// The names of kinds and refusals, for people who repair a page: written into a lent buffer, answered as one word.
// The names stand in specs/Names. A new refusal is one more string there, and here its letters and where they end.
#![tactic(auto)]

pub mod kind;
pub mod refusal;
pub mod table;
