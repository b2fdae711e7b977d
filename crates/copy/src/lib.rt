// The copy of an accepted page (document 01, 'Checking', "The copy holds this state"): records go over as parts of the
// page, but for set operators, which become many-to-many, and numbers, which take in the unary records after them. An
// offset changes places with an @ right behind it (document 02, No. 14).
#![tactic(auto)]

pub mod changed;
pub mod number;
pub mod operator;
pub mod record;
pub mod times;
pub mod whole;

pub use whole::{copy_fits, put_copy};
