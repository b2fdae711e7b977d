// @ and offset of a selector, a range or a subquery, as the functions that print them take them (ast.rs, `at` and
// `offset`).
#![tactic(auto)]

use records::{AtModifier, Offset};

#[derive(Clone, Copy)]
pub struct Times {
    pub at: Option<AtModifier>,
    pub offset: Option<Offset>,
}
