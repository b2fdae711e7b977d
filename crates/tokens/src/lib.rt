// The tokens of operators and aggregators (ast.rs, `Display`): those of the codes, and those with labels or a fill in
// brackets. Each has a length and a writer; the definitions stand in crate text, specs/Display.
#![tactic(auto)]

pub mod fill;
pub mod labelled;
pub mod modifier;
pub mod token;

pub use fill::{fills_len, put_fills};
pub use modifier::{
    cardinality_len, grouping_len, matching_len, put_cardinality, put_grouping, put_matching,
};
pub use token::{put_token, token_len};
