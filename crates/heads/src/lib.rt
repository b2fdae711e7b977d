// What nodes have of their own (ast.rs, `Display`): operators with their modifiers, aggregators with their grouping,
// selectors. Each has a length up to a cap and a writer; the definitions stand in crate text, specs/Display.
#![tactic(auto)]

pub mod head;
pub mod selector;

pub use head::{aggregator_len, operator_len, put_aggregator, put_operator};
pub use selector::{put_selector, selector_len};
