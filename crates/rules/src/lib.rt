// The refusal table on operands: what a record asks of its operands, and what it puts back (ast.rs, constructors and
// `check_ast`).
#![tactic(auto)]

pub mod aggregate;
pub mod binary;
pub mod code;
pub mod kind;
pub mod operand;
pub mod refusal;
pub mod stack;
pub mod wrapper;

pub use operand::Operand;
pub use refusal::Refusal;
pub use stack::Stack;
