// The function table (function.rs, `FUNCTIONS`, `get_function`), and any table of its form: a name is found by halves,
// and the signature that a call carries is compared with the table's, byte by byte.
#![tactic(auto)]

pub mod carried;
pub mod find;
pub mod form;
pub mod order;
pub mod table;
