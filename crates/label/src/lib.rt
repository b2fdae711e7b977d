// Texts of labels and matchers (label/mod.rs, label/matcher.rs): the definitions stand in specs/.
#![tactic(auto)]

pub mod label;
pub mod matcher;
pub mod order;
pub mod parts;
pub mod printed;
pub mod sort;

pub use label::{label_len, labels_len, put_label, put_labels};
pub use matcher::{matchers_len, put_matchers};
