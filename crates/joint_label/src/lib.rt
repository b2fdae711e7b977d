// The label of refusal 19: where the first group label that is also in the on list stands on the page.
#![tactic(auto)]

pub mod group;
pub mod place;

pub use place::joint_label;
