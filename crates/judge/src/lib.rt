// The refusal table on records: judges that read the page again, for labels, matchers and declared kinds.
#![tactic(auto)]

pub mod call;
pub mod declared;
pub mod exempt;
pub mod label;
pub mod modifier;
pub mod record;
pub mod selector;
