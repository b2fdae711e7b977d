// The parts of records (document 01, 'The page'), read at a position. Texts and lists stay on the page and are given by
// positions.
#![tactic(auto)]

pub mod fraction;
pub mod kind;
pub mod label;
pub mod literal;
pub mod matcher;
pub mod modifier;
pub mod on_page;
pub mod signature;
pub mod stored;
pub mod time;

pub use fraction::Fraction;
pub use kind::{Kind, kind_number, kinds_from, read_flag, read_kind, read_kinds};
pub use label::{labels_from, read_labels};
pub use literal::{Literal, read_fill, read_literal};
pub use matcher::{MatchOp, Matcher, MatcherFacts, Matchers, matchers_from, read_matchers};
pub use modifier::{
    BinModifier, Cardinality, LabelModifier, read_bin_modifier, read_cardinality,
    read_label_modifier, read_modifier,
};
pub use on_page::{OnPage, list_from, read_list, read_option, wrapped};
pub use signature::{Function, Variadic, read_function, read_variadic};
pub use stored::stored_matcher;
pub use time::{AtModifier, Offset, read_at_modifier, read_offset, read_optional_duration};
