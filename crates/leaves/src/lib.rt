// Texts of numbers, durations and escaped strings (util/string.rs, util/duration.rs; ast.rs for numbers).
// Each text has a length and a writer into a lent buffer; the definitions stand in specs/.
#![tactic(auto)]

pub mod capped;
pub mod decimal;
pub mod duration;
pub mod numeral;
pub mod string;
pub mod time;

pub use capped::capped_add;
pub use decimal::{decimal_len, put_decimal};
pub use duration::{breakdown, duration_len, put_duration};
pub use numeral::{numeral_len, put_fill, put_literal};
pub use string::{escape_letter, escaped_len, put_escaped, put_quoted, quoted_len};
pub use time::{at_len, offset_len, put_at, put_offset};
