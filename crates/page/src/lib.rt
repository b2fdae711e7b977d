// The fields of a page (document 01, 'The page', house format): numbers, counts and texts, read at a position; bytes
// written into a buffer.
#![tactic(auto)]

pub mod ascii;
pub mod fault;
pub mod field;
pub mod limit;
pub mod list;
pub mod name;
pub mod number;
pub mod text;
pub mod utf8;
pub mod write;

pub use ascii::{ascii_from, is_ascii};
pub use fault::Fault;
pub use field::Field;
pub use limit::{
    COUNT_LIMIT, FUNCTION_NAME_LIMIT, LINE_LIMIT, NUMBER_LIMIT, OUTPUT_LIMIT, PAGE_LIMIT,
    RECORD_LIMIT, TEXT_LIMIT, TIME_LIMIT, WIDTH_LIMIT,
};
pub use list::List;
pub use name::{ByteClass, all_in, byte_is, is_label, is_metric_name, is_name_of, is_text};
pub use number::{read_count, read_number};
pub use text::{Span, TextClass, read_text, same_text, stored_text, text_at, within};
pub use write::{put_byte, put_bytes};
