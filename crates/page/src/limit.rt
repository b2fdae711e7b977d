// The highest values of a page (document 01, 'Highest values'), as in specs/Limits, and the sizes that the printers go
// by.

// Bytes of a page (document 01, 'Highest values').
pub const PAGE_LIMIT: usize = 8192;

// Records of a page (document 01, 'Highest values').
pub const RECORD_LIMIT: usize = 256;

// A number, 2^53 (document 01, 'Highest values').
pub const NUMBER_LIMIT: u64 = 9007199254740992;

// Bytes of a text (document 01, 'Highest values').
pub const TEXT_LIMIT: usize = 255;

// Labels, matchers, kinds or arguments (document 01, 'Highest values').
pub const COUNT_LIMIT: u64 = 16;

// Bytes of a function's name (document 01, 'Highest values').
pub const FUNCTION_NAME_LIMIT: usize = 64;

// An @ time in milliseconds, 10^15 (document 01, 'Highest values').
pub const TIME_LIMIT: u64 = 1000000000000000;

// Bytes of a line of split text (document 01, 'Text'; parser/mod.rs, `MAX_CHARACTERS_PER_LINE`).
pub const LINE_LIMIT: usize = 100;

// Widths are measured up to one byte more than a line has.
pub const WIDTH_LIMIT: usize = 101;

// Bytes that the program lends to a text (document 01, 'Text').
pub const OUTPUT_LIMIT: usize = 65536;
