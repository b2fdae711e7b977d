// What the calls answer, beside what the entry says.
use sandzguli::face::{
    sandzguli_canonical, sandzguli_check, sandzguli_copy, sandzguli_joint_label, sandzguli_split,
};
use walk::walk;

// The lowest word of a refusal, 2^63.
const REFUSED: u64 = 9223372036854775808;

// A word of refusal 5 without its record, 2^47 + 5.
const TOO_SHORT: u64 = 140737488355333;

// The outcome and the part of the label.
pub fn check_equal(page: &[u8], outcome: u64, label: u64) -> bool {
    (sandzguli_check(page) == outcome) & (sandzguli_joint_label(page) == label)
}

// The calls that write.
#[derive(Clone, Copy)]
pub enum Call {
    Copy,
    Canonical,
    Split,
}

fn ask(call: Call, page: &[u8], out: &mut [u8]) -> u64 {
    match call {
        Call::Copy => sandzguli_copy(page, out),
        Call::Canonical => sandzguli_canonical(page, out),
        Call::Split => sandzguli_split(page, out),
    }
}

// The call on so many bytes of a buffer.
fn ask_part(call: Call, page: &[u8], out: &mut [u8], size: usize) -> u64 {
    if out.len() < size {
        return 0;
    }
    ask(call, page, &mut out[..size])
}

fn first_byte(text: &[u8]) -> u8 {
    if text.len() == 0 {
        return 0;
    }
    text[0]
}

fn mark(out: &mut [u8], byte: u8) {
    if out.len() == 0 {
        return;
    }
    out[0] = byte;
}

// Another byte than the text's first one.
fn other_byte(text: &[u8]) -> u8 {
    if first_byte(text) == 0 {
        return 1;
    }
    0
}

// Whether a word is 5 with the number of records.
fn is_too_short(page: &[u8], word: u64) -> bool {
    let mut starts = [0u16; page::RECORD_LIMIT];
    let mut firsts = [0u8; page::RECORD_LIMIT];
    match walk(page, &mut starts, &mut firsts) {
        Ok(walked) => (word / 65536 == TOO_SHORT) & (word % 65536 == walked.count as u64),
        Err(_) => false,
    }
}

// A byte less than the text: 5, and the first byte, which the text would change, stays.
fn short_refused(call: Call, page: &[u8], text: &[u8], out: &mut [u8]) -> bool {
    if text.len() == 0 {
        return true;
    }
    let byte = other_byte(text);
    mark(out, byte);
    let word = ask_part(call, page, out, text.len() - 1);
    is_too_short(page, word) & (first_byte(out) == byte)
}

// Exactly the text's size: the text and its length, with the kind.
fn written(call: Call, page: &[u8], kind: u64, text: &[u8], out: &mut [u8]) -> bool {
    let word = ask_part(call, page, out, text.len());
    (word % 4 == kind) & (word / 4 == text.len() as u64) & out.starts_with(text)
}

// What a call writes, or its refusal.
pub fn writes_equal(call: Call, page: &[u8], outcome: u64, text: &[u8], out: &mut [u8]) -> bool {
    if REFUSED <= outcome {
        return ask(call, page, out) == outcome;
    }
    written(call, page, outcome, text, out) & short_refused(call, page, text, out)
}
