// Well-formed UTF-8 (RFC 3629, section 4; document 02, No. 10): a word of eight bytes below 128 at a time where there
// is one, else a character.
ghost use Rattle.std.specs.Prelude.{◌≡◌, [], ◌∷◌, ◌<◌, length, drop};
ghost use Rattle.page.specs.Utf8.{from, tail, following, is_utf8};
ghost use Rattle.page.specs.CharacterEnd.{due_meant, holds_first, Ends};

use crate::ascii::word_passes_at;

// What must follow the first byte of a character: so many bytes, all from 80 to bf, but the first of two or three from
// the one byte given to the other.
#[derive(Clone, Copy)]
pub enum Due {
    NoCharacter,
    Zero,
    One,
    Two(u8, u8),
    Three(u8, u8),
}

// The rows of the grammar, in its order.
fn due_of(b: u8) -> Due
    ensures { due_meant result ≡ following b }
{
    if b <= 0x7f {
        return Due::Zero;
    }
    if (0xc2 <= b) & (b <= 0xdf) {
        return Due::One;
    }
    if b == 0xe0 {
        return Due::Two(0xa0, 0xbf);
    }
    if (0xe1 <= b) & (b <= 0xec) {
        return Due::Two(0x80, 0xbf);
    }
    if b == 0xed {
        return Due::Two(0x80, 0x9f);
    }
    if (0xee <= b) & (b <= 0xef) {
        return Due::Two(0x80, 0xbf);
    }
    if b == 0xf0 {
        return Due::Three(0x90, 0xbf);
    }
    if (0xf1 <= b) & (b <= 0xf3) {
        return Due::Three(0x80, 0xbf);
    }
    if b == 0xf4 {
        return Due::Three(0x80, 0x8f);
    }
    Due::NoCharacter
}

// Whether the text has a byte at a position, from low to high.
fn holds_at(text: &[u8], at: usize, low: u8, high: u8) -> bool
    ensures { result ≡ holds_first (from low high) (drop at text.now) }
{
    if text.len() <= at {
        return false;
    }
    let b = text[at];
    (low <= b) & (b <= high)
}

// The position after the bytes that are due at a position, one, two or three, or none where they do not stand there.
fn end_of_one(text: &[u8], at: usize) -> Option<usize>
    ensures { Ends (tail ∷ []) text.now at result }
{
    if holds_at(text, at, 0x80, 0xbf) {
        Some(at + 1)
    } else {
        None
    }
}

fn end_of_two(text: &[u8], at: usize, low: u8, high: u8) -> Option<usize>
    ensures { Ends (from low high ∷ tail ∷ []) text.now at result }
{
    if holds_at(text, at, low, high) {
        end_of_one(text, at + 1)
    } else {
        None
    }
}

fn end_of_three(text: &[u8], at: usize, low: u8, high: u8) -> Option<usize>
    ensures { Ends (from low high ∷ tail ∷ tail ∷ []) text.now at result }
{
    if holds_at(text, at, low, high) {
        end_of_two(text, at + 1, 0x80, 0xbf)
    } else {
        None
    }
}

// The position after the character at i, or none where none stands there.
fn character_end(text: &[u8], i: usize) -> Option<usize>
    requires { i < length text.now }
    ensures { Ends [] text.now i result }
{
    match due_of(text[i]) {
        Due::NoCharacter => None,
        Due::Zero => Some(i + 1),
        Due::One => end_of_one(text, i + 1),
        Due::Two(low, high) => end_of_two(text, i + 1, low, high),
        Due::Three(low, high) => end_of_three(text, i + 1, low, high),
    }
}

// The position after a word of bytes below 128 or after one character, or none where none stands at i.
fn next_end(text: &[u8], i: usize) -> Option<usize>
    requires { i < length text.now }
    ensures { Ends [] text.now i result }
{
    if 128 <= text[i] {
        return character_end(text, i);
    }
    if 8 <= text.len() - i {
        if word_passes_at(text, i) {
            return Some(i + 8);
        }
    }
    Some(i + 1)
}

// Words and characters one after another, to the text's end.
pub fn is_utf8(text: &[u8]) -> bool
    ensures { result ≡ is_utf8 text.now }
{
    let mut i = 0;
    while i < text.len() {
        let Some(next) = next_end(text, i) else {
            return false;
        };
        i = next;
    }
    true
}
