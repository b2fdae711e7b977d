// The test of texts for a program that runs it by itself, at every start and length, and times it. No part of the
// library; crate text_test_c gives each function to C.
#![tactic(auto)]

ghost use Rattle.std.specs.Prelude.{◌≡◌, drop};
ghost use Rattle.page.specs.Text.{is_ascii, is_text};

use page::{ascii_from, is_text};

pub fn sandzguli_is_text(text: &[u8]) -> bool
    ensures { result ≡ is_text text.now }
{
    is_text(text)
}

// Bytes below 128, one byte at a time: what words are timed beside.
pub fn sandzguli_is_ascii_by_bytes(text: &[u8]) -> bool
    ensures { result ≡ is_ascii text.now }
{
    ascii_from(text, 0)
}

// The bytes from a position on.
pub fn sandzguli_ascii_from(text: &[u8], from: usize) -> bool
    ensures { result ≡ is_ascii (drop from text.now) }
{
    ascii_from(text, from)
}
