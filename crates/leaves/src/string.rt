// Escaped and quoted texts (util/string.rs, `escape_string`).
ghost use Rattle.std.specs.Prelude.{◌≡◌, ◌+◌, ◌≤◌, min, length};
ghost use Rattle.base.specs.Splice.{Wrote};
ghost use Rattle.leaves.specs.Escape.{escape_byte, escape_with, escape, quote};

use crate::capped::capped_add;
use page::put_byte;

// The letter that stands after a backslash for b, or none where b stands for itself.
pub fn escape_letter(b: u8) -> Option<u8>
    ensures { escape_with b result ≡ escape_byte b }
{
    match b {
        b'\\' => Some(b'\\'),
        b'"' => Some(b'"'),
        b'\n' => Some(b'n'),
        b'\r' => Some(b'r'),
        b'\t' => Some(b't'),
        _ => None,
    }
}

fn put_escaped_byte(b: u8, out: &mut [u8], at: usize) -> usize
    requires { at + length (escape_byte b) ≤ length out.old }
    ensures { Wrote out.old out.new at (escape_byte b) result }
{
    match escape_letter(b) {
        None => put_byte(b, out, at),
        Some(letter) => {
            let next = put_byte(b'\\', out, at);
            put_byte(letter, out, next)
        }
    }
}

pub fn escaped_len(text: &[u8]) -> usize
    ensures { result ≡ length (escape text.now) }
{
    let mut count = 0;
    for b in text {
        count += match escape_letter(*b) {
            None => 1,
            Some(_) => 2,
        };
    }
    count
}

pub fn put_escaped(text: &[u8], out: &mut [u8], at: usize) -> usize
    requires { at + length (escape text.now) ≤ length out.old }
    ensures { Wrote out.old out.new at (escape text.now) result }
{
    let mut pos = at;
    for b in text {
        pos = put_escaped_byte(*b, out, pos);
    }
    pos
}

pub fn quoted_len(text: &[u8], cap: usize) -> usize
    ensures { result ≡ min (length (quote text.now)) cap }
{
    capped_add(2, escaped_len(text), cap)
}

pub fn put_quoted(text: &[u8], out: &mut [u8], at: usize) -> usize
    requires { at + length (quote text.now) ≤ length out.old }
    ensures { Wrote out.old out.new at (quote text.now) result }
{
    let inside = put_byte(b'"', out, at);
    let behind = put_escaped(text, out, inside);
    put_byte(b'"', out, behind)
}
