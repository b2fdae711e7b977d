// Texts of @ times and offsets (ast.rs, `AtModifier`, `Offset`).
ghost use Rattle.std.specs.Prelude.{◌≡◌, ◌+◌, ◌≤◌, length};
ghost use Rattle.base.specs.Splice.{Wrote};
ghost use Rattle.records.specs.Answers.{at_modifier_of, offset_of};
ghost use Rattle.leaves.specs.Time.{display_time, display_at, display_offset};

use crate::decimal::{decimal_len, put_expansion};
use crate::duration::{duration_len, put_duration};
use page::{put_byte, put_bytes};
use records::{AtModifier, Offset};

// `@ ` and milliseconds as seconds with three decimals.
fn put_time(ms: u64, out: &mut [u8], at: usize) -> usize
    requires { at + length (display_time ms) ≤ length out.old }
    ensures { Wrote out.old out.new at (display_time ms) result }
{
    let seconds = put_bytes(b"@ ", out, at);
    put_expansion(3, ms, out, seconds)
}

// A time before 1970 prints as 1970.
pub fn put_at(modifier: AtModifier, out: &mut [u8], at: usize) -> usize
    requires { at + length (display_at (at_modifier_of modifier)) ≤ length out.old }
    ensures { Wrote out.old out.new at (display_at (at_modifier_of modifier)) result }
{
    match modifier {
        AtModifier::Start => put_bytes(b"@ start()", out, at),
        AtModifier::End => put_bytes(b"@ end()", out, at),
        AtModifier::After(ms) => put_time(ms, out, at),
        AtModifier::Before(ms) => put_time(0, out, at),
    }
}

pub fn at_len(modifier: AtModifier) -> usize
    ensures { (result ≡ length (display_at (at_modifier_of modifier))) × (result ≤ 26) }
{
    match modifier {
        AtModifier::Start => 9,
        AtModifier::End => 7,
        AtModifier::After(ms) => decimal_len(ms / 1000) + 6,
        AtModifier::Before(ms) => 7,
    }
}

pub fn put_offset(offset: Offset, out: &mut [u8], at: usize) -> usize
    requires { at + length (display_offset (offset_of offset)) ≤ length out.old }
    ensures { Wrote out.old out.new at (display_offset (offset_of offset)) result }
{
    match offset {
        Offset::Pos(ms) => put_duration(ms, out, at),
        Offset::Neg(ms) => {
            let next = put_byte(b'-', out, at);
            put_duration(ms, out, next)
        }
    }
}

pub fn offset_len(offset: Offset) -> usize
    ensures { (result ≡ length (display_offset (offset_of offset))) × (result ≤ 155) }
{
    match offset {
        Offset::Pos(ms) => duration_len(ms),
        Offset::Neg(ms) => duration_len(ms) + 1,
    }
}
