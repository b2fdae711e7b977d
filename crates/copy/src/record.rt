// What one record becomes in the copy: its length, its bytes, and how many records after it it takes in.
ghost use Rattle.std.specs.Prelude.{◌≡◌, length, drop};
ghost use Rattle.base.specs.Splice.{Wrote};
ghost use Rattle.copy.specs.RecordCopy.{record_copy, absorbed_of};
ghost use Rattle.copy.specs.Span.{Spans, Placing};

use crate::number::{put_number, unaries_at};
use crate::operator::put_operator;
use rules::code::is_set_operator;

// A set operator without a modifier takes eight bytes; every other record as many as on the page.
pub fn record_len(page: &[u8], start: usize, next: usize) -> usize
    requires { Spans page.now start next }
    ensures { result ≡ length (record_copy (drop start page.now)) }
{
    if page[start] == 9 && is_set_operator(page[start + 1] as u64) && page[start + 2] == 0 {
        8
    } else {
        next - start
    }
}

pub fn put_record(page: &[u8], start: usize, next: usize, out: &mut [u8], at: usize) -> usize
    requires { Placing page.now out.old start next at }
    ensures { Wrote out.old out.new at (record_copy (drop start page.now)) result }
{
    match page[start] {
        0 => put_number(page, start, next, out, at),
        9 => put_operator(page, start, next, out, at),
        _ => page::put_bytes(&page[start..next], out, at),
    }
}

// How many unary records a number takes in; no other record takes any.
pub fn absorbed_by(page: &[u8], start: usize, next: usize) -> usize
    requires { Spans page.now start next }
    ensures { result ≡ absorbed_of (drop start page.now) }
{
    if page[start] == 0 {
        unaries_at(page, next)
    } else {
        0
    }
}
