// Numbers: groups of seven bits, lowest first, the high bit of each byte set except the last; shortest form, at most
// 2^53.
ghost use Rattle.std.specs.Prelude.{◌≡◌, ◌≤◌, length, drop, IfOk};
ghost use Rattle.page.specs.Number.{read_number};
ghost use Rattle.page.specs.Text.{read_count};
ghost use Rattle.page.specs.Answers.{field_at, itself, read_up_to};

use crate::fault::Fault;
use crate::field::Field;
use crate::limit::{COUNT_LIMIT, NUMBER_LIMIT};

// The number at a position, if it is at most `limit`; whatever is wrong with it is a bad field. The groups after the
// first make a number of at most `limit / 128`, so the calls are no deeper than the limit has groups.
pub fn read_up_to(page: &[u8], at: usize, limit: u64) -> Field<u64>
    ensures reads { field_at itself page.now result ≡ read_up_to limit (drop at page.now) }
    ensures lies { IfOk result (λ field. field.1 ≤ length page.now) }
{
    if page.len() <= at {
        return Err(Fault::BadField);
    }
    let b = page[at] as u64;
    if limit < b {
        return Err(Fault::BadField);
    }
    if b < 128 {
        return Ok((b, at + 1));
    }
    let (v, next) = read_up_to(page, at + 1, limit / 128)?;
    if v == 0 {
        return Err(Fault::BadField);
    }
    let n = b - 128 + 128 * v;
    if limit < n {
        return Err(Fault::BadField);
    }
    Ok((n, next))
}

// Most numbers of a page are one byte: these are read without a call.
pub fn read_number(page: &[u8], at: usize) -> Field<u64>
    ensures reads { field_at itself page.now result ≡ read_number (drop at page.now) }
    ensures lies { IfOk result (λ field. field.1 ≤ length page.now) }
{
    if page.len() <= at {
        return Err(Fault::BadField);
    }
    let b = page[at] as u64;
    if b < 128 {
        return Ok((b, at + 1));
    }
    read_up_to(page, at, NUMBER_LIMIT)
}

// A count of labels, matchers, kinds or arguments, and the position after it.
pub fn read_count(page: &[u8], at: usize) -> Field<usize>
    ensures { field_at itself page.now result ≡ read_count (drop at page.now) }
{
    let (n, next) = read_number(page, at)?;
    if n <= COUNT_LIMIT {
        Ok((n as usize, next))
    } else {
        Err(Fault::PastLimit)
    }
}
