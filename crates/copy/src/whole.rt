// The whole copy, from record to record by their starts: whether it fits, tested before a byte is written, and its
// bytes.
ghost use Rattle.std.specs.Prelude.{◌≡◌, ◌≤◌, ◌<◌, length, get_or, leb};
ghost use Rattle.base.specs.Splice.{Wrote};
ghost use Rattle.copy.specs.Copy.{copy_page};
ghost use Rattle.copy.specs.Span.{Spans};
ghost use Rattle.copy.specs.Starts.{PageStarts};

use crate::record::{absorbed_by, put_record, record_len};
use crate::times::{is_before_at, put_at_first};

// Where record i ends: where the next one starts, or at the page's end.
fn end_of(page: &[u8], starts: &[u16], n: usize, i: usize) -> usize
    requires { PageStarts page.now starts.now n × (i < n) }
    ensures { Spans page.now (get_or starts.now i 0) result }
{
    let next = i + 1;
    if next < n {
        starts[next] as usize
    } else {
        page.len()
    }
}

// Whether the copy takes at most so many bytes. A step goes over all records that a piece takes in, so here and below
// stands no `for`.
pub fn copy_fits(page: &[u8], starts: &[u16], n: usize, room: usize) -> bool
    requires { PageStarts page.now starts.now n }
    ensures { result ≡ leb (length (copy_page page.now)) room }
{
    let mut left = room;
    let mut i: usize = 0;
    while i < n {
        let start = starts[i] as usize;
        let next = end_of(page, starts, n, i);
        let size = record_len(page, start, next);
        if left < size {
            return false;
        }
        let taken = absorbed_by(page, start, next);
        left -= size;
        i += 1 + taken;
    }
    true
}

// The copy at the start of the buffer.
pub fn put_copy(page: &[u8], starts: &[u16], n: usize, out: &mut [u8]) -> usize
    requires { PageStarts page.now starts.now n × (length (copy_page page.now) ≤ length out.old) }
    ensures { Wrote out.old out.new 0 (copy_page page.now) result }
{
    let mut at: usize = 0;
    let mut i: usize = 0;
    while i < n {
        let start = starts[i] as usize;
        let next = end_of(page, starts, n, i);
        if is_before_at(page, start, next) {
            let after = end_of(page, starts, n, i + 1);
            at = put_at_first(page, start, next, after, out, at);
            i += 2;
        } else {
            let taken = absorbed_by(page, start, next);
            at = put_record(page, start, next, out, at);
            i += 1 + taken;
        }
    }
    at
}
