// An offset and the @ right behind it set one expression: the copy has the @ first (document 02, No. 14).
ghost use Rattle.std.specs.Prelude.{◌≡◌, drop};
ghost use Rattle.base.specs.Splice.{Wrote};
ghost use Rattle.copy.specs.RecordCopy.{is_before_at};
ghost use Rattle.copy.specs.Span.{Spans, PlacingPair, second_first};

// Whether a record is an offset and the record right behind it an @.
pub fn is_before_at(page: &[u8], start: usize, next: usize) -> bool
    requires { Spans page.now start next }
    ensures { result ≡ is_before_at (drop start page.now) }
{
    page[start] == 6 && next < page.len() && page[next] == 5
}

// The @ and then the offset, each as on the page.
pub fn put_at_first(
    page: &[u8],
    start: usize,
    next: usize,
    after: usize,
    out: &mut [u8],
    at: usize,
) -> usize
    requires { PlacingPair page.now out.old start next after at }
    ensures { Wrote out.old out.new at (second_first page.now start next after) result }
{
    let written = page::put_bytes(&page[next..after], out, at);
    page::put_bytes(&page[start..next], out, written)
}
