// A token with a list of labels in brackets, as ` on (a, b)`.
ghost use Rattle.std.specs.Prelude.{◌≡◌, ◌+◌, ◌≤◌, min, length, drop};
ghost use Rattle.base.specs.Splice.{Wrote};
ghost use Rattle.page.specs.Text.{read_any_text};
ghost use Rattle.page.specs.Listed.{AllRead};
ghost use Rattle.records.specs.Answers.{labels_on};
ghost use Rattle.label.specs.Label.{display_labels};
ghost use Rattle.tokens.specs.Labelled.{labelled_bytes};

use label::{labels_len, put_labels};
use leaves::capped_add;
use page::{put_byte, put_bytes};

// The length with a token of so many bytes.
pub fn labelled_len(token: usize, page: &[u8], start: usize, count: usize, cap: usize) -> usize
    requires { AllRead read_any_text count (drop start page.now) }
    ensures { result ≡ min (token + 3 + length (display_labels (labels_on page.now start count))) cap }
{
    let head = capped_add(token, 3, cap);
    capped_add(head, labels_len(page, start, count, cap), cap)
}

pub fn put_labelled(
    token: &[u8],
    page: &[u8],
    start: usize,
    count: usize,
    out: &mut [u8],
    at: usize,
) -> usize
    requires stored { AllRead read_any_text count (drop start page.now) }
    requires room { at + length (labelled_bytes token.now (labels_on page.now start count)) ≤ length out.old }
    ensures { Wrote out.old out.new at (labelled_bytes token.now (labels_on page.now start count)) result }
{
    let bracket = put_bytes(token, out, at);
    let labels = put_bytes(b" (", out, bracket);
    let closing = put_labels(page, start, count, out, labels);
    put_byte(b')', out, closing)
}
