// Labels, quoted where they fail `is_label`, and lists of them joined by `, ` (label/mod.rs, `Display` of `Labels`). A
// list stays on the page: where its first label starts and how many there are. All can be read, so that no byte is
// tested again.
ghost use Rattle.std.specs.Prelude.{◌≡◌, ◌+◌, ◌≤◌, min, length, drop};
ghost use Rattle.base.specs.Splice.{Wrote};
ghost use Rattle.page.specs.Text.{read_any_text};
ghost use Rattle.page.specs.Listed.{listed, AllRead};
ghost use Rattle.label.specs.Label.{display_label, display_labels, display_more_labels};

use leaves::{capped_add, put_quoted, quoted_len};
use page::{is_label, put_bytes, stored_text, text_at};

pub fn label_len(text: &[u8], cap: usize) -> usize
    ensures { result ≡ min (length (display_label text.now)) cap }
{
    if is_label(text) {
        return capped_add(text.len(), 0, cap);
    }
    quoted_len(text, cap)
}

pub fn put_label(text: &[u8], out: &mut [u8], at: usize) -> usize
    requires { at + length (display_label text.now) ≤ length out.old }
    ensures { Wrote out.old out.new at (display_label text.now) result }
{
    if is_label(text) {
        return put_bytes(text, out, at);
    }
    put_quoted(text, out, at)
}

fn more_labels_len(page: &[u8], start: usize, count: usize, cap: usize) -> usize
    requires { AllRead read_any_text count (drop start page.now) }
    ensures { result ≡ min (length (display_more_labels (listed read_any_text count (drop start page.now)))) cap }
{
    let mut total: usize = 0;
    let mut from = start;
    for _ in 0..count {
        if cap <= total {
            return cap;
        }
        let span = stored_text(page, from);
        let label = label_len(text_at(page, span), cap);
        total = capped_add(total, capped_add(2, label, cap), cap);
        from = span.end;
    }
    total
}

pub fn labels_len(page: &[u8], start: usize, count: usize, cap: usize) -> usize
    requires { AllRead read_any_text count (drop start page.now) }
    ensures { result ≡ min (length (display_labels (listed read_any_text count (drop start page.now)))) cap }
{
    if count == 0 {
        return 0;
    }
    let span = stored_text(page, start);
    let first = label_len(text_at(page, span), cap);
    capped_add(first, more_labels_len(page, span.end, count - 1, cap), cap)
}

// `, ` and a label, for each.
fn put_more_labels(page: &[u8], start: usize, count: usize, out: &mut [u8], at: usize) -> usize
    requires stored { AllRead read_any_text count (drop start page.now) }
    requires room { at + length (display_more_labels (listed read_any_text count (drop start page.now))) ≤ length out.old }
    ensures { Wrote out.old out.new at (display_more_labels (listed read_any_text count (drop start page.now))) result }
{
    let mut pos = at;
    let mut from = start;
    for _ in 0..count {
        let span = stored_text(page, from);
        let behind = put_bytes(b", ", out, pos);
        pos = put_label(text_at(page, span), out, behind);
        from = span.end;
    }
    pos
}

pub fn put_labels(page: &[u8], start: usize, count: usize, out: &mut [u8], at: usize) -> usize
    requires stored { AllRead read_any_text count (drop start page.now) }
    requires room { at + length (display_labels (listed read_any_text count (drop start page.now))) ≤ length out.old }
    ensures { Wrote out.old out.new at (display_labels (listed read_any_text count (drop start page.now))) result }
{
    if count == 0 {
        return at;
    }
    let span = stored_text(page, start);
    let behind = put_label(text_at(page, span), out, at);
    put_more_labels(page, span.end, count - 1, out, behind)
}
