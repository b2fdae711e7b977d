// A number in the copy: its form negated by each unary record after it, all else as on the page.
ghost use Rattle.std.specs.Prelude.{◌≡◌, drop, get_or};
ghost use Rattle.base.specs.Splice.{Wrote};
ghost use Rattle.copy.specs.RecordCopy.{unaries, negated_form, form_after, record_copy};
ghost use Rattle.copy.specs.Span.{Placing};

use crate::changed::put_changed;

// The bytes of the page from a position on.
fn bytes_from(page: &[u8], at: usize) -> &[u8]
    ensures { result.now ≡ drop at page.now }
{
    page.get(at..).unwrap_or(&[])
}

// How many unary records stand from a position on.
pub fn unaries_at(page: &[u8], at: usize) -> usize
    ensures { result ≡ unaries (drop at page.now) }
{
    let rest = bytes_from(page, at);
    rest.iter().position(|b| *b != 7).unwrap_or(rest.len())
}

// The forms are numbers of the page (kind 0) on both sides: they are read there and written as they are, so no enum
// stands between.
fn negated_form(form: u8) -> u8
    ensures { result ≡ negated_form form }
{
    match form {
        0 => 1,
        1 => 0,
        3 => 4,
        4 => 3,
        5 => 6,
        6 => 5,
        _ => form,
    }
}

// A form, negated by each unary record from a position on.
fn form_after(form: u8, page: &[u8], at: usize) -> u8
    ensures { result ≡ form_after form (drop at page.now) }
{
    let mut negated = form;
    for _ in 0..unaries_at(page, at) {
        negated = negated_form(negated);
    }
    negated
}

// A number in the copy: its form after the unary records, its kind and its magnitude as on the page.
pub fn put_number(page: &[u8], start: usize, next: usize, out: &mut [u8], at: usize) -> usize
    requires { Placing page.now out.old start next at × (get_or page.now start 0 ≡ 0) }
    ensures { Wrote out.old out.new at (record_copy (drop start page.now)) result }
{
    let form = form_after(page[start + 1], page, next);
    put_changed(&page[start..next], 1, form, out, at)
}
