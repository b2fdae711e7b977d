// A binary record in the copy: a set operator (`and`, `or`, `unless`) whose modifier is absent or one-to-one becomes
// many-to-many.
ghost use Rattle.std.specs.Prelude.{◌≡◌, ◌+◌, drop, get_or};
ghost use Rattle.base.specs.Splice.{Wrote};
ghost use Rattle.copy.specs.RecordCopy.{set_cardinality, record_copy};
ghost use Rattle.copy.specs.Span.{Placing, SetOperator, AbsentFrom, IsPresent, CardinalityAt};

use crate::changed::put_changed;
use page::put_bytes;
use records::read_label_modifier;
use rules::code::is_set_operator;

// An absent modifier, written out: present, no bool, no matching, many-to-many, no fills.
const SET_MODIFIER: [u8; 6] = [1, 0, 0, 3, 0, 0];

// The form of a set operator's cardinality, a number of the page as it was read and is written.
fn set_cardinality(form: u8) -> u8
    ensures { result ≡ set_cardinality form }
{
    match form {
        0 => 3,
        _ => form,
    }
}

// Where the cardinality stands: after kind, code, whether there is a modifier, bool and matching.
fn cardinality_at(page: &[u8], start: usize, next: usize) -> usize
    requires { SetOperator page.now start next × IsPresent page.now start }
    ensures { CardinalityAt page.now start next result }
{
    match read_label_modifier(page, start + 4) {
        Ok((_, cut)) => cut,
        // the record was read, so its matching can be read again
        Err(_) => start,
    }
}

fn put_absent(page: &[u8], start: usize, out: &mut [u8], at: usize) -> usize
    requires { AbsentFrom page.now out.old start at }
    ensures { Wrote out.old out.new at (record_copy (drop start page.now)) result }
{
    let modifier = start + 2;
    let written = put_bytes(&page[start..modifier], out, at);
    put_bytes(&SET_MODIFIER, out, written)
}

fn put_present(page: &[u8], start: usize, next: usize, out: &mut [u8], at: usize) -> usize
    requires { Placing page.now out.old start next at × SetOperator page.now start next × IsPresent page.now start }
    ensures { Wrote out.old out.new at (record_copy (drop start page.now)) result }
{
    let cut = cardinality_at(page, start, next);
    let form = set_cardinality(page[cut]);
    put_changed(&page[start..next], cut - start, form, out, at)
}

// A binary record in the copy.
pub fn put_operator(page: &[u8], start: usize, next: usize, out: &mut [u8], at: usize) -> usize
    requires { Placing page.now out.old start next at × (get_or page.now start 0 ≡ 9) }
    ensures { Wrote out.old out.new at (record_copy (drop start page.now)) result }
{
    if !is_set_operator(page[start + 1] as u64) {
        put_bytes(&page[start..next], out, at)
    } else if page[start + 2] == 0 {
        put_absent(page, start, out, at)
    } else {
        put_present(page, start, next, out, at)
    }
}
