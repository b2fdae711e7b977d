// The record that a refusal names, found by reading those before it, and its label.
ghost use Rattle.std.specs.Prelude.{◌≡◌, length, drop};
ghost use Rattle.records.specs.Outcome.{refusal};
ghost use Rattle.ast.specs.Part.{from_record, read_joint, part_in, label_part};
ghost use Rattle.joint_label.specs.Answers.{IsPart, PartFound};

use crate::group::joint_after;
use page::{Span, read_number};
use reader::{read_code, read_record};

// Where a record starts; the end of the page where one before it cannot be read.
fn record_start(page: &[u8], index: usize) -> usize
    ensures { drop result page.now ≡ from_record index page.now }
{
    let mut at = 0;
    for _ in 0..index {
        let Ok((_, next)) = read_record(page, at) else {
            return page.len();
        };
        at = next;
    }
    at
}

// The modifier of a binary record starts after the kind, the code and the 1 that says that there is one.
fn joint_at(page: &[u8], at: usize) -> Option<Span>
    ensures { PartFound page.now (part_in (length page.now) (read_joint (drop at page.now))) result }
{
    let (_, code) = read_number(page, at).ok()?;
    let (_, present) = read_code(page, code).ok()?;
    let (_, modifier) = read_number(page, present).ok()?;
    joint_after(page, modifier)
}

// The label's part of a page that is refused with a number at a record.
pub fn joint_label(page: &[u8], number: u64, index: usize) -> Span
    ensures { IsPart page.now (label_part page.now (refusal number index)) result }
{
    if number == 19 {
        let start = record_start(page, index);
        if let Some(label) = joint_at(page, start) {
            return label;
        }
    }
    Span { start: 0, end: 0 }
}
