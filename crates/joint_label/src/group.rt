// The group labels of a modifier, read at a position, and the first of them that is also in the on list.
ghost use Rattle.std.specs.Prelude.{length, drop};
ghost use Rattle.page.specs.Number.{read_choice};
ghost use Rattle.page.specs.Text.{read_list};
ghost use Rattle.records.specs.Answers.{labels_on};
ghost use Rattle.ast.specs.Part.{read_placed, placed_forms, part_in};
ghost use Rattle.joint_label.specs.Answers.{PartFound, part_at, first_part, read_grouped};

use judge::label::first_joint;
use page::{Span, TextClass, read_count, read_number, read_text};
use records::{LabelModifier, labels_from, read_flag, read_label_modifier};

// The label that stands at a position.
fn label_at(page: &[u8], at: usize) -> Option<Span>
    ensures { PartFound page.now (part_at (length page.now) (drop at page.now)) result }
{
    let (label, _) = read_text(page, at, TextClass::Any).ok()?;
    Some(label)
}

// The first label of a list that is also in the on list: none where the list cannot be read.
fn joint_in(page: &[u8], at: usize, on: usize, ons: usize) -> Option<Span>
    ensures { PartFound page.now (first_part page.now (labels_on page.now on ons) (read_list read_placed (drop at page.now))) result }
{
    let (count, start) = read_count(page, at).ok()?;
    labels_from(page, start, count).ok()?;
    label_at(page, first_joint(page, start, count, on, ons))
}

// The same of a cardinality: group_left (1) and group_right (2) have labels.
fn joint_of(page: &[u8], at: usize, on: usize, ons: usize) -> Option<Span>
    ensures { PartFound page.now (first_part page.now (labels_on page.now on ons) (read_choice placed_forms (drop at page.now))) result }
{
    let (form, next) = read_number(page, at).ok()?;
    match form {
        1 => joint_in(page, next, on, ons),
        2 => joint_in(page, next, on, ons),
        _ => None,
    }
}

// The same of a modifier, from its bool on: without `on` there is no such label.
pub fn joint_after(page: &[u8], at: usize) -> Option<Span>
    ensures { PartFound page.now (part_in (length page.now) (read_grouped (drop at page.now))) result }
{
    let (_, next) = read_flag(page, at).ok()?;
    let (matching, card) = read_label_modifier(page, next).ok()?;
    match matching {
        None => None,
        Some(LabelModifier::Include(on)) => joint_of(page, card, on.start, on.count),
        Some(LabelModifier::Exclude(_)) => None,
    }
}
