// The elements of lists as numbers, read again where they stand: labels, matchers, kinds.
ghost use Rattle.std.specs.Prelude.{◌≡◌, drop};
ghost use Rattle.page.specs.Answers.{field_at};
ghost use Rattle.record_lines.specs.Numbers.{read_label_numbers, read_kind_numbers, read_pattern_flag_numbers};
ghost use Rattle.record_lines.specs.Numbers.{read_matcher_texts, read_matcher_numbers};
ghost use Rattle.record_lines.specs.Answers.{mark_numbers, element_numbers, read_element};

use page::{Fault, Field, Span, TextClass, read_number, read_text};
use records::{kind_number, read_flag};

// A label where it stands; the number of a matcher's operator, where its name and its value stand, and the flag of a
// pattern; the number of a kind.
#[derive(Clone, Copy)]
pub enum Element {
    Label(Span),
    Matcher {
        op: u64,
        name: Span,
        value: Span,
        mark: Option<bool>,
    },
    Kind(u64),
}

fn read_label(page: &[u8], at: usize) -> Field<Element>
    ensures { field_at element_numbers page.now result ≡ read_label_numbers page.now (drop at page.now) }
{
    let (label, next) = read_text(page, at, TextClass::Any)?;
    Ok((Element::Label(label), next))
}

fn read_kind(page: &[u8], at: usize) -> Field<Element>
    ensures { field_at element_numbers page.now result ≡ read_kind_numbers (drop at page.now) }
{
    let (kind, next) = records::read_kind(page, at)?;
    Ok((Element::Kind(kind_number(kind)), next))
}

// The flag of a pattern, after its value.
fn read_mark(page: &[u8], at: usize, op: u64) -> Field<Option<bool>>
    ensures { field_at mark_numbers page.now result ≡ read_pattern_flag_numbers op (drop at page.now) }
{
    if op < 2 {
        return Ok((None, at));
    }
    let (flag, next) = read_flag(page, at)?;
    Ok((Some(flag), next))
}

// The rest of a matcher, after its operator.
fn read_texts(page: &[u8], at: usize, op: u64) -> Field<Element>
    ensures { field_at element_numbers page.now result ≡ read_matcher_texts page.now op (drop at page.now) }
{
    let (name, next) = read_text(page, at, TextClass::Any)?;
    let (value, next) = read_text(page, next, TextClass::Any)?;
    let (mark, next) = read_mark(page, next, op)?;
    let matcher = Element::Matcher {
        op,
        name,
        value,
        mark,
    };
    Ok((matcher, next))
}

fn read_matcher(page: &[u8], at: usize) -> Field<Element>
    ensures { field_at element_numbers page.now result ≡ read_matcher_numbers page.now (drop at page.now) }
{
    let (op, next) = read_number(page, at)?;
    if op <= 3 {
        read_texts(page, next, op)
    } else {
        Err(Fault::BadField)
    }
}

// What a list has.
#[derive(Clone, Copy)]
pub enum Elements {
    Labels,
    Matchers,
    Kinds,
}

pub fn read_element(page: &[u8], at: usize, elements: Elements) -> Field<Element>
    ensures { field_at element_numbers page.now result ≡ read_element elements page.now (drop at page.now) }
{
    match elements {
        Elements::Labels => read_label(page, at),
        Elements::Matchers => read_matcher(page, at),
        Elements::Kinds => read_kind(page, at),
    }
}
