// Texts: a length and bytes, one field. Cut short is a bad field, then too long, then not allowed.
ghost use Rattle.std.specs.Prelude.{◌≡◌, drop};
ghost use Rattle.page.specs.Bytes.{equal};
ghost use Rattle.page.specs.Read.{got};
ghost use Rattle.page.specs.Text.{is_selector_name, read_any_text};
ghost use Rattle.page.specs.Listed.{Readable};
ghost use Rattle.page.specs.Answers.{field_at, limit_of, allowed_by, read_text_of, span_on, Lies, text_lies, SizeEnds};
ghost use Rattle.page.specs.Answers.{EverydayText, Within};

use crate::ascii::is_ascii;
use crate::fault::Fault;
use crate::field::Field;
use crate::limit::{FUNCTION_NAME_LIMIT, TEXT_LIMIT};
use crate::name::{is_label, is_metric_name, is_text};
use crate::number::read_number;

// A part of the page, from its first byte to the position after its last.
#[derive(Clone, Copy)]
pub struct Span {
    pub start: usize,
    pub end: usize,
}

// The bytes of a part.
pub fn text_at(page: &[u8], span: Span) -> &[u8]
    requires { Lies page.now span }
    ensures { result.now ≡ span_on page.now span }
{
    let start = span.start;
    let end = span.end;
    &page[start..end]
}

// The texts of a page: strings, labels and values; metric names; function names.
#[derive(Clone, Copy)]
pub enum TextClass {
    Any,
    MetricName,
    FunctionName,
}

pub fn text_limit(class: TextClass) -> usize
    ensures { result ≡ limit_of class }
{
    match class {
        TextClass::Any => TEXT_LIMIT,
        TextClass::MetricName => TEXT_LIMIT,
        TextClass::FunctionName => FUNCTION_NAME_LIMIT,
    }
}

// A selector's name, or no bytes where there is none.
pub fn is_selector_name(text: &[u8]) -> bool
    ensures { result ≡ is_selector_name text.now }
{
    if text.len() == 0 {
        return true;
    }
    is_metric_name(text)
}

pub fn text_allowed(text: &[u8], class: TextClass) -> bool
    ensures { result ≡ allowed_by class text.now }
{
    match class {
        TextClass::Any => is_text(text),
        TextClass::MetricName => is_selector_name(text),
        TextClass::FunctionName => is_label(text),
    }
}

// Any text, by its class: its length, that it is whole, its limit, its test.
fn read_by_class(page: &[u8], at: usize, class: TextClass) -> Field<Span>
    ensures reads { field_at (span_on page.now) page.now result ≡ read_text_of class (drop at page.now) }
    ensures lies { text_lies page.now result }
{
    let (n, start) = read_number(page, at)?;
    let size = n as usize;
    if page.len() - start < size {
        return Err(Fault::BadField);
    }
    if text_limit(class) < size {
        return Err(Fault::PastLimit);
    }
    let end = start + size;
    if text_allowed(&page[start..end], class) {
        Ok((Span { start, end }, end))
    } else {
        Err(Fault::BadText)
    }
}

// Where the bytes of a text start whose length has one byte, or two with 1 for the second: the first byte is then its
// size. None where its length is another, or there is none.
fn size_end(page: &[u8], at: usize) -> Option<usize>
    ensures { SizeEnds page.now at result }
{
    if page.len() <= at {
        return None;
    }
    if page[at] < 128 {
        return Some(at + 1);
    }
    if page.len() <= at + 1 {
        return None;
    }
    if page[at + 1] == 1 {
        return Some(at + 2);
    }
    None
}

// Where such a text lies that is whole and ASCII.
fn everyday_text(page: &[u8], at: usize) -> Option<Span>
    ensures { EverydayText page.now at result }
{
    let start = size_end(page, at)?;
    let size = page[at] as usize;
    if page.len() - start < size {
        return None;
    }
    let end = start + size;
    if is_ascii(&page[start..end]) {
        Some(Span { start, end })
    } else {
        None
    }
}

// Texts that are no names are ASCII and at most 255 bytes long every day: this part is small enough for the compiler to
// put it into each reader. All else goes the long way.
pub fn read_text(page: &[u8], at: usize, class: TextClass) -> Field<Span>
    ensures reads { field_at (span_on page.now) page.now result ≡ read_text_of class (drop at page.now) }
    ensures lies { text_lies page.now result }
{
    match class {
        TextClass::Any => match everyday_text(page, at) {
            Some(span) => Ok((span, span.end)),
            None => read_by_class(page, at, class),
        },
        TextClass::MetricName => read_by_class(page, at, class),
        TextClass::FunctionName => read_by_class(page, at, class),
    }
}

// A text that can be read: its length says where it ends, and its bytes are not tested again.
pub fn stored_text(page: &[u8], at: usize) -> Span
    requires { Readable read_any_text (drop at page.now) }
    ensures reads { got (span_on page.now result) (drop result.end page.now) ≡ read_any_text (drop at page.now) }
    ensures lies { Lies page.now result }
{
    match read_number(page, at) {
        Ok((n, start)) => Span {
            start,
            end: start + n as usize,
        },
        Err(_) => Span { start: at, end: at },
    }
}

// Whether two texts have the same bytes.
pub fn same_text(a: &[u8], b: &[u8]) -> bool
    ensures { result ≡ equal a.now b.now }
{
    a == b
}

// A position of the page that stands for the same bytes: what is past the end is the end.
pub fn within(page: &[u8], at: usize) -> usize
    ensures { Within page.now at result }
{
    if at <= page.len() {
        return at;
    }
    page.len()
}
