// Lists as numbers: a count, and so many elements from a start on.
ghost use Rattle.std.specs.Prelude.{◌∷◌, ◌++◌};
ghost use Rattle.record_lines.specs.Line.{Shows};
ghost use Rattle.record_lines.specs.Numbers.{span_numbers, list_numbers};
ghost use Rattle.record_lines.specs.Answers.{mark_numbers, element_numbers, read_element};

use crate::element::{Element, Elements, read_element};
use crate::line::put_spaced;
use crate::number::{put_flag, put_span};
use page::{List, Span};

fn put_mark(mark: Option<bool>, line: &mut [u8], at: usize) -> usize
    ensures { Shows line.old at (mark_numbers mark) line.new result }
{
    match mark {
        None => at,
        Some(flag) => put_flag(flag, line, at),
    }
}

fn put_matcher(
    op: u64,
    name: Span,
    value: Span,
    mark: Option<bool>,
    line: &mut [u8],
    at: usize,
) -> usize
    ensures { Shows line.old at (op ∷ span_numbers name ++ span_numbers value ++ mark_numbers mark) line.new result }
{
    let after_op = put_spaced(op, line, at);
    let after_name = put_span(name, line, after_op);
    let after_value = put_span(value, line, after_name);
    put_mark(mark, line, after_value)
}

fn put_element(element: Element, line: &mut [u8], at: usize) -> usize
    ensures { Shows line.old at (element_numbers element) line.new result }
{
    match element {
        Element::Label(label) => put_span(label, line, at),
        Element::Matcher {
            op,
            name,
            value,
            mark,
        } => put_matcher(op, name, value, mark, line, at),
        Element::Kind(kind) => put_spaced(kind, line, at),
    }
}

// The numbers stop at an element that cannot be read.
pub fn put_list(elements: Elements, page: &[u8], list: List, line: &mut [u8], at: usize) -> usize
    ensures { Shows line.old at (list_numbers (read_element elements page.now) page.now list.start list.count) line.new result }
{
    let mut pos = put_spaced(list.count as u64, line, at);
    let mut from = list.start;
    for _ in 0..list.count {
        match read_element(page, from, elements) {
            Ok((element, next)) => {
                pos = put_element(element, line, pos);
                from = next;
            }
            Err(_) => return pos,
        }
    }
    pos
}
