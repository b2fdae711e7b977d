// Parts of a record that are one to three numbers.
ghost use Rattle.std.specs.Prelude.{[], ◌∷◌};
ghost use Rattle.record_lines.specs.Line.{Shows};
ghost use Rattle.record_lines.specs.Numbers.{option_numbers, itself_number, flag_number, span_numbers, literal_numbers};
ghost use Rattle.record_lines.specs.Numbers.{at_numbers, offset_numbers, variadic_numbers};

use crate::line::put_spaced;
use page::Span;
use records::{AtModifier, Literal, Offset, Variadic};

pub fn put_numbers(numbers: &[u64], line: &mut [u8], at: usize) -> usize
    ensures { Shows line.old at numbers.now line.new result }
{
    let mut end = at;
    for number in numbers {
        end = put_spaced(*number, line, end);
    }
    end
}

pub fn put_flag(flag: bool, line: &mut [u8], at: usize) -> usize
    ensures { Shows line.old at (flag_number flag ∷ []) line.new result }
{
    put_spaced(u64::from(flag), line, at)
}

// Where a text starts, and its size.
pub fn put_span(span: Span, line: &mut [u8], at: usize) -> usize
    ensures { Shows line.old at (span_numbers span) line.new result }
{
    let size = span.end.saturating_sub(span.start);
    put_numbers(&[span.start as u64, size as u64], line, at)
}

pub fn put_literal(literal: Literal, line: &mut [u8], at: usize) -> usize
    ensures { Shows line.old at (literal_numbers literal) line.new result }
{
    match literal {
        Literal::Whole(n) => put_numbers(&[0, n], line, at),
        Literal::Negative(n) => put_numbers(&[1, n], line, at),
        Literal::Nan => put_spaced(2, line, at),
        Literal::Inf => put_spaced(3, line, at),
        Literal::NegInf => put_spaced(4, line, at),
        Literal::Fraction { places, digits } => put_numbers(&[5, digits, places as u64], line, at),
        Literal::NegativeFraction { places, digits } => {
            put_numbers(&[6, digits, places as u64], line, at)
        }
    }
}

pub fn put_step(step: Option<u64>, line: &mut [u8], at: usize) -> usize
    ensures { Shows line.old at (option_numbers itself_number step) line.new result }
{
    match step {
        None => put_spaced(0, line, at),
        Some(ms) => put_numbers(&[1, ms], line, at),
    }
}

pub fn put_at(modifier: AtModifier, line: &mut [u8], at: usize) -> usize
    ensures { Shows line.old at (at_numbers modifier) line.new result }
{
    match modifier {
        AtModifier::Start => put_spaced(0, line, at),
        AtModifier::End => put_spaced(1, line, at),
        AtModifier::After(ms) => put_numbers(&[2, ms], line, at),
        AtModifier::Before(ms) => put_numbers(&[3, ms], line, at),
    }
}

pub fn put_offset(offset: Offset, line: &mut [u8], at: usize) -> usize
    ensures { Shows line.old at (offset_numbers offset) line.new result }
{
    match offset {
        Offset::Pos(ms) => put_numbers(&[0, ms], line, at),
        Offset::Neg(ms) => put_numbers(&[1, ms], line, at),
    }
}

pub fn put_variadic(variadic: Variadic, line: &mut [u8], at: usize) -> usize
    ensures { Shows line.old at (variadic_numbers variadic) line.new result }
{
    match variadic {
        Variadic::Fixed => put_spaced(0, line, at),
        Variadic::Unlimited => put_spaced(1, line, at),
        Variadic::UpTo(extra) => put_numbers(&[2, extra], line, at),
    }
}
