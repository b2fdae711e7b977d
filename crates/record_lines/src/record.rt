// Records as numbers: the kind, and the fields in the order of the page.
ghost use Rattle.std.specs.Prelude.{◌≡◌, [], ◌∷◌, ◌++◌};
ghost use Rattle.record_lines.specs.Line.{Shows};
ghost use Rattle.record_lines.specs.Numbers.{option_numbers, itself_number, label_modifier_numbers};
ghost use Rattle.record_lines.specs.Numbers.{bin_modifier_numbers, selector_numbers, function_numbers, field_numbers};
ghost use Rattle.record_lines.specs.Numbers.{record_kind, record_numbers};

use crate::element::Elements;
use crate::line::put_spaced;
use crate::list::put_list;
use crate::modifier::{put_label_modifier, put_modifier};
use crate::number::{put_at, put_literal, put_offset, put_span, put_step, put_variadic};
use reader::{Record, Selector};
use records::{BinModifier, Function, LabelModifier, kind_number};

fn put_selector(page: &[u8], selector: Selector, line: &mut [u8], at: usize) -> usize
    ensures { Shows line.old at (selector_numbers page.now selector) line.new result }
{
    let after_name = put_span(selector.name, line, at);
    put_list(
        Elements::Matchers,
        page,
        selector.matchers,
        line,
        after_name,
    )
}

fn put_subquery(range: u64, step: Option<u64>, line: &mut [u8], at: usize) -> usize
    ensures { Shows line.old at (range ∷ option_numbers itself_number step) line.new result }
{
    let next = put_spaced(range, line, at);
    put_step(step, line, next)
}

fn put_binary(
    page: &[u8],
    code: u64,
    modifier: Option<BinModifier>,
    line: &mut [u8],
    at: usize,
) -> usize
    ensures { Shows line.old at (code ∷ option_numbers (bin_modifier_numbers page.now) modifier) line.new result }
{
    let next = put_spaced(code, line, at);
    put_modifier(page, modifier, line, next)
}

fn put_aggregate(
    page: &[u8],
    code: u64,
    grouping: Option<LabelModifier>,
    count: usize,
    line: &mut [u8],
    at: usize,
) -> usize
    ensures { Shows line.old at (code ∷ label_modifier_numbers page.now grouping ++ (count ∷ [])) line.new result }
{
    let next = put_spaced(code, line, at);
    let after = put_label_modifier(page, grouping, line, next);
    put_spaced(count as u64, line, after)
}

fn put_function(page: &[u8], function: Function, line: &mut [u8], at: usize) -> usize
    ensures { Shows line.old at (function_numbers page.now function) line.new result }
{
    let after_name = put_span(function.name, line, at);
    let after_kinds = put_list(Elements::Kinds, page, function.kinds, line, after_name);
    let after_variadic = put_variadic(function.variadic, line, after_kinds);
    put_spaced(kind_number(function.result), line, after_variadic)
}

fn put_call(page: &[u8], function: Function, count: usize, line: &mut [u8], at: usize) -> usize
    ensures { Shows line.old at (function_numbers page.now function ++ (count ∷ [])) line.new result }
{
    let next = put_function(page, function, line, at);
    put_spaced(count as u64, line, next)
}

fn put_fields(page: &[u8], item: Record, line: &mut [u8], at: usize) -> usize
    ensures { Shows line.old at (field_numbers page.now item) line.new result }
{
    match item {
        Record::Number(literal) => put_literal(literal, line, at),
        Record::String(text) => put_span(text, line, at),
        Record::Selector(selector) => put_selector(page, selector, line, at),
        Record::Range(ms) => put_spaced(ms, line, at),
        Record::Subquery { range, step } => put_subquery(range, step, line, at),
        Record::At(modifier) => put_at(modifier, line, at),
        Record::Offset(offset) => put_offset(offset, line, at),
        Record::Unary => at,
        Record::Paren => at,
        Record::Binary { code, modifier } => put_binary(page, code, modifier, line, at),
        Record::Aggregate {
            code,
            grouping,
            count,
        } => put_aggregate(page, code, grouping, count, line, at),
        Record::Call { function, count } => put_call(page, function, count, line, at),
    }
}

fn record_kind(item: Record) -> u64
    ensures { result ≡ record_kind item }
{
    match item {
        Record::Number(_) => 0,
        Record::String(_) => 1,
        Record::Selector(_) => 2,
        Record::Range(_) => 3,
        Record::Subquery { .. } => 4,
        Record::At(_) => 5,
        Record::Offset(_) => 6,
        Record::Unary => 7,
        Record::Paren => 8,
        Record::Binary { .. } => 9,
        Record::Aggregate { .. } => 10,
        Record::Call { .. } => 11,
    }
}

pub fn put_record(page: &[u8], item: Record, line: &mut [u8], at: usize) -> usize
    ensures { Shows line.old at (record_numbers page.now item) line.new result }
{
    let next = put_spaced(record_kind(item), line, at);
    put_fields(page, item, line, next)
}
