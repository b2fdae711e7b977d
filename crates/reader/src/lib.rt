// The twelve records (document 01, 'The page', kinds 0 to 11), read at a position.
#![tactic(auto)]

ghost use Rattle.std.specs.Prelude.{ℕ, List, ◌≡◌, drop};
ghost use Rattle.page.specs.Read.{reader_at};
ghost use Rattle.page.specs.Answers.{field_at, itself};
ghost use Rattle.records.specs.Record.{operands, read_code, record_forms, read_record};
ghost use Rattle.reader.specs.Answers.{record_on, record_lies};

use page::{Fault, Field, Span, TextClass, read_count, read_number, read_text};
use records::{
    AtModifier, BinModifier, Function, LabelModifier, Literal, MatcherFacts, Offset,
    read_at_modifier, read_function, read_label_modifier, read_literal, read_matchers,
    read_modifier, read_offset, read_optional_duration, wrapped,
};

// A selector: its name, a part without bytes where there is none, its matchers, and what the check asks of all of them.
#[derive(Clone, Copy)]
pub struct Selector {
    pub name: Span,
    pub matchers: page::List,
    pub facts: MatcherFacts,
}

#[derive(Clone, Copy)]
pub enum Record {
    Number(Literal),
    String(Span),
    Selector(Selector),
    Range(u64),
    Subquery {
        range: u64,
        step: Option<u64>,
    },
    At(AtModifier),
    Offset(Offset),
    Unary,
    Paren,
    Binary {
        code: u64,
        modifier: Option<BinModifier>,
    },
    Aggregate {
        code: u64,
        grouping: Option<LabelModifier>,
        count: usize,
    },
    Call {
        function: Function,
        count: usize,
    },
}

// How many operands a record takes.
pub fn operand_count(item: Record) -> usize
    ensures { (page : List ℕ) → result ≡ operands (record_on page item) }
{
    match item {
        Record::Number(_) => 0,
        Record::String(_) => 0,
        Record::Selector(_) => 0,
        Record::Range(_) => 1,
        Record::Subquery { .. } => 1,
        Record::At(_) => 1,
        Record::Offset(_) => 1,
        Record::Unary => 1,
        Record::Paren => 1,
        Record::Binary { .. } => 2,
        Record::Aggregate { count, .. } => count,
        Record::Call { count, .. } => count,
    }
}

// The code of an operator or an aggregator, 1 to 30.
pub fn read_code(page: &[u8], at: usize) -> Field<u64>
    ensures { field_at itself page.now result ≡ read_code (drop at page.now) }
{
    let (code, next) = read_number(page, at)?;
    if (1 <= code) & (code <= 30) {
        Ok((code, next))
    } else {
        Err(Fault::BadField)
    }
}

fn read_selector(page: &[u8], at: usize) -> Field<Record>
    ensures reads { field_at (record_on page.now) page.now result ≡ reader_at record_forms 2 (drop at page.now) }
    ensures lies { record_lies page.now result }
{
    let (name, next) = read_text(page, at, TextClass::MetricName)?;
    let (matchers, next) = read_matchers(page, next)?;
    let selector = Selector {
        name,
        matchers: matchers.list,
        facts: matchers.facts,
    };
    Ok((Record::Selector(selector), next))
}

fn read_subquery(page: &[u8], at: usize) -> Field<Record>
    ensures reads { field_at (record_on page.now) page.now result ≡ reader_at record_forms 4 (drop at page.now) }
    ensures lies { record_lies page.now result }
{
    let (range, next) = read_number(page, at)?;
    let (step, next) = read_optional_duration(page, next)?;
    Ok((Record::Subquery { range, step }, next))
}

fn read_binary(page: &[u8], at: usize) -> Field<Record>
    ensures reads { field_at (record_on page.now) page.now result ≡ reader_at record_forms 9 (drop at page.now) }
    ensures lies { record_lies page.now result }
{
    let (code, next) = read_code(page, at)?;
    let (modifier, next) = read_modifier(page, next)?;
    Ok((Record::Binary { code, modifier }, next))
}

fn read_aggregate(page: &[u8], at: usize) -> Field<Record>
    ensures reads { field_at (record_on page.now) page.now result ≡ reader_at record_forms 10 (drop at page.now) }
    ensures lies { record_lies page.now result }
{
    let (code, next) = read_code(page, at)?;
    let (grouping, next) = read_label_modifier(page, next)?;
    let (count, next) = read_count(page, next)?;
    let record = Record::Aggregate {
        code,
        grouping,
        count,
    };
    Ok((record, next))
}

fn read_call(page: &[u8], at: usize) -> Field<Record>
    ensures reads { field_at (record_on page.now) page.now result ≡ reader_at record_forms 11 (drop at page.now) }
    ensures lies { record_lies page.now result }
{
    let (function, next) = read_function(page, at)?;
    let (count, next) = read_count(page, next)?;
    Ok((Record::Call { function, count }, next))
}

// The record of a kind, after the kind's number.
fn read_fields(page: &[u8], at: usize, kind: u64) -> Field<Record>
    ensures reads { field_at (record_on page.now) page.now result ≡ reader_at record_forms kind (drop at page.now) }
    ensures lies { record_lies page.now result }
{
    match kind {
        0 => wrapped(read_literal(page, at), Record::Number),
        1 => wrapped(read_text(page, at, TextClass::Any), Record::String),
        2 => read_selector(page, at),
        3 => wrapped(read_number(page, at), Record::Range),
        4 => read_subquery(page, at),
        5 => wrapped(read_at_modifier(page, at), Record::At),
        6 => wrapped(read_offset(page, at), Record::Offset),
        7 => Ok((Record::Unary, at)),
        8 => Ok((Record::Paren, at)),
        9 => read_binary(page, at),
        10 => read_aggregate(page, at),
        11 => read_call(page, at),
        _ => Err(Fault::BadField),
    }
}

// The record at a position and the position after it: for every page and every position.
pub fn read_record(page: &[u8], at: usize) -> Field<Record>
    ensures reads { field_at (record_on page.now) page.now result ≡ read_record (drop at page.now) }
    ensures lies { record_lies page.now result }
{
    let (kind, next) = read_number(page, at)?;
    read_fields(page, next, kind)
}
