// Matchers (label/matcher.rs, `Matcher`, `MatchOp`) and lists of them.
ghost use Rattle.std.specs.Prelude.{◌≡◌, ◌≤◌, drop};
ghost use Rattle.page.specs.Read.{repeat, reader_at};
ghost use Rattle.page.specs.Text.{read_list};
ghost use Rattle.page.specs.Answers.{field_at, span_on, Lies};
ghost use Rattle.records.specs.Matcher.{read_matcher, is_metric_label, is_wrong_flag};
ghost use Rattle.records.specs.MatcherFacts.{read_matcher_facts, pattern_facts, fact_forms, matcher_field, matchers_of, matchers_stored};

use crate::kind::read_flag;
use page::{
    Fault, Field, List, Span, TextClass, read_count, read_number, read_text, same_text, text_at,
};
use patterns::matches_empty_text;

// How a matcher compares; a pattern has the flag that it matches empty text.
#[derive(Clone, Copy)]
pub enum MatchOp {
    Equal,
    NotEqual,
    Re(bool),
    NotRe(bool),
}

// A matcher: name and value are parts of the page.
#[derive(Clone, Copy)]
pub struct Matcher {
    pub op: MatchOp,
    pub name: Span,
    pub value: Span,
}

// What the check asks of a matcher: whether it is named `__name__`, whether it accepts empty text, whether the flag of
// its pattern is wrong. Of a list: whether one is so named, whether all accept it, whether one has such a flag.
#[derive(Clone, Copy)]
pub struct MatcherFacts {
    pub named: bool,
    pub empty: bool,
    pub wrong_flag: bool,
}

fn is_metric_label(page: &[u8], name: Span) -> bool
    requires { Lies page.now name }
    ensures { result ≡ is_metric_label (span_on page.now name) }
{
    same_text(text_at(page, name), b"__name__")
}

// Whether the flag of a covered pattern is not what the pattern says of empty text.
fn is_wrong_flag(flag: bool, pattern: &[u8]) -> bool
    ensures { result ≡ is_wrong_flag flag pattern.now }
{
    match matches_empty_text(pattern) {
        Some(empty) => flag != empty,
        None => false,
    }
}

// The facts of one matcher and the position after it. As a `Field` of a struct they cost a page with sixteen matchers
// 15 % more instructions in check.
#[derive(Clone, Copy)]
pub enum MatcherField {
    Got {
        named: bool,
        empty: bool,
        wrong_flag: bool,
        next: usize,
    },
    Bad(Fault),
}

// The flag after a pattern, inverted by `!~` where it says what the matcher accepts.
fn read_pattern_facts(page: &[u8], value: Span, op: u64, named: bool) -> MatcherField
    requires { Lies page.now value }
    ensures { matcher_field page.now result ≡ pattern_facts op named (span_on page.now value) (drop value.end page.now) }
{
    match read_flag(page, value.end) {
        Ok((flag, next)) => {
            let wrong_flag = is_wrong_flag(flag, text_at(page, value));
            let empty = if op == 2 { flag } else { !flag };
            MatcherField::Got {
                named,
                empty,
                wrong_flag,
                next,
            }
        }
        Err(fault) => MatcherField::Bad(fault),
    }
}

// The rest of a matcher, after its name.
fn read_value_facts(page: &[u8], at: usize, op: u64, named: bool) -> MatcherField
    requires { op ≤ 3 }
    ensures { matcher_field page.now result ≡ reader_at (fact_forms named) op (drop at page.now) }
{
    match read_text(page, at, TextClass::Any) {
        Ok((value, next)) => {
            if 2 <= op {
                return read_pattern_facts(page, value, op, named);
            }
            let is_empty = value.start == value.end;
            let empty = if op == 0 { is_empty } else { !is_empty };
            MatcherField::Got {
                named,
                empty,
                wrong_flag: false,
                next,
            }
        }
        Err(fault) => MatcherField::Bad(fault),
    }
}

// A matcher read for its facts alone.
pub fn read_matcher_facts(page: &[u8], at: usize) -> MatcherField
    ensures { matcher_field page.now result ≡ read_matcher_facts (drop at page.now) }
{
    match read_number(page, at) {
        Ok((op, next)) => {
            if 3 < op {
                return MatcherField::Bad(Fault::BadField);
            }
            match read_text(page, next, TextClass::Any) {
                Ok((name, next)) => read_value_facts(page, next, op, is_metric_label(page, name)),
                Err(fault) => MatcherField::Bad(fault),
            }
        }
        Err(fault) => MatcherField::Bad(fault),
    }
}

// Matchers, and the facts of all of them.
#[derive(Clone, Copy)]
pub struct Matchers {
    pub list: List,
    pub facts: MatcherFacts,
}

// So many matchers from a position on.
pub fn matchers_from(page: &[u8], start: usize, count: usize) -> Field<Matchers>
    ensures reads { field_at (matchers_of page.now) page.now result ≡ repeat count read_matcher (drop start page.now) }
    ensures facts { matchers_stored page.now result }
{
    let mut at = start;
    let mut facts = MatcherFacts {
        named: false,
        empty: true,
        wrong_flag: false,
    };
    for _ in 0..count {
        match read_matcher_facts(page, at) {
            MatcherField::Got {
                named,
                empty,
                wrong_flag,
                next,
            } => {
                facts = MatcherFacts {
                    named: facts.named | named,
                    empty: facts.empty & empty,
                    wrong_flag: facts.wrong_flag | wrong_flag,
                };
                at = next;
            }
            MatcherField::Bad(fault) => return Err(fault),
        }
    }
    let list = List { start, count };
    Ok((Matchers { list, facts }, at))
}

// A count, and so many matchers.
pub fn read_matchers(page: &[u8], at: usize) -> Field<Matchers>
    ensures reads { field_at (matchers_of page.now) page.now result ≡ read_list read_matcher (drop at page.now) }
    ensures facts { matchers_stored page.now result }
{
    let (count, start) = read_count(page, at)?;
    matchers_from(page, start, count)
}
