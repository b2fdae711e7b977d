// What a node's text shows of its records, read where they stand: the fields of the record at its foot, and what is
// attached above it.
#![tactic(auto)]

pub mod attached;

ghost use Rattle.std.specs.Prelude.{◌≡◌, false};
ghost use Rattle.page.specs.Answers.{itself, option_of, span_on, Lies};
ghost use Rattle.records.specs.Answers.{literal_of, modifier_on, ModifierStored, label_modifier_on, LabelModifierStored};
ghost use Rattle.records.specs.Record.{leaf, string, selector, wrapper, subquery, binary};
ghost use Rattle.float.specs.Exact.{ModifierExact};
ghost use Rattle.reader.specs.Answers.{selector_on};
ghost use Rattle.text.specs.LaidOut.{Reads};
ghost use Rattle.view.specs.View.{NumberAt, NodeAt};
ghost use Rattle.fields.specs.Fields.{CallAt, HasCode, CodeAt, AggregateAt, SelectorLies};

pub use attached::{Attached, attached_of};
use page::{List, Span, TextClass, read_count, read_number, read_text};
use reader::{Selector, read_code};
use records::{
    BinModifier, LabelModifier, Literal, MatcherFacts, read_label_modifier, read_modifier,
    read_optional_duration,
};
use view::{Foot, Node, fields_start, signed_literal};

// The number, with its sign.
pub fn literal_of(page: &[u8], starts: &[u16], node: Node) -> Literal
    requires node { NodeAt page.now starts.now node }
    requires foot { node.foot ≡ Foot.Number }
    ensures { NumberAt page.now starts.now node.base (literal_of result) }
{
    let base = node.base;
    match signed_literal(page, starts, base) {
        Some(l) => l,
        None => Literal::Nan,
    }
}

// A text without bytes, for one that cannot be read: at a node there is none such.
fn no_text() -> Span
    ensures { result ≡ record { start = 0; end = 0 } }
{
    Span { start: 0, end: 0 }
}

pub fn string_of(page: &[u8], starts: &[u16], node: Node) -> Span
    requires node { NodeAt page.now starts.now node }
    requires foot { node.foot ≡ Foot.String }
    ensures reads { Reads page.now starts.now node.base (leaf (string (span_on page.now result))) }
    ensures lies { Lies page.now result }
{
    let start = fields_start(starts, node.base);
    match read_text(page, start, TextClass::Any) {
        Ok((text, _)) => text,
        Err(_) => no_text(),
    }
}

// The name of a call's function.
pub fn function_of(page: &[u8], starts: &[u16], node: Node) -> Span
    requires node { NodeAt page.now starts.now node }
    requires foot { node.foot ≡ Foot.Call }
    ensures reads { CallAt page.now starts.now node.base result }
    ensures lies { Lies page.now result }
{
    let start = fields_start(starts, node.base);
    match read_text(page, start, TextClass::FunctionName) {
        Ok((name, _)) => name,
        Err(_) => no_text(),
    }
}

// A selector of this name, with these matchers. What the check asks of matchers is of no use for texts.
fn selector(name: Span, matchers: List) -> Selector
    ensures { result ≡ record { name = name; matchers = matchers; facts = record { named = false; empty = false; wrong_flag = false } } }
{
    let facts = MatcherFacts {
        named: false,
        empty: false,
        wrong_flag: false,
    };
    Selector {
        name,
        matchers,
        facts,
    }
}

pub fn selector_of(page: &[u8], starts: &[u16], node: Node) -> Selector
    requires node { NodeAt page.now starts.now node }
    requires foot { node.foot ≡ Foot.Selector }
    ensures reads { Reads page.now starts.now node.base (leaf (selector (selector_on page.now result))) }
    ensures lies { SelectorLies page.now result }
    ensures unasked { (result.facts.named ≡ false) × (result.facts.empty ≡ false) }
{
    let start = fields_start(starts, node.base);
    match read_text(page, start, TextClass::MetricName) {
        Ok((name, next)) => match read_count(page, next) {
            Ok((count, start)) => selector(name, List { start, count }),
            Err(_) => selector(name, List { start: 0, count: 0 }),
        },
        Err(_) => selector(no_text(), List { start: 0, count: 0 }),
    }
}

// Range and step of a subquery.
#[derive(Clone, Copy)]
pub struct Spacing {
    pub range: u64,
    pub step: Option<u64>,
}

pub fn spacing_of(page: &[u8], starts: &[u16], node: Node) -> Spacing
    requires node { NodeAt page.now starts.now node }
    requires foot { node.foot ≡ Foot.Subquery }
    ensures { Reads page.now starts.now node.base (wrapper (subquery result.range (option_of itself result.step))) }
{
    let start = fields_start(starts, node.base);
    match read_number(page, start) {
        Ok((range, next)) => match read_optional_duration(page, next) {
            Ok((step, _)) => Spacing { range, step },
            Err(_) => Spacing {
                range: 0,
                step: None,
            },
        },
        Err(_) => Spacing {
            range: 0,
            step: None,
        },
    }
}

// The code of a binary expression or an aggregate, its first field, and where the field after it starts.
fn code_of(page: &[u8], starts: &[u16], node: Node) -> (u64, usize)
    requires node { NodeAt page.now starts.now node }
    requires foot { HasCode node.foot }
    ensures { CodeAt page.now starts.now node.base result.0 result.1 }
{
    let start = fields_start(starts, node.base);
    match read_code(page, start) {
        Ok((code, next)) => (code, next),
        Err(_) => (0, 0),
    }
}

// The code of a binary expression and its modifier.
#[derive(Clone, Copy)]
pub struct Operator {
    pub code: u64,
    pub modifier: Option<BinModifier>,
}

pub fn operator_of(page: &[u8], starts: &[u16], node: Node) -> Operator
    requires node { NodeAt page.now starts.now node }
    requires foot { node.foot ≡ Foot.Binary }
    ensures reads { Reads page.now starts.now node.base (binary result.code (modifier_on page.now result.modifier)) }
    ensures stored { ModifierStored page.now result.modifier }
    ensures exact { ModifierExact (modifier_on page.now result.modifier) }
{
    let (code, next) = code_of(page, starts, node);
    match read_modifier(page, next) {
        Ok((modifier, _)) => Operator { code, modifier },
        Err(_) => Operator {
            code: 0,
            modifier: None,
        },
    }
}

// The code of an aggregate and its grouping.
#[derive(Clone, Copy)]
pub struct Aggregator {
    pub code: u64,
    pub grouping: Option<LabelModifier>,
}

pub fn aggregator_of(page: &[u8], starts: &[u16], node: Node) -> Aggregator
    requires node { NodeAt page.now starts.now node }
    requires foot { node.foot ≡ Foot.Aggregate }
    ensures reads { AggregateAt page.now starts.now node.base result.code (label_modifier_on page.now result.grouping) }
    ensures stored { LabelModifierStored page.now result.grouping }
{
    let (code, next) = code_of(page, starts, node);
    match read_label_modifier(page, next) {
        Ok((grouping, _)) => Aggregator { code, grouping },
        Err(_) => Aggregator {
            code: 0,
            grouping: None,
        },
    }
}
