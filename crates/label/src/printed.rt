// What a matcher prints: sixteen of these are sorted by their texts.
ghost use Rattle.std.specs.Prelude.{◌≡◌};
ghost use Rattle.page.specs.Answers.{span_on};
ghost use Rattle.records.specs.Answers.{op_of};
ghost use Rattle.label.specs.Label.{at_most};
ghost use Rattle.label.specs.Printed.{Prints, printed_text, name_of, value_of};

use crate::parts::Parts;
use page::{Span, text_at};
use records::MatchOp;

// Where on the page the name and the value start, and how many bytes they have; whether the name is a label; the
// operator. Small, since sixteen are kept and moved.
#[derive(Clone, Copy)]
pub struct Printed {
    pub name_start: u32,
    pub value_start: u16,
    pub name_size: u8,
    pub value_size: u8,
    pub bare: bool,
    pub op: MatchOp,
}

impl Printed {
    pub fn name(&self) -> Span
        ensures { result ≡ name_of self.now }
    {
        let start = self.name_start as usize;
        Span {
            start,
            end: start + self.name_size as usize,
        }
    }

    pub fn value(&self) -> Span
        ensures { result ≡ value_of self.now }
    {
        let start = self.value_start as usize;
        Span {
            start,
            end: start + self.value_size as usize,
        }
    }
}

// The parts as the texts that they are on the page.
fn parts<'a>(page: &'a [u8], printed: Printed) -> Parts<'a>
    requires { Prints page.now printed }
    ensures name { result.name.now ≡ span_on page.now (name_of printed) }
    ensures value { result.value.now ≡ span_on page.now (value_of printed) }
    ensures op { result.op ≡ printed.op }
{
    Parts {
        name: text_at(page, printed.name()),
        bare: printed.bare,
        op: printed.op,
        value: text_at(page, printed.value()),
    }
}

// Whether the first one's text comes no later than the second's.
pub fn printed_at_most(page: &[u8], a: Printed, b: Printed) -> bool
    requires { Prints page.now a × Prints page.now b }
    ensures { result ≡ at_most (printed_text page.now a) (printed_text page.now b) }
{
    parts(page, a).is_at_most(&parts(page, b))
}
