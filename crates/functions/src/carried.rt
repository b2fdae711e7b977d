// The signature that a call carries, beside a table's (document 02, No. 2). A signature has one form on a page, so that
// the bytes behind the name decide.
ghost use Rattle.std.specs.Prelude.{◌≡◌, ◌≤◌, length, drop};
ghost use Rattle.page.specs.Answers.{Lies};
ghost use Rattle.functions.specs.Answers.{begins_with, Compares};

use crate::form::Table;
use page::{Span, text_at};

#[derive(Clone, Copy)]
pub enum Carried {
    Like,
    Unlike,
    Unknown,
}

// Whether the bytes of the page from a position on begin with a text.
fn begins_at(page: &[u8], at: usize, text: &[u8]) -> bool
    requires { at ≤ length page.now }
    ensures { result ≡ begins_with text.now (drop at page.now) }
{
    page[at..].starts_with(text)
}

impl<'a> Table<'a> {
    // The name of a call, and the signature that stands behind it, beside those of the table.
    pub fn compare_signature(&self, page: &[u8], name: Span) -> Carried
        requires { Lies page.now name }
        ensures { Compares page.now name self.now result }
    {
        let end = name.end;
        match self.find(text_at(page, name)) {
            Some(place) => {
                if begins_at(page, end, self.signature(place)) {
                    return Carried::Like;
                }
                Carried::Unlike
            }
            None => Carried::Unknown,
        }
    }
}
