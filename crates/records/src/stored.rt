// A matcher that can be read: its operator and its flag are one byte each, its texts end where their lengths say. No
// byte is tested again.
ghost use Rattle.std.specs.Prelude.{◌≡◌, drop};
ghost use Rattle.page.specs.Read.{got};
ghost use Rattle.page.specs.Listed.{Readable};
ghost use Rattle.records.specs.Matcher.{read_matcher};
ghost use Rattle.records.specs.Answers.{matcher_on, MatcherLies};

use crate::matcher::{MatchOp, Matcher};
use page::stored_text;

// A matcher and the position after it.
pub fn stored_matcher(page: &[u8], at: usize) -> (Matcher, usize)
    requires { Readable read_matcher (drop at page.now) }
    ensures reads { got (matcher_on page.now result.0) (drop result.1 page.now) ≡ read_matcher (drop at page.now) }
    ensures lies { MatcherLies page.now result.0 }
{
    let number = page[at];
    let name = stored_text(page, at + 1);
    let value = stored_text(page, name.end);
    let next = value.end;
    if number == 0 {
        let op = MatchOp::Equal;
        return (Matcher { op, name, value }, next);
    }
    if number == 1 {
        let op = MatchOp::NotEqual;
        return (Matcher { op, name, value }, next);
    }
    let flag = page[next] == 1;
    let op = if number == 2 {
        MatchOp::Re(flag)
    } else {
        MatchOp::NotRe(flag)
    };
    (Matcher { op, name, value }, next + 1)
}
