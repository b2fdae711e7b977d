// Fills (ast.rs, `VectorMatchFillValues`): equal by value they print as one, with the right number; else each that is
// there. The digits are the literals'; the comparison is that of the values.
ghost use Rattle.std.specs.Prelude.{◌≡◌, ◌+◌, ◌≤◌, length};
ghost use Rattle.base.specs.Splice.{Wrote};
ghost use Rattle.records.specs.Float.{IsExact};
ghost use Rattle.records.specs.Allowed.{IsFill};
ghost use Rattle.page.specs.Answers.{option_of};
ghost use Rattle.records.specs.Answers.{literal_of};
ghost use Rattle.float.specs.Fills.{fill_values};
ghost use Rattle.leaves.specs.Numeral.{display_fill};
ghost use Rattle.text.specs.Display.{display_fills};
ghost use Rattle.tokens.specs.Labelled.{fill_digits, filled_bytes, both_fills};

use float::{FillValues, same_fills};
use leaves::{numeral_len, put_fill};
use page::{put_byte, put_bytes};
use records::Literal;

// The length with a token of so many bytes.
fn filled_len(token: usize, literal: Literal) -> usize
    requires token { token ≤ 11 }
    requires exact { IsExact (literal_of literal) }
    ensures { result ≡ token + 3 + length (display_fill (literal_of literal)) }
{
    token + 3 + numeral_len(literal)
}

fn put_filled(token: &[u8], literal: Literal, out: &mut [u8], at: usize) -> usize
    requires { at + length (filled_bytes token.now (literal_of literal)) ≤ length out.old }
    ensures { Wrote out.old out.new at (filled_bytes token.now (literal_of literal)) result }
{
    let bracket = put_bytes(token, out, at);
    let number = put_bytes(b" (", out, bracket);
    let closing = put_fill(literal, out, number);
    put_byte(b')', out, closing)
}

// Both fills are there.
fn both_len(same: bool, left: Literal, right: Literal) -> usize
    requires { IsExact (literal_of left) × IsExact (literal_of right) }
    ensures { result ≡ length (both_fills same (literal_of left) (literal_of right)) }
{
    if same {
        return filled_len(5, right);
    }
    filled_len(10, left) + filled_len(11, right)
}

fn put_both(same: bool, left: Literal, right: Literal, out: &mut [u8], at: usize) -> usize
    requires { at + length (both_fills same (literal_of left) (literal_of right)) ≤ length out.old }
    ensures { Wrote out.old out.new at (both_fills same (literal_of left) (literal_of right)) result }
{
    if same {
        return put_filled(b" fill", right, out, at);
    }
    let next = put_filled(b" fill_left", left, out, at);
    put_filled(b" fill_right", right, out, next)
}

// The digits of a fill, and those of 0 where there is none, which nobody prints.
fn digits_of(fill: Option<Literal>) -> Literal
    ensures { literal_of result ≡ fill_digits (option_of literal_of fill) }
{
    match fill {
        None => Literal::Whole(0),
        Some(literal) => literal,
    }
}

// The bools of the values say which fills are there, the numbers whether they are equal; the digits are the literals'.
pub fn fills_len(values: FillValues, lhs: Option<Literal>, rhs: Option<Literal>) -> usize
    requires { (values ≡ fill_values (option_of literal_of lhs) (option_of literal_of rhs)) × IsFill (option_of literal_of lhs) × IsFill (option_of literal_of rhs) }
    ensures { result ≡ length (display_fills (option_of literal_of lhs) (option_of literal_of rhs)) }
{
    if values.has_left {
        if values.has_right {
            return both_len(same_fills(values), digits_of(lhs), digits_of(rhs));
        }
        return filled_len(10, digits_of(lhs));
    }
    if values.has_right {
        return filled_len(11, digits_of(rhs));
    }
    0
}

pub fn put_fills(
    values: FillValues,
    lhs: Option<Literal>,
    rhs: Option<Literal>,
    out: &mut [u8],
    at: usize,
) -> usize
    requires exact { (values ≡ fill_values (option_of literal_of lhs) (option_of literal_of rhs)) × IsFill (option_of literal_of lhs) × IsFill (option_of literal_of rhs) }
    requires room { at + length (display_fills (option_of literal_of lhs) (option_of literal_of rhs)) ≤ length out.old }
    ensures { Wrote out.old out.new at (display_fills (option_of literal_of lhs) (option_of literal_of rhs)) result }
{
    if values.has_left {
        if values.has_right {
            return put_both(same_fills(values), digits_of(lhs), digits_of(rhs), out, at);
        }
        return put_filled(b" fill_left", digits_of(lhs), out, at);
    }
    if values.has_right {
        return put_filled(b" fill_right", digits_of(rhs), out, at);
    }
    at
}
