// Texts of number literals and fills (ast.rs, `NumberLiteral`; Rust's `Display` of an f64): digits, the expansion of a
// fraction, `NaN`, and the word for infinity.
ghost use Rattle.std.specs.Prelude.{◌+◌, ◌≤◌, length};
ghost use Rattle.base.specs.Splice.{Wrote};
ghost use Rattle.page.specs.Bytes.{pick, bytes};
ghost use Rattle.records.specs.Answers.{literal_of};
ghost use Rattle.leaves.specs.Numeral.{display_number, display_literal, display_fill};
ghost use Rattle.leaves.specs.NumeralLength.{NumeralLength};

use crate::decimal::{decimal_len, expansion_len, put_decimal, put_expansion};
use page::{put_byte, put_bytes};
use records::Literal;

// `Inf` in literals, `inf` in fills.
fn put_infinity(capital: bool, out: &mut [u8], at: usize) -> usize
    requires { at + length (bytes (pick capital "Inf" "inf")) ≤ length out.old }
    ensures { Wrote out.old out.new at (bytes (pick capital "Inf" "inf")) result }
{
    if capital {
        return put_bytes(b"Inf", out, at);
    }
    put_bytes(b"inf", out, at)
}

fn put_numeral(literal: Literal, capital: bool, out: &mut [u8], at: usize) -> usize
    requires { at + length (display_number (pick capital "Inf" "inf") (literal_of literal)) ≤ length out.old }
    ensures { Wrote out.old out.new at (display_number (pick capital "Inf" "inf") (literal_of literal)) result }
{
    match literal {
        Literal::Whole(n) => put_decimal(n, out, at),
        Literal::Negative(n) => {
            let digits = put_byte(b'-', out, at);
            put_decimal(n, out, digits)
        }
        Literal::Nan => put_bytes(b"NaN", out, at),
        Literal::Inf => put_infinity(capital, out, at),
        Literal::NegInf => {
            let word = put_byte(b'-', out, at);
            put_infinity(capital, out, word)
        }
        Literal::Fraction { places, digits } => put_expansion(places, digits, out, at),
        Literal::NegativeFraction { places, digits } => {
            let next = put_byte(b'-', out, at);
            put_expansion(places, digits, out, next)
        }
    }
}

pub fn put_literal(literal: Literal, out: &mut [u8], at: usize) -> usize
    requires { at + length (display_literal (literal_of literal)) ≤ length out.old }
    ensures { Wrote out.old out.new at (display_literal (literal_of literal)) result }
{
    put_numeral(literal, true, out, at)
}

pub fn put_fill(literal: Literal, out: &mut [u8], at: usize) -> usize
    requires { at + length (display_fill (literal_of literal)) ≤ length out.old }
    ensures { Wrote out.old out.new at (display_fill (literal_of literal)) result }
{
    put_numeral(literal, false, out, at)
}

// The length of either text: the words for infinity are equally long.
pub fn numeral_len(literal: Literal) -> usize
    ensures { NumeralLength literal result }
{
    match literal {
        Literal::Whole(n) => decimal_len(n),
        Literal::Negative(n) => decimal_len(n) + 1,
        Literal::Nan => 3,
        Literal::Inf => 3,
        Literal::NegInf => 4,
        Literal::Fraction { places, digits } => expansion_len(places, digits),
        Literal::NegativeFraction { places, digits } => expansion_len(places, digits) + 1,
    }
}
