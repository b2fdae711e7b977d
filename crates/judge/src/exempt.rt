// The literal exception (ast.rs, `check_ast_for_call`): exp of NaN or an infinity, a logarithm also of a value at or
// below 0. Names are compared exactly, and only a bare number counts.
ghost use Rattle.std.specs.Prelude.{◌≡◌};
ghost use Rattle.page.specs.Answers.{span_on, Lies};
ghost use Rattle.records.specs.LiteralException.{is_exp, is_logarithm};
ghost use Rattle.ast.specs.Judge.{is_exempt_float, is_exempt_operand};
ghost use Rattle.rules.specs.Answers.{operand_meant};

use float::{at_or_below_zero, is_infinite, is_nan};
use page::{Span, same_text, text_at};
use rules::Operand;

fn is_exp(name: &[u8]) -> bool
    ensures { result ≡ is_exp name.now }
{
    same_text(name, b"exp")
}

fn is_logarithm(name: &[u8]) -> bool
    ensures { result ≡ is_logarithm name.now }
{
    same_text(name, b"ln") | same_text(name, b"log2") | same_text(name, b"log10")
}

fn is_exempt_value(name: &[u8], value: f64) -> bool
    ensures { result ≡ is_exempt_float name.now value }
{
    let special = is_nan(value) | is_infinite(value);
    is_exp(name) & special | is_logarithm(name) & (special | at_or_below_zero(value))
}

// Whether a call of this name with this first argument is free of 29 and 30.
pub fn is_exempt(page: &[u8], name: Span, first: Operand) -> bool
    requires { Lies page.now name }
    ensures { result ≡ is_exempt_operand (span_on page.now name) (operand_meant first) }
{
    match first {
        Operand::Number(value) => is_exempt_value(text_at(page, name), value),
        Operand::Fraction(minus) => is_logarithm(text_at(page, name)) & minus,
        Operand::String => false,
        Operand::Selector(_, _) => false,
        Operand::Range(_, _) => false,
        Operand::Subquery(_, _) => false,
        Operand::Other(_) => false,
    }
}
