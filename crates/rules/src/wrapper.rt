// Records on one operand (ast.rs, `new_unary_expr`, `new_matrix_selector`, `at_expr`, `offset_expr`,
// `new_subquery_expr`).
ghost use Rattle.std.specs.Prelude.{◌≡◌};
ghost use Rattle.page.specs.Bytes.{pick};
ghost use Rattle.ast.specs.Refusal.{ok};
ghost use Rattle.ast.specs.Operand.{other_operand, operand_kind};
ghost use Rattle.ast.specs.Judge.{judge_unary, judge_range, judge_mark, judge_at, judge_offset, judge_subquery};
ghost use Rattle.rules.specs.Answers.{operand_meant, refusal_number, verdict_meant};

use crate::kind::{is_operand, is_vector};
use crate::operand::{Operand, kind_of};
use crate::refusal::Refusal;
use records::Kind;

// A number is negated; 6 on a string literal or a range selector, 31 on another operand that is no scalar or vector.
pub fn judge_unary(operand: Operand) -> Result<Operand, Refusal>
    ensures { verdict_meant result ≡ judge_unary (operand_meant operand) }
{
    match operand {
        Operand::Number(value) => Ok(Operand::Number(-value)),
        Operand::Fraction(minus) => Ok(Operand::Fraction(!minus)),
        Operand::String | Operand::Range(_, _) => Err(Refusal::UnaryOnLiteral),
        Operand::Selector(_, _) => Ok(Operand::Other(Kind::Vector)),
        Operand::Subquery(_, _) => Err(Refusal::UnaryKind),
        Operand::Other(kind) => {
            if is_operand(kind) {
                Ok(Operand::Other(kind))
            } else {
                Err(Refusal::UnaryKind)
            }
        }
    }
}

// 7 after offset, 8 after @, 9 on anything but a selector.
pub fn judge_range(operand: Operand) -> Result<Operand, Refusal>
    ensures { verdict_meant result ≡ judge_range (operand_meant operand) }
{
    let Operand::Selector(at, offset) = operand else {
        return Err(Refusal::RangeOnNoSelector);
    };
    if offset {
        return Err(Refusal::RangeAfterOffset);
    }
    if at {
        return Err(Refusal::RangeAfterAt);
    }
    Ok(Operand::Range(false, false))
}

// Whether @, or else offset, is set.
fn is_marked(is_at: bool, at: bool, offset: bool) -> bool
    ensures { result ≡ pick is_at at offset }
{
    if is_at { at } else { offset }
}

// @ set on an operand, or else offset: the first refusal where it is set already, the second on an operand that has
// none.
fn judge_mark(
    operand: Operand,
    is_at: bool,
    twice: Refusal,
    without: Refusal,
) -> Result<Operand, Refusal>
    ensures { verdict_meant result ≡ judge_mark is_at (refusal_number twice) (refusal_number without) (operand_meant operand) }
{
    match operand {
        Operand::Selector(at, offset) => {
            if is_marked(is_at, at, offset) {
                return Err(twice);
            }
            Ok(Operand::Selector(is_at | at, !is_at | offset))
        }
        Operand::Range(at, offset) => {
            if is_marked(is_at, at, offset) {
                return Err(twice);
            }
            Ok(Operand::Range(is_at | at, !is_at | offset))
        }
        Operand::Subquery(at, offset) => {
            if is_marked(is_at, at, offset) {
                return Err(twice);
            }
            Ok(Operand::Subquery(is_at | at, !is_at | offset))
        }
        _ => Err(without),
    }
}

// 10 where @ is set already, 11 on an operand that has none.
pub fn judge_at(operand: Operand) -> Result<Operand, Refusal>
    ensures { verdict_meant result ≡ judge_at (operand_meant operand) }
{
    judge_mark(operand, true, Refusal::AtTwice, Refusal::AtOnNoSelector)
}

// 12 where offset is set already, 13 on an operand that has none.
pub fn judge_offset(operand: Operand) -> Result<Operand, Refusal>
    ensures { verdict_meant result ≡ judge_offset (operand_meant operand) }
{
    judge_mark(
        operand,
        false,
        Refusal::OffsetTwice,
        Refusal::OffsetOnNoSelector,
    )
}

// 32 where the operand is no vector.
pub fn judge_subquery(operand: Operand) -> Result<Operand, Refusal>
    ensures { verdict_meant result ≡ judge_subquery (operand_meant operand) }
{
    if is_vector(kind_of(operand)) {
        Ok(Operand::Subquery(false, false))
    } else {
        Err(Refusal::SubqueryKind)
    }
}

pub fn judge_paren(operand: Operand) -> Result<Operand, Refusal>
    ensures { verdict_meant result ≡ ok (other_operand (operand_kind (operand_meant operand))) }
{
    Ok(Operand::Other(kind_of(operand)))
}
