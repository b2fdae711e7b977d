// Binary expressions (ast.rs, `check_ast_for_binary_expr`): refusals 16 to 23.
ghost use Rattle.std.specs.Prelude.{◌≡◌};
ghost use Rattle.records.specs.Answers.{kind_of};
ghost use Rattle.ast.specs.Expr.{binary_kind};
ghost use Rattle.rules.specs.Answers.{verdict_meant};
ghost use Rattle.rules.specs.ModifierFacts.{judge_sides};

use crate::code::{is_comparison, is_operator, is_set_operator};
use crate::kind::{is_scalar, is_vector};
use crate::operand::Operand;
use crate::refusal::Refusal;
use records::Kind;

// What the check asks of a modifier: bool is set; a group label is in the on list too; it groups; its matching has
// labels.
#[derive(Clone, Copy)]
pub struct ModifierFacts {
    pub boolean: bool,
    pub joint: bool,
    pub grouped: bool,
    pub labelled: bool,
}

fn binary_kind(left: Kind, right: Kind) -> Kind
    ensures { kind_of result ≡ binary_kind (kind_of left) (kind_of right) }
{
    if is_scalar(left) & is_scalar(right) {
        Kind::Scalar
    } else {
        Kind::Vector
    }
}

pub fn judge_sides(
    code: u64,
    facts: ModifierFacts,
    left: Kind,
    right: Kind,
) -> Result<Operand, Refusal>
    ensures { verdict_meant result ≡ judge_sides code facts (kind_of left) (kind_of right) }
{
    let comparison = is_comparison(code);
    let set = is_set_operator(code);
    let left_scalar = is_scalar(left);
    let right_scalar = is_scalar(right);
    let left_vector = is_vector(left);
    let right_vector = is_vector(right);
    if !is_operator(code) {
        return Err(Refusal::AggregatorAsOperator);
    }
    if facts.boolean & !comparison {
        return Err(Refusal::BoolWithoutComparison);
    }
    if comparison & left_scalar & right_scalar & !facts.boolean {
        return Err(Refusal::ScalarsCompared);
    }
    if facts.joint {
        return Err(Refusal::LabelInBothLists);
    }
    if set & (left_scalar | right_scalar) {
        return Err(Refusal::SetOfScalar);
    }
    if set & left_vector & right_vector & facts.grouped {
        return Err(Refusal::SetGrouped);
    }
    if !((left_scalar | left_vector) & (right_scalar | right_vector)) {
        return Err(Refusal::SideKind);
    }
    if !(left_vector & right_vector) & facts.labelled {
        return Err(Refusal::MatchingWithoutVectors);
    }
    Ok(Operand::Other(binary_kind(left, right)))
}
