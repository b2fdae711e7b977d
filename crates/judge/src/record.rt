// What a record makes of the stack.
ghost use Rattle.std.specs.Prelude.{◌≡◌, eqb, length};
ghost use Rattle.reader.specs.Answers.{record_on};
ghost use Rattle.records.specs.Float.{IsExact};
ghost use Rattle.records.specs.Answers.{literal_of};
ghost use Rattle.ast.specs.Operand.{literal_operand};
ghost use Rattle.ast.specs.Judge.{judgement_by};
ghost use Rattle.ast.specs.Limits.{limit_rules};
ghost use Rattle.rules.specs.Answers.{operand_meant, verdict_meant};
ghost use Rattle.rules.specs.Stack.{held};
ghost use Rattle.judge.specs.Judgeable.{Judgeable};

use crate::call::judge_call;
use crate::modifier::judge_binary;
use crate::selector::judge_selector;
use float::literal_value;
use reader::Record;
use records::Literal;
use rules::aggregate::judge_aggregate;
use rules::operand::kind_of;
use rules::wrapper::{
    judge_at, judge_offset, judge_paren, judge_range, judge_subquery, judge_unary,
};
use rules::{Operand, Refusal, Stack};

// A whole number, an infinity and NaN are their floats; of a fraction the sign is enough.
fn literal_operand(literal: Literal) -> Operand
    requires { IsExact (literal_of literal) }
    ensures { operand_meant result ≡ literal_operand (literal_of literal) }
{
    match literal {
        Literal::Fraction { .. } => Operand::Fraction(false),
        Literal::NegativeFraction { .. } => Operand::Fraction(true),
        _ => Operand::Number(literal_value(literal)),
    }
}

// The operands are on the stack, the last one on top. The rule says what is asked beside document 01.
pub fn judge_record(page: &[u8], item: Record, stack: &Stack, rule: u64) -> Result<Operand, Refusal>
    requires { Judgeable page.now item (length (held stack.now)) }
    ensures { verdict_meant result ≡ judgement_by (limit_rules (eqb rule 42)) (record_on page.now item) (held stack.now) }
{
    match item {
        Record::Number(literal) => Ok(literal_operand(literal)),
        Record::String(_) => Ok(Operand::String),
        Record::Selector(selector) => judge_selector(selector),
        Record::Range(_) => judge_range(stack.operand(0)),
        Record::Subquery { .. } => judge_subquery(stack.operand(0)),
        Record::At(_) => judge_at(stack.operand(0)),
        Record::Offset(_) => judge_offset(stack.operand(0)),
        Record::Unary => judge_unary(stack.operand(0)),
        Record::Paren => judge_paren(stack.operand(0)),
        Record::Binary { code, modifier } => {
            let right = kind_of(stack.operand(0));
            let left = kind_of(stack.operand(1));
            judge_binary(page, code, modifier, left, right)
        }
        Record::Aggregate { code, count, .. } => judge_aggregate(code, stack, count, rule),
        Record::Call { function, count } => judge_call(page, function, stack, count),
    }
}
