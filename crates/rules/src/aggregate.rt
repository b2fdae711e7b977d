// Aggregates (ast.rs, `new_aggregate_expr`, `check_ast_for_aggregate_expr`): refusals 14, 15, 24 and 25, and document
// 02's 42 behind them, where it is asked.
ghost use Rattle.std.specs.Prelude.{◌≤◌, ◌++◌, map, ◌≡◌, eqb, length};
ghost use Rattle.page.specs.Answers.{option_of};
ghost use Rattle.records.specs.Field.{has};
ghost use Rattle.records.specs.Kind.{is_scalar, is_string, vector};
ghost use Rattle.records.specs.Stack.{operands_of};
ghost use Rattle.records.specs.Answers.{kind_of};
ghost use Rattle.ast.specs.CheckAst.{aggregate_rows};
ghost use Rattle.ast.specs.Operand.{other_operand, operand_kind};
ghost use Rattle.ast.specs.Judge.{put};
ghost use Rattle.rules.specs.Answers.{verdict_meant};
ghost use Rattle.rules.specs.Limit.{limit_rows, judge_aggregate_by};
ghost use Rattle.rules.specs.Stack.{held};

use crate::code::{asks_scalar, has_parameter, is_aggregator, is_count_values, is_limit};
use crate::kind::is_vector;
use crate::operand::{Operand, kind_of};
use crate::refusal::Refusal;
use crate::stack::Stack;
use records::Kind;

// What is asked beside document 01: nothing, or 42. It goes to the judge as a number, which costs the least.
pub const NO_RULE: u64 = 0;

pub const LIMIT_RULE: u64 = 42;

fn parameter_is_scalar(parameter: Option<Kind>) -> bool
    ensures { result ≡ has is_scalar (option_of kind_of parameter) }
{
    matches!(parameter, Some(Kind::Scalar))
}

fn parameter_is_string(parameter: Option<Kind>) -> bool
    ensures { result ≡ has is_string (option_of kind_of parameter) }
{
    matches!(parameter, Some(Kind::String))
}

// 24 where the code is an operator, 25 where the operand or the parameter has another kind than asked; then, by its rule,
// 42 where limitk or limit_ratio has a parameter that is no scalar.
fn judge_operand(
    code: u64,
    parameter: Option<Kind>,
    operand: Kind,
    rule: u64,
) -> Result<Operand, Refusal>
    ensures { verdict_meant result ≡ put (aggregate_rows code (option_of kind_of parameter) (kind_of operand) ++ limit_rows (eqb rule 42) code (option_of kind_of parameter)) (other_operand vector) }
{
    if !is_aggregator(code) {
        return Err(Refusal::OperatorAsAggregator);
    }
    if !is_vector(operand) {
        return Err(Refusal::AggregateKind);
    }
    let scalar = parameter_is_scalar(parameter);
    if asks_scalar(code) & !scalar {
        return Err(Refusal::AggregateKind);
    }
    if is_count_values(code) & !parameter_is_string(parameter) {
        return Err(Refusal::AggregateKind);
    }
    if (rule == LIMIT_RULE) & is_limit(code) & !scalar {
        return Err(Refusal::LimitParameter);
    }
    Ok(Operand::Other(Kind::Vector))
}

// The arguments are the topmost so many operands of the stack, the operand being the last.
pub fn judge_aggregate(
    code: u64,
    stack: &Stack,
    count: usize,
    rule: u64,
) -> Result<Operand, Refusal>
    requires { count ≤ length (held stack.now) }
    ensures { verdict_meant result ≡ judge_aggregate_by (eqb rule 42) code (map operand_kind (operands_of count (held stack.now))) }
{
    if count == 0 {
        return Err(Refusal::AggregateOfNothing);
    }
    if has_parameter(code) {
        if count != 2 {
            return Err(Refusal::ArgumentCount);
        }
        let parameter = kind_of(stack.operand(1));
        let operand = kind_of(stack.operand(0));
        return judge_operand(code, Some(parameter), operand, rule);
    }
    if count != 1 {
        return Err(Refusal::ArgumentCount);
    }
    let operand = kind_of(stack.operand(0));
    judge_operand(code, None, operand, rule)
}
