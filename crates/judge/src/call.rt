// Calls (ast.rs, `check_call_arity`, `check_args_match_types`, `check_ast_for_call`): refusals 26 to 30.
ghost use Rattle.std.specs.Prelude.{◌≤◌, map, ◌≡◌, length};
ghost use Rattle.records.specs.Stack.{operands_of};
ghost use Rattle.records.specs.Answers.{kinds_on};
ghost use Rattle.records.specs.SignatureAnswers.{variadic_of, function_on, FunctionLies};
ghost use Rattle.ast.specs.Refusal.{first_fault};
ghost use Rattle.ast.specs.CheckAst.{arity_rows, args_match};
ghost use Rattle.ast.specs.Operand.{operand_kind};
ghost use Rattle.ast.specs.Judge.{judge_call};
ghost use Rattle.rules.specs.Answers.{verdict_meant};
ghost use Rattle.rules.specs.Stack.{held};
ghost use Rattle.judge.specs.Call.{finding_meant, bounded_fault};

use crate::declared::{Declared, next_kind, same_kind};
use crate::exempt::is_exempt;
use records::{Function, Variadic};
use rules::operand::kind_of;
use rules::{Operand, Refusal, Stack};

// So many arguments at least, and so many more at most.
fn bounded(least: usize, extra: u64, count: usize) -> Result<(), Refusal>
    ensures { finding_meant result ≡ bounded_fault least extra count }
{
    if count < least {
        return Err(Refusal::TooFewArguments);
    }
    if extra < (count - least) as u64 {
        return Err(Refusal::TooManyArguments);
    }
    Ok(())
}

pub fn arity(variadic: Variadic, kinds: usize, count: usize) -> Result<(), Refusal>
    ensures { finding_meant result ≡ first_fault (arity_rows (variadic_of variadic) kinds count) }
{
    match variadic {
        Variadic::Fixed => {
            if kinds != count {
                return Err(Refusal::FixedArity);
            }
            Ok(())
        }
        Variadic::Unlimited => {
            if count < kinds.saturating_sub(1) {
                return Err(Refusal::TooFewArguments);
            }
            Ok(())
        }
        Variadic::UpTo(extra) => bounded(kinds.saturating_sub(1), extra, count),
    }
}

// Whether the arguments, from the deepest operand on, have the declared kinds, the last one repeating.
fn arguments_match(page: &[u8], kinds: usize, declared: usize, stack: &Stack, count: usize) -> bool
    requires { count ≤ length (held stack.now) }
    ensures { result ≡ args_match (kinds_on page.now kinds declared) (map operand_kind (operands_of count (held stack.now))) }
{
    let mut at = kinds;
    let mut more = declared;
    for i in (0..count).rev() {
        let Some(Declared { kind, next, left }) = next_kind(page, at, more) else {
            return false;
        };
        if !same_kind(kind, kind_of(stack.operand(i))) {
            return false;
        }
        at = next;
        more = left;
    }
    true
}

// Arity first, then the literal exception, then 29 and 30. The arguments are the topmost so many operands of the stack.
pub fn judge_call(
    page: &[u8],
    function: Function,
    stack: &Stack,
    count: usize,
) -> Result<Operand, Refusal>
    requires lies { FunctionLies page.now function }
    requires inside { count ≤ length (held stack.now) }
    ensures { verdict_meant result ≡ judge_call (function_on page.now function) (operands_of count (held stack.now)) }
{
    let declared = function.kinds.count;
    arity(function.variadic, declared, count)?;
    let result = function.result;
    if count == 0 {
        return Ok(Operand::Other(result));
    }
    if is_exempt(page, function.name, stack.operand(count - 1)) {
        return Ok(Operand::Other(result));
    }
    if declared == 0 {
        return Err(Refusal::NoDeclaredKinds);
    }
    let first = function.kinds.start;
    if arguments_match(page, first, declared, stack, count) {
        Ok(Operand::Other(result))
    } else {
        Err(Refusal::ArgumentKind)
    }
}
