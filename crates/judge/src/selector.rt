// Selectors: refusal 41, then 33 and 34 (ast.rs, `check_ast_for_vector_selector`). The matchers' facts were taken when
// they were read.
ghost use Rattle.std.specs.Prelude.{ℕ, false, List, ◌≡◌};
ghost use Rattle.reader.specs.Answers.{selector_on, SelectorRead};
ghost use Rattle.ast.specs.CheckAst.{selector_rows};
ghost use Rattle.ast.specs.Operand.{selector_operand};
ghost use Rattle.ast.specs.Judge.{put};
ghost use Rattle.rules.specs.Answers.{verdict_meant};

use reader::Selector;
use rules::{Operand, Refusal};

// 41 for a wrong flag, 33 for a name and a `__name__` matcher, 34 without a name where every matcher accepts empty text.
pub fn judge_selector(selector: Selector) -> Result<Operand, Refusal>
    ensures { (page : List ℕ) → SelectorRead page selector → verdict_meant result ≡ put (selector_rows (selector_on page selector)) (selector_operand false false) }
{
    let facts = selector.facts;
    if facts.wrong_flag {
        return Err(Refusal::WrongFlag);
    }
    let name = selector.name;
    if name.start != name.end {
        if facts.named {
            return Err(Refusal::NameTwice);
        }
        return Ok(Operand::Selector(false, false));
    }
    if facts.empty {
        return Err(Refusal::EmptySelector);
    }
    Ok(Operand::Selector(false, false))
}
