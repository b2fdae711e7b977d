// The walk over a page's records (`check_ast` over a page), which all calls share. In two tables it leaves where each
// record starts, and the first record of the expression that the record ends.
#![tactic(auto)]

pub mod answer;

ghost use Rattle.std.specs.Prelude.{◌≤◌, ◌<◌, ◌≡◌, eqb, length};
ghost use Rattle.reader.specs.Answers.{record_on};
ghost use Rattle.ast.specs.CheckPage.{check_page};
ghost use Rattle.ast.specs.Judge.{judgement_by};
ghost use Rattle.ast.specs.Limits.{limit_rules};
ghost use Rattle.ast.specs.Rules.{check_page_by};
ghost use Rattle.rules.specs.Answers.{verdict_meant};
ghost use Rattle.rules.specs.Stack.{held};
ghost use Rattle.walk.specs.Answers.{walked_as, Walks};
ghost use Rattle.walk.specs.Walk.{RecordRead, first_of};

use answer::field_refusal;
pub use answer::{Accepted, Outcome, Refused, check, check_operators};
use judge::record::judge_record;
use page::RECORD_LIMIT;
use reader::{Record, operand_count, read_record};
use records::Kind;
use rules::aggregate::NO_RULE;
use rules::operand::kind_of;
use rules::{Operand, Refusal, Stack};

// The kind and the number of records.
#[derive(Clone, Copy)]
pub struct Walked {
    pub kind: Kind,
    pub count: usize,
}

// The verdict on a record that takes so many operands: 2 where they are missing.
fn judge_next(
    page: &[u8],
    item: Record,
    needed: usize,
    stack: &Stack,
    rule: u64,
) -> Result<Operand, Refusal>
    requires { RecordRead page.now item needed }
    ensures { verdict_meant result ≡ judgement_by (limit_rules (eqb rule 42)) (record_on page.now item) (held stack.now) }
{
    if stack.len() < needed {
        return Err(Refusal::OperandsMissing);
    }
    judge_record(page, item, stack, rule)
}

// The first record of the expression that record `count` ends: that of its deepest operand, which lies on so many
// others, or itself.
fn first_record(bases: &[u8], depth: usize, needed: usize, count: usize) -> u8
    requires { (length bases.now ≡ 256) × (depth < 256) × (count < 256) }
    ensures { result ≡ first_of needed count depth bases.now }
{
    if needed == 0 {
        return count as u8;
    }
    bases[depth]
}

// The walk over the records, by document 01 and by a rule beside it: the kind of what they come to, or the first
// refusal. `count` is then how many were accepted before it.
fn walk_records(
    page: &[u8],
    starts: &mut [u16],
    firsts: &mut [u8],
    rule: u64,
    count: &mut usize,
) -> Result<Kind, Refusal>
    requires { (length starts.old ≡ 256) × (length firsts.old ≡ 256) }
    ensures { Walks (check_page_by (limit_rules (eqb rule 42)) page.now) page.now starts.old firsts.old starts.new firsts.new (walked_as result count.new) }
{
    *count = 0;
    if page::PAGE_LIMIT < page.len() {
        return Err(Refusal::PastLimit);
    }
    let mut stack = Stack::new();
    // The first record of the expression at each depth of the stack.
    let mut bases = [0u8; RECORD_LIMIT];
    let mut at: usize = 0;
    while at < page.len() {
        if *count == RECORD_LIMIT {
            return Err(Refusal::PastLimit);
        }
        match read_record(page, at) {
            Err(fault) => return Err(field_refusal(fault)),
            Ok((item, next)) => {
                let needed = operand_count(item);
                let operand = judge_next(page, item, needed, &stack, rule)?;
                let depth = stack.len() - needed;
                let first = first_record(&bases, depth, needed, *count);
                starts[*count] = at as u16;
                firsts[*count] = first;
                bases[depth] = first;
                stack.replace(needed, operand);
                at = page::within(page, next);
                *count += 1;
            }
        }
    }
    if stack.len() != 1 {
        return Err(Refusal::OperandsMissing);
    }
    Ok(kind_of(stack.operand(0)))
}

// The walk, with the index of the record that is refused, or the number of records.
fn walk_by(page: &[u8], starts: &mut [u16], firsts: &mut [u8], rule: u64) -> Result<Walked, Refused>
    requires { (length starts.old ≡ 256) × (length firsts.old ≡ 256) }
    ensures { Walks (check_page_by (limit_rules (eqb rule 42)) page.now) page.now starts.old firsts.old starts.new firsts.new result }
{
    let mut count = 0;
    match walk_records(page, starts, firsts, rule, &mut count) {
        Ok(kind) => Ok(Walked { kind, count }),
        Err(refusal) => Err(Refused {
            refusal,
            index: count,
        }),
    }
}

// Document 01's walk.
pub fn walk(page: &[u8], starts: &mut [u16], firsts: &mut [u8]) -> Result<Walked, Refused>
    requires { (length starts.old ≡ 256) × (length firsts.old ≡ 256) }
    ensures { Walks (check_page page.now) page.now starts.old firsts.old starts.new firsts.new result }
{
    walk_by(page, starts, firsts, NO_RULE)
}
