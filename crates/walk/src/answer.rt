// What a call answers (document 01, 'Outcomes of a page'), and the two checks of a page.
ghost use Rattle.std.specs.Prelude.{◌≡◌, eqb};
ghost use Rattle.page.specs.Read.{fault_number};
ghost use Rattle.page.specs.Answers.{fault_of};
ghost use Rattle.rules.specs.Answers.{refusal_number};
ghost use Rattle.ast.specs.Limits.{limit_rules};
ghost use Rattle.ast.specs.Rules.{check_by};
ghost use Rattle.agreement.specs.CheckContract.{CheckContract};
ghost use Rattle.agreement.specs.LimitContract.{LimitContract};
ghost use Rattle.walk.specs.Answers.{outcome_meant};

use crate::walk_by;
use page::Fault;
use records::Kind;
use rules::Refusal;
use rules::aggregate::{LIMIT_RULE, NO_RULE};

// A refusal and the index of its record.
#[derive(Clone, Copy)]
pub struct Refused {
    pub refusal: Refusal,
    pub index: usize,
}

// The kind and how many bytes were written.
#[derive(Clone, Copy)]
pub struct Accepted {
    pub kind: Kind,
    pub written: usize,
}

pub type Outcome = Result<Accepted, Refused>;

// The refusal of a field.
pub fn field_refusal(fault: Fault) -> Refusal
    ensures { refusal_number result ≡ fault_number (fault_of fault) }
{
    match fault {
        Fault::BadField => Refusal::BadField,
        Fault::PastLimit => Refusal::PastLimit,
        Fault::BadText => Refusal::BadText,
    }
}

// The outcome of the walk by document 01, and by a rule beside it.
fn outcome_by(page: &[u8], rule: u64) -> Outcome
    ensures { outcome_meant result ≡ check_by (limit_rules (eqb rule 42)) page.now }
{
    let mut starts = [0u16; page::RECORD_LIMIT];
    let mut firsts = [0u8; page::RECORD_LIMIT];
    let walked = walk_by(page, &mut starts, &mut firsts, rule)?;
    Ok(Accepted {
        kind: walked.kind,
        written: 0,
    })
}

// Any byte string is accepted with its kind, or refused with a number of document 01's table and the index of a record.
// The outcome is the definition's, and demand 3 holds of it.
pub fn check(page: &[u8]) -> Outcome
    ensures { CheckContract page.now (outcome_meant result) }
{
    outcome_by(page, NO_RULE)
}

// The check that follows the operators document (document 02, No. 8): as check, and 42 where limitk or limit_ratio has
// a parameter that is no scalar. Demand 3 holds of it without the condition on limitk.
pub fn check_operators(page: &[u8]) -> Outcome
    ensures { LimitContract page.now (outcome_meant result) }
{
    outcome_by(page, LIMIT_RULE)
}
