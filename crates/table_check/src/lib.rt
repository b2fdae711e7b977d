// The check of a page with a table of functions (document 02, No. 2): document 01's walk, then the table is asked of
// the records that the walk came to, in their order. It is asked before the operands of a record are counted, so its
// first fault decides over what the walk says of that record and of all behind it; and the walk itself pays nothing for
// it.
#![tactic(auto)]

pub mod asked;
pub mod reached;

ghost use Rattle.std.specs.Prelude.{◌≡◌};
ghost use Rattle.functions.specs.TableContract.{TableContract};
ghost use Rattle.walk.specs.Answers.{outcome_meant};
ghost use Rattle.table_check.specs.Standing.{Standing};
ghost use Rattle.table_check.specs.Answers.{ChecksWith, FaultFirst};

use asked::first_fault;
use functions::form::Table;
use functions::table;
use reached::reached;
use walk::{Accepted, Outcome, walk};

// A start of the walk's table, as a position.
fn wide(start: u16) -> usize
    ensures { result ≡ start }
{
    start as usize
}

// The first fault among so many records, or the outcome of document 01's check.
pub fn outcome_with(
    page: &[u8],
    starts: &[u16],
    count: usize,
    table: &Table,
    own: Outcome,
) -> Outcome
    requires { Standing page.now starts.now count }
    ensures { FaultFirst page.now count table.now (outcome_meant own) (outcome_meant result) }
{
    first_fault(page, starts, count, table)?;
    own
}

// The check with a table.
pub fn check_with(page: &[u8], table: &Table) -> Outcome
    ensures { ChecksWith page.now table.now (outcome_meant result) }
{
    let mut starts = [0u16; page::RECORD_LIMIT];
    let mut firsts = [0u8; page::RECORD_LIMIT];
    match walk(page, &mut starts, &mut firsts) {
        Ok(walked) => {
            let own = Ok(Accepted {
                kind: walked.kind,
                written: 0,
            });
            outcome_with(page, &starts, walked.count, table, own)
        }
        Err(refused) => {
            let count = reached(page, &mut starts, refused.index);
            outcome_with(page, &starts, count, table, Err(refused))
        }
    }
}

// The check with the repository's function table.
pub fn check_table(page: &[u8]) -> Outcome
    ensures { TableContract page.now (outcome_meant result) }
{
    let letters = table::LETTERS;
    let names = table::STARTS;
    let table = Table {
        letters: &letters,
        starts: &names,
    };
    check_with(page, &table)
}
