// Which server generations accept a page (document 02, No. 13): Prometheus 2.55, the older, and 3.0, the newer, each by
// the check with its own table of functions.
#![tactic(auto)]

pub mod newer;
pub mod older;

ghost use Rattle.std.specs.Prelude.{◌≡◌};
ghost use Rattle.functions.specs.TableContract.{TableContractOf};
ghost use Rattle.walk.specs.Answers.{outcome_meant};
ghost use Rattle.generations.specs.Newer.{newer_functions};
ghost use Rattle.generations.specs.Older.{older_functions};
ghost use Rattle.generations.specs.Generations.{accepted_by, generations};

use functions::form::Table;
use table_check::{check_with, outcome_with};
use walk::{Accepted, Outcome, walk};

#[derive(Clone, Copy)]
pub enum Generations {
    Neither,
    Older,
    Newer,
    Both,
}

// The check with the older generation's table.
pub fn check_older(page: &[u8]) -> Outcome
    ensures { TableContractOf older_functions page.now (outcome_meant result) }
{
    let letters = older::LETTERS;
    let names = older::STARTS;
    let table = Table {
        letters: &letters,
        starts: &names,
    };
    check_with(page, &table)
}

// The check with the newer generation's table.
pub fn check_newer(page: &[u8]) -> Outcome
    ensures { TableContractOf newer_functions page.now (outcome_meant result) }
{
    let letters = newer::LETTERS;
    let names = newer::STARTS;
    let table = Table {
        letters: &letters,
        starts: &names,
    };
    check_with(page, &table)
}

fn accepting(older: bool, newer: bool) -> Generations
    ensures { result ≡ accepted_by older newer }
{
    if older {
        if newer {
            return Generations::Both;
        }
        return Generations::Older;
    }
    if newer {
        return Generations::Newer;
    }
    Generations::Neither
}

// Those that accept the page. One walk serves both tables: what it refuses, no table accepts.
pub fn generations_of(page: &[u8]) -> Generations
    ensures { result ≡ generations page.now }
{
    let mut starts = [0u16; page::RECORD_LIMIT];
    let mut firsts = [0u8; page::RECORD_LIMIT];
    match walk(page, &mut starts, &mut firsts) {
        Ok(walked) => {
            let count = walked.count;
            let own = Ok(Accepted {
                kind: walked.kind,
                written: 0,
            });
            let by_older = Table {
                letters: &older::LETTERS,
                starts: &older::STARTS,
            };
            let older = outcome_with(page, &starts, count, &by_older, own);
            let by_newer = Table {
                letters: &newer::LETTERS,
                starts: &newer::STARTS,
            };
            let newer = outcome_with(page, &starts, count, &by_newer, own);
            accepting(older.is_ok(), newer.is_ok())
        }
        Err(_) => Generations::Neither,
    }
}
