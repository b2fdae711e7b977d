// What a table of functions says of the records of a page, each found where the walk's table says that it starts.
ghost use Rattle.std.specs.Prelude.{drop};
ghost use Rattle.page.specs.Listed.{Readable};
ghost use Rattle.records.specs.Record.{read_record};
ghost use Rattle.table_check.specs.Standing.{Standing};
ghost use Rattle.table_check.specs.Answers.{FaultOf, FindsFirst};

use crate::wide;
use functions::carried::Carried;
use functions::form::Table;
use page::stored_text;
use rules::Refusal;
use walk::Refused;

// The first byte of a call.
const CALL: u8 = 11;

// Of the record at a position: 37 for a call whose name the table does not have, 38 for one whose signature is unlike
// the table's. The record can be read, so no byte of it is tested again.
fn record_fault(page: &[u8], at: usize, table: &Table) -> Result<(), Refusal>
    requires { Readable read_record (drop at page.now) }
    ensures { FaultOf page.now at table.now result }
{
    if page[at] != CALL {
        return Ok(());
    }
    match table.compare_signature(page, stored_text(page, at + 1)) {
        Carried::Like => Ok(()),
        Carried::Unlike => Err(Refusal::UnlikeSignature),
        Carried::Unknown => Err(Refusal::UnknownFunction),
    }
}

// The first fault among so many records, and the index of its record.
pub fn first_fault(page: &[u8], starts: &[u16], count: usize, table: &Table) -> Result<(), Refused>
    requires { Standing page.now starts.now count }
    ensures { FindsFirst page.now count table.now result }
{
    // Read here, not at each record.
    let table = *table;
    for index in 0..count {
        match record_fault(page, wide(starts[index]), &table) {
            Ok(()) => {}
            Err(refusal) => return Err(Refused { refusal, index }),
        }
    }
    Ok(())
}
