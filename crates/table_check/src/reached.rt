// The records that the walk came to on a page that it refuses: those that it accepted, and the one that it refused, if
// that could be read.
ghost use Rattle.std.specs.Prelude.{◌≤◌, ◌≡◌, length};
ghost use Rattle.ast.specs.Table.{record_count};
ghost use Rattle.table_check.specs.Standing.{Standing, NextStands, Reaches};

use crate::wide;
use reader::read_record;

// Where the record after the first `count` ones stands, or would stand.
fn next_start(page: &[u8], starts: &[u16], count: usize) -> usize
    requires short { length page.now ≤ 8192 }
    requires known { Standing page.now starts.now count }
    ensures { NextStands page.now count result }
{
    if count == 0 {
        return 0;
    }
    match read_record(page, wide(starts[count - 1])) {
        Ok((_, next)) => page::within(page, next),
        Err(_) => page.len(),
    }
}

// Their number. The start of the refused one goes into the table.
pub fn reached(page: &[u8], starts: &mut [u16], index: usize) -> usize
    requires sized { (length starts.old ≡ 256) × (index ≤ record_count page.now) }
    requires known { Standing page.now starts.old index }
    ensures { Reaches page.now index starts.new result }
{
    if page::PAGE_LIMIT < page.len() {
        return index;
    }
    if index == page::RECORD_LIMIT {
        return index;
    }
    let at = next_start(page, starts, index);
    match read_record(page, at) {
        Ok(_) => {
            starts[index] = at as u16;
            index + 1
        }
        Err(_) => index,
    }
}
