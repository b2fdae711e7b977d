// The lines of the program show_records, which has their format: what stands in a record as numbers, for comparison
// with the Rust.
#![tactic(auto)]

mod element;
mod line;
mod list;
mod modifier;
mod number;
mod record;

ghost use Rattle.std.specs.Prelude.{◌≡◌};
ghost use Rattle.page.specs.Read.{fault_number};
ghost use Rattle.page.specs.Answers.{fault_of};
ghost use Rattle.record_lines.specs.Line.{Puts};
ghost use Rattle.record_lines.specs.Lines.{record_line, fault_line, end_line};

use line::{put_number, put_spaced, put_text};
use page::Fault;
use reader::Record;
use record::put_record;

fn fault_number(fault: Fault) -> u64
    ensures { result ≡ fault_number (fault_of fault) }
{
    match fault {
        Fault::BadField => 1,
        Fault::PastLimit => 3,
        Fault::BadText => 4,
    }
}

// The line of a record, with the position after it.
pub fn record_line(page: &[u8], item: Record, next: usize, line: &mut [u8]) -> usize
    ensures { Puts line.old 0 (record_line page.now item next) line.new result }
{
    let first = put_number(next as u64, line, 0);
    let last = put_record(page, item, line, first);
    put_text(b"\n", line, last)
}

// The line of a record that is refused.
pub fn fault_line(fault: Fault, index: u64, line: &mut [u8]) -> usize
    ensures { Puts line.old 0 (fault_line (fault_of fault) index) line.new result }
{
    let number = put_text(b"fault", line, 0);
    let word = put_spaced(fault_number(fault), line, number);
    let place = put_text(b" at", line, word);
    let last = put_spaced(index, line, place);
    put_text(b"\n", line, last)
}

// The line at the end of a page.
pub fn end_line(index: u64, line: &mut [u8]) -> usize
    ensures { Puts line.old 0 (end_line index) line.new result }
{
    let count = put_text(b"end", line, 0);
    let last = put_spaced(index, line, count);
    put_text(b"\n", line, last)
}
