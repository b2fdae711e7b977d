// What the program `sheet` writes for a page (document 01, 'Text'): split text, or `refused N at R`, and a line feed.
#![tactic(auto)]

ghost use Rattle.std.specs.Prelude.{◌≡◌, ◌+◌, ◌≤◌, length};
ghost use Rattle.base.specs.Splice.{Wrote};
ghost use Rattle.outcomes.specs.Output.{refused_line, program_output};

use calls::split;
use leaves::decimal::put_decimal;
use page::{put_byte, put_bytes};
use rules::refusal::refusal_number;

fn put_refused(number: u64, index: usize, out: &mut [u8], at: usize) -> usize
    requires { at + length (refused_line number index) ≤ length out.old }
    ensures { Wrote out.old out.new at (refused_line number index) result }
{
    let first = put_bytes(b"refused ", out, at);
    let word = put_decimal(number, out, first);
    let second = put_bytes(b" at ", out, word);
    let end = put_decimal(index as u64, out, second);
    put_byte(b'\n', out, end)
}

// The text is lent one byte less, which is left for the line feed.
fn put_line(page: &[u8], out: &mut [u8]) -> usize
    requires { 65537 ≡ length out.old }
    ensures { Wrote out.old out.new 0 (program_output page.now) result }
{
    match split(page, &mut out[..page::OUTPUT_LIMIT]) {
        Ok(accepted) => put_byte(b'\n', out, accepted.written),
        Err(refused) => put_refused(refusal_number(refused.refusal), refused.index, out, 0),
    }
}

// The program's output at the start of the buffer; the bytes after it stay.
pub fn put_sheet(page: &[u8], out: &mut [u8; page::OUTPUT_LIMIT + 1]) -> usize
    ensures wrote { Wrote out.old out.new 0 (program_output page.now) result }
    ensures fits { result ≤ length out.new }
{
    put_line(page, out)
}
