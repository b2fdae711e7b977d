// The calls that write into a lent buffer. The length is known before a byte is written: a refusal leaves the buffer as
// it was.
#![tactic(auto)]

pub mod signature;

ghost use Rattle.walk.specs.Answers.{outcome_meant};
ghost use Rattle.outcomes.specs.Calls.{copy, canonical_text, split_text, Does};

use measure::widths_of;
use rules::Refusal;
use split::{prettify_len, put_prettify};
use walk::{Accepted, Outcome, Refused, walk};

// The copy of an accepted page.
pub fn copy(page: &[u8], out: &mut [u8]) -> Outcome
    ensures { Does (copy page.now out.old) (outcome_meant result) out.new }
{
    let mut starts = [0u16; page::RECORD_LIMIT];
    let mut firsts = [0u8; page::RECORD_LIMIT];
    let walked = walk(page, &mut starts, &mut firsts)?;
    let kind = walked.kind;
    let count = walked.count;
    if copy::copy_fits(page, &starts, count, out.len()) {
        let written = copy::put_copy(page, &starts, count, out);
        return Ok(Accepted { kind, written });
    }
    Err(Refused {
        refusal: Refusal::OutputTooShort,
        index: count,
    })
}

// Canonical text of an accepted page.
pub fn canonical(page: &[u8], out: &mut [u8]) -> Outcome
    ensures { Does (canonical_text page.now out.old) (outcome_meant result) out.new }
{
    let mut starts = [0u16; page::RECORD_LIMIT];
    let mut firsts = [0u8; page::RECORD_LIMIT];
    let walked = walk(page, &mut starts, &mut firsts)?;
    let kind = walked.kind;
    let count = walked.count;
    let last = count - 1;
    if canonical::text_fits(page, &starts, &firsts, last, out.len()) {
        let written = canonical::write_text(page, &starts, &firsts, last, false, out, 0);
        return Ok(Accepted { kind, written });
    }
    Err(Refused {
        refusal: Refusal::OutputTooShort,
        index: count,
    })
}

// Split text of an accepted page. Measured up to one byte more than there is room for.
pub fn split(page: &[u8], out: &mut [u8]) -> Outcome
    ensures { Does (split_text page.now out.old) (outcome_meant result) out.new }
{
    let mut starts = [0u16; page::RECORD_LIMIT];
    let mut firsts = [0u8; page::RECORD_LIMIT];
    let walked = walk(page, &mut starts, &mut firsts)?;
    let kind = walked.kind;
    let count = walked.count;
    let last = count - 1;
    let room = out.len();
    let widths = widths_of(page, &starts, &firsts, last);
    let size = prettify_len(page, &starts, &firsts, &widths, last, room + 1);
    if size <= room {
        let written = put_prettify(page, &starts, &firsts, &widths, last, out);
        return Ok(Accepted { kind, written });
    }
    Err(Refused {
        refusal: Refusal::OutputTooShort,
        index: count,
    })
}
