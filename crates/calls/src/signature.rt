// The call that writes a function's signature (document 02, No. 2), and the same for any table. A table holds
// its signatures as they stand in a call, so that the bytes are copied.
ghost use Rattle.std.specs.Prelude.{◌<◌, length};
ghost use Rattle.records.specs.Answers.{kind_of};
ghost use Rattle.walk.specs.Answers.{outcome_meant};
ghost use Rattle.outcomes.specs.Calls.{Does};
ghost use Rattle.outcomes.specs.Signature.{signature};
ghost use Rattle.calls.specs.Signature.{IsKindOf, PutsSignature, SignsIn};

use functions::form::Table;
use functions::table::{LETTERS, STARTS};
use page::put_bytes;
use records::Kind;
use rules::Refusal;
use walk::{Accepted, Outcome, Refused};

// The kind that a number on a page stands for.
fn kind_from(number: u8) -> Kind
    ensures { IsKindOf number (kind_of result) }
{
    match number {
        0 => Kind::Vector,
        1 => Kind::Scalar,
        2 => Kind::Matrix,
        _ => Kind::String,
    }
}

// The bytes of a signature to the start of the buffer, if they fit. The last one is the result kind.
fn put_signature(text: &[u8], out: &mut [u8]) -> Outcome
    requires { 0 < length text.now }
    ensures { PutsSignature text.now out.old (outcome_meant result) out.new }
{
    if out.len() < text.len() {
        return Err(Refused {
            refusal: Refusal::OutputTooShort,
            index: 0,
        });
    }
    let kind = kind_from(text[text.len() - 1]);
    let written = put_bytes(text, out, 0);
    Ok(Accepted { kind, written })
}

// The signature of a name in a table.
pub fn signature_in(table: &Table, name: &[u8], out: &mut [u8]) -> Outcome
    ensures { SignsIn table.now name.now out.old (outcome_meant result) out.new }
{
    match table.find(name) {
        Some(place) => put_signature(table.signature(place), out),
        None => Err(Refused {
            refusal: Refusal::UnknownFunction,
            index: 0,
        }),
    }
}

// The signature of a function of the repository's table.
pub fn signature(name: &[u8], out: &mut [u8]) -> Outcome
    ensures { Does (signature name.now out.old) (outcome_meant result) out.new }
{
    let table = Table {
        letters: &LETTERS,
        starts: &STARTS,
    };
    signature_in(&table, name, out)
}
