// The tokens of the codes 1 to 30 (token.rs, `token_display`), one after the other, and where each begins.
ghost use Rattle.std.specs.Prelude.{◌≡◌, ◌+◌, ◌≤◌, ◌<◌, length};
ghost use Rattle.base.specs.Splice.{Wrote};
ghost use Rattle.records.specs.Code.{token};
ghost use Rattle.tokens.specs.Tokens.{token_at};

use page::put_bytes;

const LETTERS: [u8; 114] = *b"\
    +/==>=>andor<<=unless%*!=^-atan2\
    avgbottomkcountcount_valuesgroupmaxminquantilestddevstdvarsumtopklimitklimit_ratio";

// After the last token stands an empty one, for numbers that are no codes.
const STARTS: [u8; 32] = [
    0, 1, 2, 4, 6, 7, 10, 12, 13, 15, 21, 22, 23, 25, 26, 27, 32, 35, 42, 47, 59, 64, 67, 70, 78,
    84, 90, 93, 97, 103, 114, 114,
];

// The place of a code's token.
fn place_of(code: u64) -> usize
    ensures { (result < 31) × (token_at result ≡ token code) }
{
    if code == 0 {
        return 0;
    }
    if 30 < code {
        return 30;
    }
    (code - 1) as usize
}

pub fn token_len(code: u64) -> usize
    ensures { (result ≡ length (token code)) × (result ≤ 12) }
{
    let place = place_of(code);
    let start = STARTS[place] as usize;
    let end = STARTS[place + 1] as usize;
    end - start
}

pub fn put_token(code: u64, out: &mut [u8], at: usize) -> usize
    requires { at + length (token code) ≤ length out.old }
    ensures { Wrote out.old out.new at (token code) result }
{
    let place = place_of(code);
    let start = STARTS[place] as usize;
    let end = STARTS[place + 1] as usize;
    put_bytes(&LETTERS[start..end], out, at)
}
