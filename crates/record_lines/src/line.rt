// A line put together in a buffer, text by text. What does not fit is left out.
ghost use Rattle.std.specs.Prelude.{[], ◌∷◌};
ghost use Rattle.leaves.specs.Decimal.{decimal};
ghost use Rattle.record_lines.specs.Line.{Puts, Shows};

use leaves::decimal::{decimal_len, put_decimal};

pub fn put_text(text: &[u8], line: &mut [u8], at: usize) -> usize
    ensures { Puts line.old at (text.now ∷ []) line.new result }
{
    if line.len() < at {
        return at;
    }
    if line.len() - at < text.len() {
        return at;
    }
    page::put_bytes(text, line, at)
}

pub fn put_number(n: u64, line: &mut [u8], at: usize) -> usize
    ensures { Puts line.old at (decimal n ∷ []) line.new result }
{
    if line.len() < at {
        return at;
    }
    if line.len() - at < decimal_len(n) {
        return at;
    }
    put_decimal(n, line, at)
}

// A space and a number.
pub fn put_spaced(n: u64, line: &mut [u8], at: usize) -> usize
    ensures { Shows line.old at (n ∷ []) line.new result }
{
    let next = put_text(b" ", line, at);
    put_number(n, line, next)
}
