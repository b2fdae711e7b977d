// Decimal digits, as Rust prints an unsigned number; and the decimal expansion of a number that is not whole.
ghost use Rattle.std.specs.Prelude.{◌≡◌, ◌+◌, ◌≤◌, length};
ghost use Rattle.base.specs.Splice.{Wrote};
ghost use Rattle.leaves.specs.Decimal.{decimal, expansion};

use page::put_byte;

// How many digits n has.
pub fn decimal_len(n: u64) -> usize
    ensures { (result ≡ length (decimal n)) × (result ≤ 20) }
{
    let mut left = n;
    let mut count = 1;
    while 10 <= left {
        left /= 10;
        count += 1;
    }
    count
}

pub fn put_decimal(n: u64, out: &mut [u8], at: usize) -> usize
    requires { at + length (decimal n) ≤ length out.old }
    ensures { Wrote out.old out.new at (decimal n) result }
{
    if n < 10 {
        return put_byte((48 + n) as u8, out, at);
    }
    let next = put_decimal(n / 10, out, at);
    put_byte((48 + n % 10) as u8, out, next)
}

// n / 10^places, with exactly so many digits after the point.
pub fn put_expansion(places: u8, n: u64, out: &mut [u8], at: usize) -> usize
    requires { at + length (expansion places n) ≤ length out.old }
    ensures { Wrote out.old out.new at (expansion places n) result }
{
    if places == 0 {
        let point = put_decimal(n, out, at);
        return put_byte(b'.', out, point);
    }
    let next = put_expansion(places - 1, n / 10, out, at);
    put_byte((48 + n % 10) as u8, out, next)
}

// How many bytes that is: the whole part has at least one digit.
pub fn expansion_len(places: u8, n: u64) -> usize
    ensures { (result ≡ length (expansion places n)) × (result ≤ 257) }
{
    let count = decimal_len(n);
    let least = places as usize + 1;
    if count < least {
        return least + 1;
    }
    count + 1
}
