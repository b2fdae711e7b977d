// Fractions (document 02, No. 5): digits, then places; the value is digits / 10^places, with the sign of the form.
ghost use Rattle.std.specs.Prelude.{◌≡◌, drop};
ghost use Rattle.page.specs.Answers.{field_at};
ghost use Rattle.records.specs.Literal.{Magnitude, Literal, is_digits, read_places, read_fraction};
ghost use Rattle.records.specs.Answers.{fraction_of};

use page::{Fault, Field, read_number};

// 1 to 10^15 less 1, not ending in 0.
fn is_digits(n: u64) -> bool
    ensures { result ≡ is_digits n }
{
    (1 <= n) & (n <= 999999999999999) & (n % 10 != 0)
}

// Digits / 10^places.
#[derive(Clone, Copy)]
pub struct Fraction {
    pub places: u8,
    pub digits: u64,
}

// Places from 1 to 15, after the digits.
fn read_places(page: &[u8], at: usize, digits: u64) -> Field<Fraction>
    ensures { (sign : Magnitude → Literal) → field_at (fraction_of sign) page.now result ≡ read_places sign digits (drop at page.now) }
{
    let (places, next) = read_number(page, at)?;
    if (1 <= places) & (places <= 15) {
        let places = places as u8;
        return Ok((Fraction { places, digits }, next));
    }
    Err(Fault::BadField)
}

pub fn read_fraction(page: &[u8], at: usize) -> Field<Fraction>
    ensures { (sign : Magnitude → Literal) → field_at (fraction_of sign) page.now result ≡ read_fraction sign (drop at page.now) }
{
    let (digits, next) = read_number(page, at)?;
    if is_digits(digits) {
        return read_places(page, next, digits);
    }
    Err(Fault::BadField)
}
