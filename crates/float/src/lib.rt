// Literals as 64-bit floats (document 01, 'Checking'): the float of exactly that value, its tests, and the two fills
// held together. A fraction is held as digits and places.
#![tactic(auto)]

ghost use Rattle.std.specs.Prelude.{◌≡◌, false, ◌≤◌};
ghost use Rattle.std.specs.Float.Ieee as Ieee;
ghost use Rattle.std.specs.Float.{nan, inf};
ghost use Rattle.page.specs.Limits.{number_limit};
ghost use Rattle.page.specs.Answers.{option_of};
ghost use Rattle.records.specs.Literal as literal;
ghost use Rattle.records.specs.Float.{zero_float, magnitude_float, float, is_infinite_float, IsExact};
ghost use Rattle.records.specs.Allowed.{IsFill};
ghost use Rattle.records.specs.Answers.{literal_of};
ghost use Rattle.float.specs.Fills.{no_fraction, fraction_of, fill_value, fill_values, same_fraction, same_fills};

use records::Literal;

// The float of exactly that value.
pub fn whole(n: u64) -> f64
    requires { n ≤ number_limit }
    ensures { result ≡ magnitude_float (literal.whole n) }
{
    n as f64
}

fn not_a_number() -> f64
    ensures { result ≡ nan }
{
    0.0 / 0.0
}

fn infinity() -> f64
    ensures { result ≡ inf false }
{
    1.0 / 0.0
}

pub fn negated(x: f64) -> f64
    ensures { result ≡ Ieee.neg x }
{
    -x
}

// The float of a literal; NaN, which equals no number, where it is a fraction.
pub fn literal_value(l: Literal) -> f64
    requires { IsExact (literal_of l) }
    ensures { result ≡ float (literal_of l) }
{
    match l {
        Literal::Whole(n) => whole(n),
        Literal::Negative(n) => negated(whole(n)),
        Literal::Nan => not_a_number(),
        Literal::Inf => infinity(),
        Literal::NegInf => negated(infinity()),
        Literal::Fraction { .. } => not_a_number(),
        Literal::NegativeFraction { .. } => not_a_number(),
    }
}

// A NaN, and nothing else, differs from itself.
pub fn is_nan(x: f64) -> bool
    ensures { result ≡ Ieee.is_nan x }
{
    x != x
}

pub fn is_infinite(x: f64) -> bool
    ensures { result ≡ is_infinite_float x }
{
    let largest = infinity();
    (x == largest) | (x == -largest)
}

pub fn at_or_below_zero(x: f64) -> bool
    ensures { result ≡ Ieee.le x zero_float }
{
    x <= 0.0
}

// digits / 10^places, with its sign. 0 places stand where there is none.
#[derive(Clone, Copy)]
pub struct Fraction {
    pub minus: bool,
    pub places: u8,
    pub digits: u64,
}

// The two fill numbers, each with a bool that says whether it is there, and beside them the fractions that they are.
#[derive(Clone, Copy)]
pub struct FillValues {
    pub left: f64,
    pub right: f64,
    pub has_left: bool,
    pub has_right: bool,
    pub left_fraction: Fraction,
    pub right_fraction: Fraction,
}

fn no_fraction() -> Fraction
    ensures { result ≡ no_fraction }
{
    Fraction {
        minus: false,
        places: 0,
        digits: 0,
    }
}

// The fraction that a literal is.
fn fraction_of(l: Literal) -> Fraction
    ensures { result ≡ fraction_of (literal_of l) }
{
    match l {
        Literal::Whole(_) => no_fraction(),
        Literal::Negative(_) => no_fraction(),
        Literal::Nan => no_fraction(),
        Literal::Inf => no_fraction(),
        Literal::NegInf => no_fraction(),
        Literal::Fraction { places, digits } => Fraction {
            minus: false,
            places,
            digits,
        },
        Literal::NegativeFraction { places, digits } => Fraction {
            minus: true,
            places,
            digits,
        },
    }
}

// One fill: its number, whether it is there, and the fraction that it is.
#[derive(Clone, Copy)]
struct FillValue {
    number: f64,
    present: bool,
    fraction: Fraction,
}

fn fill_value(x: Option<Literal>) -> FillValue
    requires { IsFill (option_of literal_of x) }
    ensures { result ≡ fill_value (option_of literal_of x) }
{
    match x {
        None => FillValue {
            number: 0.0,
            present: false,
            fraction: no_fraction(),
        },
        Some(l) => FillValue {
            number: literal_value(l),
            present: true,
            fraction: fraction_of(l),
        },
    }
}

fn same_fraction(a: Fraction, b: Fraction) -> bool
    ensures { result ≡ same_fraction a b }
{
    (a.places != 0) & (a.minus == b.minus) & (a.digits == b.digits) & (a.places == b.places)
}

pub fn fill_values(lhs: Option<Literal>, rhs: Option<Literal>) -> FillValues
    requires { IsFill (option_of literal_of lhs) × IsFill (option_of literal_of rhs) }
    ensures { result ≡ fill_values (option_of literal_of lhs) (option_of literal_of rhs) }
{
    let left = fill_value(lhs);
    let right = fill_value(rhs);
    let left_fraction = left.fraction;
    let right_fraction = right.fraction;
    FillValues {
        left: left.number,
        right: right.number,
        has_left: left.present,
        has_right: right.present,
        left_fraction,
        right_fraction,
    }
}

// Whether both are there and equal by value: a NaN is not equal to itself, and 0 equals minus zero.
pub fn same_fills(f: FillValues) -> bool
    ensures { result ≡ same_fills f }
{
    let left = f.left_fraction;
    let right = f.right_fraction;
    f.has_left & f.has_right & ((f.left == f.right) | same_fraction(left, right))
}
