// Operands: what later records can ask of the expressions on the stack.
ghost use Rattle.std.specs.Prelude.{◌<◌, ◌≡◌};
ghost use Rattle.records.specs.Answers.{kind_of};
ghost use Rattle.ast.specs.Operand.{other_operand, operand_kind};
ghost use Rattle.rules.specs.Answers.{operand_meant};
ghost use Rattle.rules.specs.Stack.{tag_with, fraction_tag, tag_of, value_of, operand_from};

use records::Kind;

// Of a fraction: whether it is negative. Of a selector, a range and a subquery: whether @ is set, whether offset is set.
#[derive(Clone, Copy)]
pub enum Operand {
    Number(f64),
    Fraction(bool),
    String,
    Selector(bool, bool),
    Range(bool, bool),
    Subquery(bool, bool),
    Other(Kind),
}

pub fn kind_of(operand: Operand) -> Kind
    ensures { kind_of result ≡ operand_kind (operand_meant operand) }
{
    match operand {
        Operand::Number(_) | Operand::Fraction(_) => Kind::Scalar,
        Operand::String => Kind::String,
        Operand::Selector(_, _) => Kind::Vector,
        Operand::Range(_, _) | Operand::Subquery(_, _) => Kind::Matrix,
        Operand::Other(kind) => kind,
    }
}

// An operand as a byte, and the value that a number has.

// The tag where @ or offset is set, from the tag where neither is.
fn tag_with(tag: u8, at: bool, offset: bool) -> u8
    requires { tag < 250 }
    ensures { result ≡ tag_with tag at offset }
{
    match (at, offset) {
        (false, false) => tag,
        (true, false) => tag + 1,
        (false, true) => tag + 2,
        (true, true) => tag + 3,
    }
}

fn kind_tag(kind: Kind) -> u8
    ensures { result ≡ tag_of (other_operand (kind_of kind)) }
{
    match kind {
        Kind::Vector => 14,
        Kind::Scalar => 15,
        Kind::Matrix => 16,
        Kind::String => 17,
    }
}

fn fraction_tag(minus: bool) -> u8
    ensures { result ≡ fraction_tag minus }
{
    if minus { 19 } else { 18 }
}

pub fn tag_of(operand: Operand) -> u8
    ensures { result ≡ tag_of (operand_meant operand) }
{
    match operand {
        Operand::Number(_) => 0,
        Operand::Fraction(minus) => fraction_tag(minus),
        Operand::String => 1,
        Operand::Selector(at, offset) => tag_with(2, at, offset),
        Operand::Range(at, offset) => tag_with(6, at, offset),
        Operand::Subquery(at, offset) => tag_with(10, at, offset),
        Operand::Other(kind) => kind_tag(kind),
    }
}

pub fn value_of(operand: Operand) -> f64
    ensures { result ≡ value_of (operand_meant operand) }
{
    match operand {
        Operand::Number(value) => value,
        _ => 0.0,
    }
}

pub fn operand_from(tag: u8, value: f64) -> Operand
    ensures { operand_meant result ≡ operand_from tag value }
{
    match tag {
        0 => Operand::Number(value),
        1 => Operand::String,
        2 => Operand::Selector(false, false),
        3 => Operand::Selector(true, false),
        4 => Operand::Selector(false, true),
        5 => Operand::Selector(true, true),
        6 => Operand::Range(false, false),
        7 => Operand::Range(true, false),
        8 => Operand::Range(false, true),
        9 => Operand::Range(true, true),
        10 => Operand::Subquery(false, false),
        11 => Operand::Subquery(true, false),
        12 => Operand::Subquery(false, true),
        13 => Operand::Subquery(true, true),
        14 => Operand::Other(Kind::Vector),
        15 => Operand::Other(Kind::Scalar),
        16 => Operand::Other(Kind::Matrix),
        17 => Operand::Other(Kind::String),
        18 => Operand::Fraction(false),
        19 => Operand::Fraction(true),
        _ => Operand::Other(Kind::String),
    }
}
