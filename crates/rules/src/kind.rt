// Tests of kinds (value.rs, `ValueType`).
ghost use Rattle.std.specs.Prelude.{◌≡◌};
ghost use Rattle.records.specs.Kind.{is_vector, is_scalar, is_string};
ghost use Rattle.records.specs.Answers.{kind_of};
ghost use Rattle.ast.specs.CheckAst.{is_operand};

use records::Kind;

pub fn is_vector(kind: Kind) -> bool
    ensures { result ≡ is_vector (kind_of kind) }
{
    matches!(kind, Kind::Vector)
}

pub fn is_scalar(kind: Kind) -> bool
    ensures { result ≡ is_scalar (kind_of kind) }
{
    matches!(kind, Kind::Scalar)
}

pub fn is_string(kind: Kind) -> bool
    ensures { result ≡ is_string (kind_of kind) }
{
    matches!(kind, Kind::String)
}

// A scalar or a vector.
pub fn is_operand(kind: Kind) -> bool
    ensures { result ≡ is_operand (kind_of kind) }
{
    is_scalar(kind) | is_vector(kind)
}
