// Kinds of values (value.rs, `ValueType`) and flags: one number each.
ghost use Rattle.std.specs.Prelude.{◌≡◌, drop};
ghost use Rattle.page.specs.Read.{repeat};
ghost use Rattle.page.specs.Text.{read_list};
ghost use Rattle.page.specs.Answers.{field_at, itself, list_on, list_stored};
ghost use Rattle.records.specs.Kind as kinds;
ghost use Rattle.records.specs.Kind.{kind_number};
ghost use Rattle.records.specs.Field.{read_flag, read_kind};
ghost use Rattle.records.specs.OnPage.{anything};
ghost use Rattle.records.specs.Answers.{kind_of};

use crate::on_page::{OnPage, list_from, read_list};
use page::{Fault, Field, List, read_number};

// 0 or 1, and the position after it.
pub fn read_flag(page: &[u8], at: usize) -> Field<bool>
    ensures { field_at itself page.now result ≡ read_flag (drop at page.now) }
{
    let (n, next) = read_number(page, at)?;
    match n {
        0 => Ok((false, next)),
        1 => Ok((true, next)),
        _ => Err(Fault::BadField),
    }
}

#[derive(Clone, Copy, Debug, PartialEq, Eq)]
pub enum Kind {
    Vector,
    Scalar,
    Matrix,
    String,
}

// The number that stands for a kind on a page.
pub fn kind_number(kind: Kind) -> u64
    ensures { result ≡ kind_number (kind_of kind) }
{
    match kind {
        Kind::Vector => 0,
        Kind::Scalar => 1,
        Kind::Matrix => 2,
        Kind::String => 3,
    }
}

// A kind and the position after it.
pub fn read_kind(page: &[u8], at: usize) -> Field<Kind>
    ensures { field_at kind_of page.now result ≡ read_kind (drop at page.now) }
{
    let (n, next) = read_number(page, at)?;
    match n {
        0 => Ok((Kind::Vector, next)),
        1 => Ok((Kind::Scalar, next)),
        2 => Ok((Kind::Matrix, next)),
        3 => Ok((Kind::String, next)),
        _ => Err(Fault::BadField),
    }
}

impl OnPage for Kind {
    ghost Meaning = { kinds.Kind };

    ghost meaning = { λ page. kind_of };

    ghost reader = { read_kind };

    ghost Stored = { anything };

    fn read(page: &[u8], at: usize) -> Field<Kind> {
        read_kind(page, at)
    }
}

// So many kinds from a position on.
pub fn kinds_from(page: &[u8], start: usize, count: usize) -> Field<List>
    ensures reads { field_at (list_on read_kind page.now) page.now result ≡ repeat count read_kind (drop start page.now) }
    ensures stored { list_stored read_kind page.now result }
{
    list_from::<Kind>(page, start, count)
}

// A count, and so many kinds.
pub fn read_kinds(page: &[u8], at: usize) -> Field<List>
    ensures reads { field_at (list_on read_kind page.now) page.now result ≡ read_list read_kind (drop at page.now) }
    ensures stored { list_stored read_kind page.now result }
{
    read_list::<Kind>(page, at)
}
