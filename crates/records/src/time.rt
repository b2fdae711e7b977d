// Offsets, @ times and steps (ast.rs, `Offset`, `AtModifier`), in milliseconds.
ghost use Rattle.std.specs.Prelude.{◌≡◌, drop};
ghost use Rattle.page.specs.Number.{read_number};
ghost use Rattle.page.specs.Answers.{field_at, itself, option_of};
ghost use Rattle.records.specs.Field.{read_option};
ghost use Rattle.records.specs.Time.{read_time, read_negative_time, read_at_modifier, read_offset};
ghost use Rattle.records.specs.Answers.{at_modifier_of, offset_of};

use crate::on_page::{read_option, wrapped};
use page::{Fault, Field, TIME_LIMIT, read_number};

// A time that is not negative.
fn read_time(page: &[u8], at: usize) -> Field<u64>
    ensures { field_at itself page.now result ≡ read_time (drop at page.now) }
{
    let (n, next) = read_number(page, at)?;
    if n <= TIME_LIMIT {
        Ok((n, next))
    } else {
        Err(Fault::PastLimit)
    }
}

// The magnitude of a negative time: 0 is a bad field.
fn read_negative_time(page: &[u8], at: usize) -> Field<u64>
    ensures { field_at itself page.now result ≡ read_negative_time (drop at page.now) }
{
    let (n, next) = read_number(page, at)?;
    if n == 0 {
        return Err(Fault::BadField);
    }
    if n <= TIME_LIMIT {
        Ok((n, next))
    } else {
        Err(Fault::PastLimit)
    }
}

// A time so many milliseconds after or before 1970, or an end of the range.
#[derive(Clone, Copy)]
pub enum AtModifier {
    Start,
    End,
    After(u64),
    Before(u64),
}

pub fn read_at_modifier(page: &[u8], at: usize) -> Field<AtModifier>
    ensures { field_at at_modifier_of page.now result ≡ read_at_modifier (drop at page.now) }
{
    let (form, next) = read_number(page, at)?;
    match form {
        0 => Ok((AtModifier::Start, next)),
        1 => Ok((AtModifier::End, next)),
        2 => wrapped(read_time(page, next), AtModifier::After),
        3 => wrapped(read_negative_time(page, next), AtModifier::Before),
        _ => Err(Fault::BadField),
    }
}

#[derive(Clone, Copy)]
pub enum Offset {
    Pos(u64),
    Neg(u64),
}

pub fn read_offset(page: &[u8], at: usize) -> Field<Offset>
    ensures { field_at offset_of page.now result ≡ read_offset (drop at page.now) }
{
    let (sign, next) = read_number(page, at)?;
    match sign {
        0 => wrapped(read_number(page, next), Offset::Pos),
        1 => wrapped(read_number(page, next), Offset::Neg),
        _ => Err(Fault::BadField),
    }
}

// A subquery's step, if there is one.
pub fn read_optional_duration(page: &[u8], at: usize) -> Field<Option<u64>>
    ensures { field_at (option_of itself) page.now result ≡ read_option read_number (drop at page.now) }
{
    read_option(page, at)
}
