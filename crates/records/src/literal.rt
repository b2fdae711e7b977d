// Numbers of number records and fills (ast.rs, `NumberLiteral`): a form, and what stands after it.
ghost use Rattle.std.specs.Prelude.{◌≡◌, drop};
ghost use Rattle.page.specs.Answers.{field_at, option_of};
ghost use Rattle.records.specs.Literal as literal;
ghost use Rattle.records.specs.Literal.{read_literal};
ghost use Rattle.records.specs.Field.{read_option};
ghost use Rattle.records.specs.OnPage.{anything};
ghost use Rattle.records.specs.Answers.{literal_of};

use crate::fraction::{Fraction, read_fraction};
use crate::on_page::{OnPage, read_option, wrapped};
use page::{Fault, Field, read_number};

// Negative(0) is minus zero. A fraction is digits / 10^places, plus or minus.
#[derive(Clone, Copy)]
pub enum Literal {
    Whole(u64),
    Negative(u64),
    Nan,
    Inf,
    NegInf,
    Fraction { places: u8, digits: u64 },
    NegativeFraction { places: u8, digits: u64 },
}

pub fn read_literal(page: &[u8], at: usize) -> Field<Literal>
    ensures { field_at literal_of page.now result ≡ read_literal (drop at page.now) }
{
    let (form, next) = read_number(page, at)?;
    match form {
        0 => wrapped(read_number(page, next), Literal::Whole),
        1 => wrapped(read_number(page, next), Literal::Negative),
        2 => Ok((Literal::Nan, next)),
        3 => Ok((Literal::Inf, next)),
        4 => Ok((Literal::NegInf, next)),
        5 => wrapped(read_fraction(page, next), |Fraction { places, digits }| {
            Literal::Fraction { places, digits }
        }),
        6 => wrapped(read_fraction(page, next), |Fraction { places, digits }| {
            Literal::NegativeFraction { places, digits }
        }),
        _ => Err(Fault::BadField),
    }
}

impl OnPage for Literal {
    ghost Meaning = { literal.Literal };

    ghost meaning = { λ page. literal_of };

    ghost reader = { read_literal };

    ghost Stored = { anything };

    fn read(page: &[u8], at: usize) -> Field<Literal> {
        read_literal(page, at)
    }
}

// A fill value, if there is one.
pub fn read_fill(page: &[u8], at: usize) -> Field<Option<Literal>>
    ensures { field_at (option_of literal_of) page.now result ≡ read_option read_literal (drop at page.now) }
{
    read_option(page, at)
}
