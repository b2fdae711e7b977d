// Bare numbers with the sign of the unary records on them.
ghost use Rattle.std.specs.Prelude.{◌≡◌, suc};
ghost use Rattle.records.specs.Literal.{negate};
ghost use Rattle.records.specs.Answers.{literal_of};
ghost use Rattle.records.specs.Record.{leaf, number};
ghost use Rattle.text.specs.LaidOut.{Reads};
ghost use Rattle.view.specs.View.{Starts, KindAt, SignedAt};

use crate::{fields_start, kind_at};
use records::{Literal, read_literal};

fn negated(l: Literal) -> Literal
    ensures { literal_of result ≡ negate (literal_of l) }
{
    match l {
        Literal::Whole(n) => Literal::Negative(n),
        Literal::Negative(n) => Literal::Whole(n),
        Literal::Nan => Literal::Nan,
        Literal::Inf => Literal::NegInf,
        Literal::NegInf => Literal::Inf,
        Literal::Fraction { places, digits } => Literal::NegativeFraction { places, digits },
        Literal::NegativeFraction { places, digits } => Literal::Fraction { places, digits },
    }
}

// The number of a number record.
fn literal_at(page: &[u8], starts: &[u16], i: usize) -> Literal
    requires starts { Starts page.now starts.now (suc i) }
    requires kind { KindAt page.now starts.now i 0 }
    ensures { Reads page.now starts.now i (leaf (number (literal_of result))) }
{
    match read_literal(page, fields_start(starts, i)) {
        Ok((l, _)) => l,
        Err(_) => Literal::Nan,
    }
}

// The value of the tree that record i ends: a number with the sign of the unary records on it, or none.
pub fn signed_literal(page: &[u8], starts: &[u16], i: usize) -> Option<Literal>
    requires { Starts page.now starts.now (suc i) }
    ensures { SignedAt page.now starts.now i result }
{
    let mut j = i;
    let mut odd = false;
    // How many unary records stand there is not known before, so it is no `for`.
    loop {
        match kind_at(page, starts, j) {
            7 => {
                odd = !odd;
                j = j - 1;
            }
            0 => {
                let l = literal_at(page, starts, j);
                if odd {
                    return Some(negated(l));
                }
                return Some(l);
            }
            _ => return None,
        }
    }
}
