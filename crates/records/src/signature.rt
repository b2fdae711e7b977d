// Signatures of functions (function.rs, `Function`): a name, declared kinds, how many arguments beyond them, and the
// result.
ghost use Rattle.std.specs.Prelude.{◌≡◌, drop, length, IfOk};
ghost use Rattle.page.specs.Answers.{field_at, itself, span_on, Lies};
ghost use Rattle.records.specs.Signature.{read_upper, read_variadic, read_function};
ghost use Rattle.records.specs.Answers.{kinds_on};
ghost use Rattle.records.specs.SignatureAnswers.{variadic_of, function_on, FunctionLies, read_function_rest};

use crate::kind::{Kind, read_kind, read_kinds};
use crate::on_page::wrapped;
use page::{COUNT_LIMIT, Fault, Field, List, Span, TextClass, read_number, read_text};

// How many arguments beyond the declared kinds less one.
#[derive(Clone, Copy)]
pub enum Variadic {
    Fixed,
    Unlimited,
    UpTo(u64),
}

// An upper extra: 0 is a bad field, more than 16 past the limit.
fn read_upper(page: &[u8], at: usize) -> Field<u64>
    ensures { field_at itself page.now result ≡ read_upper (drop at page.now) }
{
    let (n, next) = read_number(page, at)?;
    if n == 0 {
        return Err(Fault::BadField);
    }
    if n <= COUNT_LIMIT {
        Ok((n, next))
    } else {
        Err(Fault::PastLimit)
    }
}

pub fn read_variadic(page: &[u8], at: usize) -> Field<Variadic>
    ensures { field_at variadic_of page.now result ≡ read_variadic (drop at page.now) }
{
    let (form, next) = read_number(page, at)?;
    match form {
        0 => Ok((Variadic::Fixed, next)),
        1 => Ok((Variadic::Unlimited, next)),
        2 => wrapped(read_upper(page, next), Variadic::UpTo),
        _ => Err(Fault::BadField),
    }
}

// A signature: the declared kinds stay on the page.
#[derive(Clone, Copy)]
pub struct Function {
    pub name: Span,
    pub kinds: List,
    pub variadic: Variadic,
    pub result: Kind,
}

// The rest of a signature: its extra and its result.
fn read_function_rest(page: &[u8], at: usize, name: Span, kinds: List) -> Field<Function>
    requires { Lies page.now name × (length (kinds_on page.now kinds.start kinds.count) ≡ kinds.count) }
    ensures reads { field_at (function_on page.now) page.now result ≡ read_function_rest (span_on page.now name) (kinds_on page.now kinds.start kinds.count) (drop at page.now) }
    ensures lies { IfOk result (λ field. FunctionLies page.now field.0) }
{
    let (variadic, next) = read_variadic(page, at)?;
    let (result, next) = read_kind(page, next)?;
    let function = Function {
        name,
        kinds,
        variadic,
        result,
    };
    Ok((function, next))
}

pub fn read_function(page: &[u8], at: usize) -> Field<Function>
    ensures reads { field_at (function_on page.now) page.now result ≡ read_function (drop at page.now) }
    ensures lies { IfOk result (λ field. FunctionLies page.now field.0) }
{
    let (name, next) = read_text(page, at, TextClass::FunctionName)?;
    let (kinds, next) = read_kinds(page, next)?;
    read_function_rest(page, next, name, kinds)
}
