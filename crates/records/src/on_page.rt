// Values that stand on a page, each with its reader. What is read of them: the value of a form, an optional value, and
// lists.
ghost use Rattle.std.specs.Prelude.{ℕ, List, ◌≡◌, drop, IfOk};
ghost use Rattle.page.specs.Read.{Reader, repeat};
ghost use Rattle.page.specs.Number.{read_number};
ghost use Rattle.page.specs.Text.{read_any_text, read_list};
ghost use Rattle.page.specs.Answers.{field_at, itself, option_of, span_on, list_on, list_stored, Lies};
ghost use Rattle.records.specs.Field.{read_option};
ghost use Rattle.records.specs.OnPage.{OptionStored, Wrapped, anything};

use page::{Fault, Field, List, Span, TextClass, read_count, read_number, read_text};

// What the definitions say of such a value: what it stands for, by which reader, and what holds of it once it was read.
pub trait OnPage: Copy {
    ghost Meaning: { Type 0 };

    ghost meaning: { List ℕ → Self → Meaning };

    ghost reader: { Reader Meaning };

    ghost Stored: { List ℕ → Self → Type 0 };

    fn read(page: &[u8], at: usize) -> Field<Self>
        ensures reads { field_at (meaning page.now) page.now result ≡ reader (drop at page.now) }
        ensures stored { IfOk result (λ field. Stored page.now field.0) };
}

// A number.
impl OnPage for u64 {
    ghost Meaning = { ℕ };

    ghost meaning = { λ page. itself };

    ghost reader = { read_number };

    ghost Stored = { anything };

    fn read(page: &[u8], at: usize) -> Field<u64> {
        read_number(page, at)
    }
}

// A text that is no name, as a label.
impl OnPage for Span {
    ghost Meaning = { List ℕ };

    ghost meaning = { span_on };

    ghost reader = { read_any_text };

    ghost Stored = { Lies };

    fn read(page: &[u8], at: usize) -> Field<Span> {
        read_text(page, at, TextClass::Any)
    }
}

// What was read, as the value of a form.
pub fn wrapped<T: Copy, U, F: FnOnce(T) -> U>(field: Field<T>, form: F) -> Field<U>
    requires { F.IsAlwaysCallable form }
    ensures { Wrapped (F.post form) field result }
{
    let (value, next) = field?;
    Ok((form(value), next))
}

// Nothing, or a value. Its arm is written out: with `wrapped` the compiler left the reading of fills a call of its own.
pub fn read_option<T: OnPage>(page: &[u8], at: usize) -> Field<Option<T>>
    ensures reads { field_at (option_of (T.meaning page.now)) page.now result ≡ read_option T.reader (drop at page.now) }
    ensures stored { IfOk result (λ field. OptionStored (T.Stored page.now) field.0) }
{
    let (n, next) = read_number(page, at)?;
    match n {
        0 => Ok((None, next)),
        1 => {
            let (value, next) = T::read(page, next)?;
            Ok((Some(value), next))
        }
        _ => Err(Fault::BadField),
    }
}

// So many values from a position on.
pub fn list_from<T: OnPage>(page: &[u8], start: usize, count: usize) -> Field<List>
    ensures reads { field_at (list_on T.reader page.now) page.now result ≡ repeat count T.reader (drop start page.now) }
    ensures stored { list_stored T.reader page.now result }
{
    let mut at = start;
    for _ in 0..count {
        let (_, next) = T::read(page, at)?;
        at = next;
    }
    Ok((List { start, count }, at))
}

// A count, and so many values.
pub fn read_list<T: OnPage>(page: &[u8], at: usize) -> Field<List>
    ensures reads { field_at (list_on T.reader page.now) page.now result ≡ read_list T.reader (drop at page.now) }
    ensures stored { list_stored T.reader page.now result }
{
    let (count, start) = read_count(page, at)?;
    list_from::<T>(page, start, count)
}
