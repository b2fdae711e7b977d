// Tests on the bytes of a text (lex.rs, `is_alpha`, `is_alpha_numeric`, `is_label`; document 01, 'The page').
ghost use Rattle.std.specs.Prelude.{◌≡◌};
ghost use Rattle.page.specs.Bytes.{all};
ghost use Rattle.page.specs.Text.{is_digit, is_alpha, is_name, is_label, is_metric_name, is_text};
ghost use Rattle.page.specs.Answers.{in_class};

use crate::ascii::is_ascii;
use crate::utf8::is_utf8;

// The sets of bytes that the tests of names go by.
#[derive(Clone, Copy)]
pub enum ByteClass {
    Alpha,
    AlphaColon,
    AlphaNumeric,
    AlphaNumericColon,
}

fn is_digit(b: u8) -> bool
    ensures { result ≡ is_digit b }
{
    b.is_ascii_digit()
}

fn is_alpha(b: u8) -> bool
    ensures { result ≡ is_alpha b }
{
    b.is_ascii_alphabetic() | (b == b'_')
}

pub fn byte_is(class: ByteClass, b: u8) -> bool
    ensures { result ≡ in_class class b }
{
    match class {
        ByteClass::Alpha => is_alpha(b),
        ByteClass::AlphaColon => is_alpha(b) | (b == b':'),
        ByteClass::AlphaNumeric => is_alpha(b) | is_digit(b),
        ByteClass::AlphaNumericColon => is_alpha(b) | is_digit(b) | (b == b':'),
    }
}

// Whether every byte is in the class.
pub fn all_in(text: &[u8], class: ByteClass) -> bool
    ensures { result ≡ all (in_class class) text.now }
{
    text.iter().all(|b| byte_is(class, *b))
}

// The one test of texts that are no names. Most of them are ASCII, and are tested by words alone.
pub fn is_text(text: &[u8]) -> bool
    ensures { result ≡ is_text text.now }
{
    if is_ascii(text) {
        return true;
    }
    is_utf8(text)
}

// Whether there is a first byte, in one class, and all others are in another.
pub fn is_name_of(text: &[u8], first: ByteClass, other: ByteClass) -> bool
    ensures { result ≡ is_name (in_class first) (in_class other) text.now }
{
    match text {
        [] => false,
        [b, rest @ ..] => byte_is(first, *b) && all_in(rest, other),
    }
}

pub fn is_metric_name(text: &[u8]) -> bool
    ensures { result ≡ is_metric_name text.now }
{
    is_name_of(text, ByteClass::AlphaColon, ByteClass::AlphaNumericColon)
}

// Labels that print bare, and function names.
pub fn is_label(text: &[u8]) -> bool
    ensures { result ≡ is_label text.now }
{
    is_name_of(text, ByteClass::Alpha, ByteClass::AlphaNumeric)
}
