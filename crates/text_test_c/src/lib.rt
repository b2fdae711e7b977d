// The archive with the test of texts, out/libtext_test_c.a, which `rt lib` here makes: each function of crate text_test
// under its name in C, with the same contract.
#![tactic(auto)]

ghost use Rattle.std.specs.Prelude.{◌≡◌, drop};
ghost use Rattle.page.specs.Text.{is_ascii, is_text};

#[unsafe(no_mangle)]
pub extern "C" fn sandzguli_is_text(text: &[u8]) -> bool
    ensures { result ≡ is_text text.now }
{
    text_test::sandzguli_is_text(text)
}

// Bytes below 128, one byte at a time: what words are timed beside.
#[unsafe(no_mangle)]
pub extern "C" fn sandzguli_is_ascii_by_bytes(text: &[u8]) -> bool
    ensures { result ≡ is_ascii text.now }
{
    text_test::sandzguli_is_ascii_by_bytes(text)
}

// The bytes from a position on.
#[unsafe(no_mangle)]
pub extern "C" fn sandzguli_ascii_from(text: &[u8], from: usize) -> bool
    ensures { result ≡ is_ascii (drop from text.now) }
{
    text_test::sandzguli_ascii_from(text, from)
}
