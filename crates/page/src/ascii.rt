// Whether all bytes of a text are below 128 (document 02, No. 4): a word of eight bytes at a time, what is left of the
// text singly. No byte outside the text is read, wherever it starts.
ghost use Rattle.std.specs.Prelude.{◌≡◌, ◌-◌, ◌≤◌, length, take, drop};
ghost use Rattle.page.specs.Text.{is_ascii};
ghost use Rattle.page.specs.Word.{word_of};

// Eight bytes as one number, the first the lowest: one load, where they stand side by side.
fn word(bytes: &[u8; 8]) -> u64
    ensures { result ≡ word_of bytes.now }
{
    u64::from_le_bytes(*bytes)
}

// A word passes exactly when its eight bytes do: none of them has its highest bit set.
pub fn word_passes(bytes: &[u8; 8]) -> bool
    ensures { result ≡ is_ascii bytes.now }
{
    word(bytes) & 0x8080_8080_8080_8080 == 0
}

// The bytes from a position on, one at a time; there are none past the text's end. The loop asks with `!=` whether it
// is at the end, which takes two instructions a byte less than `<`.
pub fn ascii_from(text: &[u8], from: usize) -> bool
    ensures { result ≡ is_ascii (drop from text.now) }
{
    if text.len() < from {
        return true;
    }
    let mut i = from;
    while i != text.len() {
        if 128 <= text[i] {
            return false;
        }
        i = i + 1;
    }
    true
}

// The eight bytes from a position on.
pub fn word_passes_at(text: &[u8], i: usize) -> bool
    requires { 8 ≤ length text.now - i }
    ensures { result ≡ is_ascii (take 8 (drop i text.now)) }
{
    text[i..]
        .split_first_chunk()
        .is_some_and(|(word, _)| word_passes(word))
}

// Whole words first, then what is left.
pub fn is_ascii(text: &[u8]) -> bool
    ensures { result ≡ is_ascii text.now }
{
    let mut i = 0;
    while 8 <= text.len() - i {
        if !word_passes_at(text, i) {
            return false;
        }
        i = i + 8;
    }
    ascii_from(text, i)
}
