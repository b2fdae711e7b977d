// Patterns that match empty text (document 02, No. 7): "a choice is made of sequences, a sequence of items, and an item
// may hold a choice". Three functions call each other over the pattern: the bytes that are left fall, and at one byte the
// level: choice, sequence, item. No byte is gone over twice.
#![tactic(auto)]

ghost use Rattle.std.specs.Prelude.{◌≤◌, ◌≡◌, length};
ghost use Rattle.page.specs.Answers.{itself, option_of};
ghost use Rattle.patterns.specs.Pattern.{is_single};
ghost use Rattle.patterns.specs.Search.{matches_empty_text};
ghost use Rattle.patterns.specs.Answers.{ChoiceAt, SequenceAt, ItemAt, RepeatAt};

// What stands at a position of a pattern: whether empty text is in its language, and the position after it.
type PatternPart = Option<(bool, usize)>;

// A letter, a digit, `_` or `-`.
fn is_single(b: u8) -> bool
    ensures { result ≡ is_single b }
{
    page::byte_is(page::ByteClass::AlphaNumeric, b) | (b == b'-')
}

// What an item becomes with the `*`, `+` or `?` after it, if there is one.
fn repeated(pattern: &[u8], at: usize, empty: bool) -> (bool, usize)
    requires { at ≤ length pattern.now }
    ensures { RepeatAt pattern.now at empty result }
{
    if pattern.len() <= at {
        return (empty, at);
    }
    match pattern[at] {
        b'*' | b'?' => (true, at + 1),
        b'+' => (empty, at + 1),
        _ => (empty, at),
    }
}

// One byte or a choice in brackets, and what repeats it.
#[cycle(choice_item_sequence)]
fn item(pattern: &[u8], at: usize) -> PatternPart
    requires { at ≤ length pattern.now }
    ensures { ItemAt pattern.now at result }
{
    if pattern.len() <= at {
        return None;
    }
    let b = pattern[at];
    if b == b'(' {
        let (empty, next) = choice(pattern, at + 1)?;
        if pattern.len() <= next {
            return None;
        }
        return Some(repeated(pattern, next + 1, empty));
    }
    if b == b'.' {
        return Some(repeated(pattern, at + 1, false));
    }
    if is_single(b) {
        return Some(repeated(pattern, at + 1, false));
    }
    None
}

// Items one after the other, to the pattern's end, a `|` or a `)`.
#[cycle(choice_item_sequence)]
fn sequence(pattern: &[u8], at: usize) -> PatternPart
    requires { at ≤ length pattern.now }
    ensures { SequenceAt pattern.now at result }
{
    let mut empty = true;
    let mut here = at;
    while here < pattern.len() {
        let b = pattern[here];
        if (b == b'|') | (b == b')') {
            return Some((empty, here));
        }
        let (one, next) = item(pattern, here)?;
        empty = empty & one;
        here = next;
    }
    Some((empty, here))
}

// Sequences with `|` between them, to the pattern's end or a `)`.
#[cycle(choice_item_sequence)]
fn choice(pattern: &[u8], at: usize) -> PatternPart
    requires { at ≤ length pattern.now }
    ensures { ChoiceAt pattern.now at result }
{
    let (first, next) = sequence(pattern, at)?;
    if pattern.len() <= next {
        return Some((first, next));
    }
    if pattern[next] == b')' {
        return Some((first, next));
    }
    let (rest, end) = choice(pattern, next + 1)?;
    Some((first | rest, end))
}

// Whether a covered pattern matches empty text; nothing of any other.
pub fn matches_empty_text(pattern: &[u8]) -> Option<bool>
    ensures { option_of itself result ≡ matches_empty_text pattern.now }
{
    let (empty, next) = choice(pattern, 0)?;
    if next == pattern.len() {
        return Some(empty);
    }
    None
}
