// Declared kinds of a signature, which stay on the page and are read again.
ghost use Rattle.std.specs.Prelude.{not, ◌≡◌};
ghost use Rattle.page.specs.Bytes.{is_empty};
ghost use Rattle.records.specs.Kind.{equal_kind};
ghost use Rattle.records.specs.Answers.{kind_of, kinds_on};
ghost use Rattle.judge.specs.Call.{declared_meant, next_kind};

use records::{Kind, read_kind};

pub fn same_kind(a: Kind, b: Kind) -> bool
    ensures { result ≡ equal_kind (kind_of a) (kind_of b) }
{
    a == b
}

// Whether there is a kind at all.
fn has_kinds(page: &[u8], start: usize, count: usize) -> bool
    ensures { result ≡ not (is_empty (kinds_on page.now start count)) }
{
    if count == 0 {
        return false;
    }
    read_kind(page, start).is_ok()
}

// The kind declared for an argument, and where those for the arguments after it start and how many they are.
#[derive(Clone, Copy)]
pub struct Declared {
    pub kind: Kind,
    pub next: usize,
    pub left: usize,
}

// The last declared kind repeats.
pub fn next_kind(page: &[u8], start: usize, count: usize) -> Option<Declared>
    ensures { declared_meant page.now result ≡ next_kind (kinds_on page.now start count) }
{
    if count == 0 {
        return None;
    }
    let (kind, next) = read_kind(page, start).ok()?;
    if has_kinds(page, next, count - 1) {
        return Some(Declared {
            kind,
            next,
            left: count - 1,
        });
    }
    Some(Declared {
        kind,
        next: start,
        left: count,
    })
}
