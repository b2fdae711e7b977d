// Tests of label lists that stay on the page (label/mod.rs, ast.rs `is_labels_joint`, `is_matching_labels_not_empty`).
ghost use Rattle.std.specs.Prelude.{not, ◌≡◌, drop};
ghost use Rattle.page.specs.Bytes.{any, is_empty};
ghost use Rattle.records.specs.Answers.{labels_on};
ghost use Rattle.ast.specs.CheckAst.{has_label};
ghost use Rattle.judge.specs.Label.{from_joint};

use page::{TextClass, read_text, same_text, text_at};

// Whether a text is one of a list of labels.
pub fn has_label(page: &[u8], start: usize, count: usize, text: &[u8]) -> bool
    ensures { result ≡ has_label (labels_on page.now start count) text.now }
{
    let mut at = start;
    for _ in 0..count {
        let Ok((label, next)) = read_text(page, at, TextClass::Any) else {
            return false;
        };
        if same_text(text, text_at(page, label)) {
            return true;
        }
        at = next;
    }
    false
}

// Whether there is a label in a list.
pub fn has_labels(page: &[u8], start: usize, count: usize) -> bool
    ensures { result ≡ not (is_empty (labels_on page.now start count)) }
{
    if count == 0 {
        return false;
    }
    read_text(page, start, TextClass::Any).is_ok()
}

// Where the first of so many labels stands that is in the on list too: the end of the page where there is none.
pub fn first_joint(page: &[u8], start: usize, count: usize, on: usize, ons: usize) -> usize
    ensures { drop result page.now ≡ from_joint (labels_on page.now on ons) count (drop start page.now) }
{
    let mut at = start;
    for _ in 0..count {
        let Ok((label, next)) = read_text(page, at, TextClass::Any) else {
            return page.len();
        };
        if has_label(page, on, ons, text_at(page, label)) {
            return at;
        }
        at = next;
    }
    page.len()
}

// Whether a label of the group list is in the on list too.
pub fn has_joint(page: &[u8], group: usize, groups: usize, on: usize, ons: usize) -> bool
    ensures { result ≡ any (has_label (labels_on page.now on ons)) (labels_on page.now group groups) }
{
    first_joint(page, group, groups, on, ons) < page.len()
}
