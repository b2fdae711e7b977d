// Selectors (ast.rs, `VectorSelector`): the name, and the matchers in braces where there are any.
ghost use Rattle.std.specs.Prelude.{◌≡◌, ◌+◌, ◌≤◌, min, length, drop};
ghost use Rattle.base.specs.Splice.{Wrote};
ghost use Rattle.page.specs.Limits.{page_limit, count_limit};
ghost use Rattle.page.specs.Listed.{AllRead};
ghost use Rattle.page.specs.Answers.{Lies};
ghost use Rattle.records.specs.Matcher.{read_matcher};
ghost use Rattle.records.specs.Answers.{matchers_on};
ghost use Rattle.reader.specs.Answers.{selector_on};
ghost use Rattle.text.specs.Display.{display_braces, display_selector};

use label::{matchers_len, put_matchers};
use leaves::capped_add;
use page::{put_byte, put_bytes, text_at};
use reader::Selector;

fn braces_len(page: &[u8], start: usize, count: usize, cap: usize) -> usize
    requires { AllRead read_matcher count (drop start page.now) }
    ensures { result ≡ min (length (display_braces (matchers_on page.now start count))) cap }
{
    if count == 0 {
        return 0;
    }
    capped_add(2, matchers_len(page, start, count, cap), cap)
}

fn put_braces(page: &[u8], start: usize, count: usize, out: &mut [u8], at: usize) -> usize
    requires stored { AllRead read_matcher count (drop start page.now) }
    requires limits { (length (matchers_on page.now start count) ≤ count_limit) × (length page.now ≤ page_limit) }
    requires room { at + length (display_braces (matchers_on page.now start count)) ≤ length out.old }
    ensures { Wrote out.old out.new at (display_braces (matchers_on page.now start count)) result }
{
    if count == 0 {
        return at;
    }
    let first = put_byte(b'{', out, at);
    let closing = put_matchers(page, start, count, out, first);
    put_byte(b'}', out, closing)
}

pub fn selector_len(page: &[u8], selector: Selector, cap: usize) -> usize
    requires lies { Lies page.now selector.name }
    requires stored { AllRead read_matcher selector.matchers.count (drop selector.matchers.start page.now) }
    ensures { result ≡ min (length (display_selector (selector_on page.now selector))) cap }
{
    let name = text_at(page, selector.name);
    capped_add(
        name.len(),
        braces_len(page, selector.matchers.start, selector.matchers.count, cap),
        cap,
    )
}

pub fn put_selector(page: &[u8], selector: Selector, out: &mut [u8], at: usize) -> usize
    requires lies { Lies page.now selector.name }
    requires stored { AllRead read_matcher selector.matchers.count (drop selector.matchers.start page.now) }
    requires limits { (length (matchers_on page.now selector.matchers.start selector.matchers.count) ≤ count_limit) × (length page.now ≤ page_limit) }
    requires room { at + length (display_selector (selector_on page.now selector)) ≤ length out.old }
    ensures { Wrote out.old out.new at (display_selector (selector_on page.now selector)) result }
{
    let behind = put_bytes(text_at(page, selector.name), out, at);
    put_braces(
        page,
        selector.matchers.start,
        selector.matchers.count,
        out,
        behind,
    )
}
