// The matchers of a selector (label/matcher.rs, `Display` of `Matchers`): their texts sorted as bytes, with a comma
// between each two. The list stays on the page: where its first matcher starts and how many there are. All can be read,
// so that no byte is tested again.
ghost use Rattle.std.specs.Prelude.{◌≡◌, map, ◌+◌, ◌≤◌, min, length, drop};
ghost use Rattle.base.specs.Splice.{Wrote};
ghost use Rattle.page.specs.Limits.{page_limit, count_limit};
ghost use Rattle.page.specs.Text.{is_label};
ghost use Rattle.page.specs.Listed.{AllRead};
ghost use Rattle.records.specs.Matcher.{read_matcher};
ghost use Rattle.records.specs.Allowed.{IsMatcher};
ghost use Rattle.records.specs.Answers.{op_of, matcher_on, matchers_on, MatcherLies};
ghost use Rattle.label.specs.Label.{display_label, match_op_token, display_matcher, joined_by_commas, more_by_commas, display_matchers};
ghost use Rattle.label.specs.Printed.{Prints, printed_text, AllPrint, printed_texts, PrintsAs, Collected};

use crate::label::label_len;
use crate::order::operator_count;
use crate::printed::Printed;
use crate::sort::arrange;
use leaves::{capped_add, put_quoted, quoted_len};
use page::{is_label, put_byte, put_bytes, text_at};
use records::{MatchOp, Matcher, stored_matcher};

// What a matcher prints.
fn printed(page: &[u8], matcher: Matcher) -> Printed
    requires matcher { MatcherLies page.now matcher × IsMatcher (matcher_on page.now matcher) }
    requires limit { length page.now ≤ page_limit }
    ensures { PrintsAs page.now (matcher_on page.now matcher) result }
{
    let name = matcher.name;
    let value = matcher.value;
    Printed {
        name_start: name.start as u32,
        value_start: value.start as u16,
        name_size: (name.end - name.start) as u8,
        value_size: (value.end - value.start) as u8,
        bare: is_label(text_at(page, name)),
        op: matcher.op,
    }
}

// What so many matchers from a position on print, and how many they are.
fn collect(page: &[u8], start: usize, count: usize, order: &mut [Printed]) -> usize
    requires stored { AllRead read_matcher count (drop start page.now) }
    requires room { length (matchers_on page.now start count) ≤ length order.old }
    requires limit { length page.now ≤ page_limit }
    ensures { Collected page.now (matchers_on page.now start count) order.new result }
{
    let mut at = start;
    for i in 0..count {
        let (matcher, next) = stored_matcher(page, at);
        order[i] = printed(page, matcher);
        at = next;
    }
    count
}

// A name, where it is known whether it is a label.
fn put_name(text: &[u8], bare: bool, out: &mut [u8], at: usize) -> usize
    requires { (bare ≡ is_label text.now) × (at + length (display_label text.now) ≤ length out.old) }
    ensures { Wrote out.old out.new at (display_label text.now) result }
{
    if bare {
        return put_bytes(text, out, at);
    }
    put_quoted(text, out, at)
}

fn put_operator(op: MatchOp, out: &mut [u8], at: usize) -> usize
    requires { at + length (match_op_token (op_of op)) ≤ length out.old }
    ensures { Wrote out.old out.new at (match_op_token (op_of op)) result }
{
    match op {
        MatchOp::Equal => put_byte(b'=', out, at),
        MatchOp::NotEqual => put_bytes(b"!=", out, at),
        MatchOp::Re(_) => put_bytes(b"=~", out, at),
        MatchOp::NotRe(_) => put_bytes(b"!~", out, at),
    }
}

fn put_matcher(page: &[u8], parts: Printed, out: &mut [u8], at: usize) -> usize
    requires { Prints page.now parts × (at + length (printed_text page.now parts) ≤ length out.old) }
    ensures { Wrote out.old out.new at (printed_text page.now parts) result }
{
    let behind = put_name(text_at(page, parts.name()), parts.bare, out, at);
    let next = put_operator(parts.op, out, behind);
    put_quoted(text_at(page, parts.value()), out, next)
}

// The texts in their order, with a comma between each two.
fn put_in_order(page: &[u8], order: &[Printed], out: &mut [u8], at: usize) -> usize
    requires { AllPrint page.now order.now × (at + length (joined_by_commas (printed_texts page.now order.now)) ≤ length out.old) }
    ensures { Wrote out.old out.new at (joined_by_commas (printed_texts page.now order.now)) result }
{
    let Some((first, others)) = order.split_first() else {
        return at;
    };
    let mut pos = put_matcher(page, *first, out, at);
    for parts in others {
        let next = put_byte(b',', out, pos);
        pos = put_matcher(page, *parts, out, next);
    }
    pos
}

// Stands where no matcher is collected.
const NOTHING: Printed = Printed {
    name_start: 0,
    value_start: 0,
    name_size: 0,
    value_size: 0,
    bare: false,
    op: MatchOp::Equal,
};

pub fn put_matchers(page: &[u8], start: usize, count: usize, out: &mut [u8], at: usize) -> usize
    requires stored { AllRead read_matcher count (drop start page.now) }
    requires limits { (length (matchers_on page.now start count) ≤ count_limit) × (length page.now ≤ page_limit) }
    requires room { at + length (display_matchers (matchers_on page.now start count)) ≤ length out.old }
    ensures { Wrote out.old out.new at (display_matchers (matchers_on page.now start count)) result }
{
    let mut all = [NOTHING; page::COUNT_LIMIT as usize];
    let n = collect(page, start, count, &mut all);
    let order = &mut all[..n];
    arrange(page, order);
    put_in_order(page, order, out, at)
}

fn matcher_len(page: &[u8], matcher: Matcher, cap: usize) -> usize
    requires { MatcherLies page.now matcher }
    ensures { result ≡ min (length (display_matcher (matcher_on page.now matcher))) cap }
{
    let name = label_len(text_at(page, matcher.name), cap);
    let value = quoted_len(text_at(page, matcher.value), cap);
    let token = operator_count(matcher.op);
    capped_add(capped_add(name, token, cap), value, cap)
}

// A comma and a matcher, for each. The length needs no order.
fn more_matchers_len(page: &[u8], start: usize, count: usize, cap: usize) -> usize
    requires { AllRead read_matcher count (drop start page.now) }
    ensures { result ≡ min (length (more_by_commas (map display_matcher (matchers_on page.now start count)))) cap }
{
    let mut total: usize = 0;
    let mut at = start;
    for _ in 0..count {
        if cap <= total {
            return cap;
        }
        let (matcher, next) = stored_matcher(page, at);
        let one = matcher_len(page, matcher, cap);
        total = capped_add(total, capped_add(1, one, cap), cap);
        at = next;
    }
    total
}

pub fn matchers_len(page: &[u8], start: usize, count: usize, cap: usize) -> usize
    requires { AllRead read_matcher count (drop start page.now) }
    ensures { result ≡ min (length (display_matchers (matchers_on page.now start count))) cap }
{
    if count == 0 {
        return 0;
    }
    let (matcher, next) = stored_matcher(page, start);
    let first = matcher_len(page, matcher, cap);
    capped_add(first, more_matchers_len(page, next, count - 1, cap), cap)
}
