// What a node has of its own, as text: a leaf's text or what stands before a bracket, an operator, a suffix.
// Each has a length up to a cap and a writer.
#![tactic(auto)]

pub mod times;

ghost use Rattle.std.specs.Prelude.{◌≡◌, ◌++◌, ◌+◌, ◌≤◌, min, length};
ghost use Rattle.base.specs.Splice.{Wrote};
ghost use Rattle.page.specs.Answers.{itself, option_of};
ghost use Rattle.reader.specs.Answers.{selector_on};
ghost use Rattle.text.specs.Display.{display_selector, display_times};
ghost use Rattle.text.specs.Layout.{display_range, head, operator, suffix};
ghost use Rattle.text.specs.Answers.{times_of};
ghost use Rattle.view.specs.View.{NodeAt, layout_at};
ghost use Rattle.fields.specs.Fields.{SelectorLies};

use fields::{
    Attached, aggregator_of, attached_of, function_of, literal_of, operator_of, selector_of,
    spacing_of, string_of,
};
use times::{put_range, put_subquery, put_times, range_len, subquery_len, times_len};
use view::{Foot, Node};

// A selector with its range, @ and offset.
fn selector_len(page: &[u8], selector: reader::Selector, attached: Attached, cap: usize) -> usize
    requires { SelectorLies page.now selector }
    ensures { result ≡ min (length (display_selector (selector_on page.now selector) ++ (display_range (option_of itself attached.range) ++ display_times (times_of attached.times)))) cap }
{
    let range = attached.range;
    let times = attached.times;
    let behind = range_len(range) + times_len(times);
    leaves::capped_add(heads::selector_len(page, selector, cap), behind, cap)
}

fn put_selector(
    page: &[u8],
    selector: reader::Selector,
    attached: Attached,
    out: &mut [u8],
    at: usize,
) -> usize
    requires lies { SelectorLies page.now selector }
    requires room { at + length (display_selector (selector_on page.now selector) ++ (display_range (option_of itself attached.range) ++ display_times (times_of attached.times))) ≤ length out.old }
    ensures { Wrote out.old out.new at (display_selector (selector_on page.now selector) ++ (display_range (option_of itself attached.range) ++ display_times (times_of attached.times))) result }
{
    let range = attached.range;
    let times = attached.times;
    let bracket = heads::put_selector(page, selector, out, at);
    let next = put_range(range, out, bracket);
    put_times(times, out, next)
}

// A leaf's whole text, a minus, or what stands before the bracket.
pub fn head_len(page: &[u8], starts: &[u16], node: Node, cap: usize) -> usize
    requires { NodeAt page.now starts.now node }
    ensures { result ≡ min (length (head (layout_at page.now node))) cap }
{
    let foot = node.foot;
    match foot {
        Foot::Number => leaves::capped_add(
            leaves::numeral_len(literal_of(page, starts, node)),
            0,
            cap,
        ),
        Foot::String => {
            let text = page::text_at(page, string_of(page, starts, node));
            leaves::quoted_len(text, cap)
        }
        Foot::Selector => {
            let selector = selector_of(page, starts, node);
            selector_len(page, selector, attached_of(page, starts, node), cap)
        }
        Foot::Subquery => 0,
        Foot::Unary => leaves::capped_add(1, 0, cap),
        Foot::Paren => 0,
        Foot::Binary => 0,
        Foot::Aggregate => {
            let own = aggregator_of(page, starts, node);
            let grouping = own.grouping;
            heads::aggregator_len(page, own.code, grouping, cap)
        }
        Foot::Call => {
            let name = page::text_at(page, function_of(page, starts, node));
            leaves::capped_add(name.len(), 0, cap)
        }
    }
}

pub fn put_head(page: &[u8], starts: &[u16], node: Node, out: &mut [u8], at: usize) -> usize
    requires node { NodeAt page.now starts.now node }
    requires room { at + length (head (layout_at page.now node)) ≤ length out.old }
    ensures { Wrote out.old out.new at (head (layout_at page.now node)) result }
{
    let foot = node.foot;
    match foot {
        Foot::Number => leaves::put_literal(literal_of(page, starts, node), out, at),
        Foot::String => {
            let text = page::text_at(page, string_of(page, starts, node));
            leaves::put_quoted(text, out, at)
        }
        Foot::Selector => {
            let selector = selector_of(page, starts, node);
            put_selector(page, selector, attached_of(page, starts, node), out, at)
        }
        Foot::Subquery => at,
        Foot::Unary => page::put_byte(b'-', out, at),
        Foot::Paren => at,
        Foot::Binary => at,
        Foot::Aggregate => {
            let own = aggregator_of(page, starts, node);
            let grouping = own.grouping;
            heads::put_aggregator(page, own.code, grouping, out, at)
        }
        Foot::Call => {
            let name = page::text_at(page, function_of(page, starts, node));
            page::put_bytes(name, out, at)
        }
    }
}

// A binary operator with its modifier.
pub fn operator_len(page: &[u8], starts: &[u16], node: Node, cap: usize) -> usize
    requires { NodeAt page.now starts.now node }
    ensures { result ≡ min (length (operator (layout_at page.now node))) cap }
{
    let foot = node.foot;
    let Foot::Binary = foot else {
        return 0;
    };
    let own = operator_of(page, starts, node);
    let modifier = own.modifier;
    heads::operator_len(page, own.code, modifier, cap)
}

pub fn put_operator(page: &[u8], starts: &[u16], node: Node, out: &mut [u8], at: usize) -> usize
    requires node { NodeAt page.now starts.now node }
    requires room { at + length (operator (layout_at page.now node)) ≤ length out.old }
    ensures { Wrote out.old out.new at (operator (layout_at page.now node)) result }
{
    let foot = node.foot;
    let Foot::Binary = foot else {
        return at;
    };
    let own = operator_of(page, starts, node);
    let modifier = own.modifier;
    heads::put_operator(page, own.code, modifier, out, at)
}

// What stands after a subquery's operand.
pub fn suffix_len(page: &[u8], starts: &[u16], node: Node, cap: usize) -> usize
    requires { NodeAt page.now starts.now node }
    ensures { result ≡ min (length (suffix (layout_at page.now node))) cap }
{
    let foot = node.foot;
    let Foot::Subquery = foot else {
        return 0;
    };
    let own = spacing_of(page, starts, node);
    let step = own.step;
    let attached = attached_of(page, starts, node);
    let times = attached.times;
    leaves::capped_add(subquery_len(own.range, step, times), 0, cap)
}

pub fn put_suffix(page: &[u8], starts: &[u16], node: Node, out: &mut [u8], at: usize) -> usize
    requires node { NodeAt page.now starts.now node }
    requires room { at + length (suffix (layout_at page.now node)) ≤ length out.old }
    ensures { Wrote out.old out.new at (suffix (layout_at page.now node)) result }
{
    let foot = node.foot;
    let Foot::Subquery = foot else {
        return at;
    };
    let own = spacing_of(page, starts, node);
    let step = own.step;
    let attached = attached_of(page, starts, node);
    let times = attached.times;
    put_subquery(own.range, step, times, out, at)
}
