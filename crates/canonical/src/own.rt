// What a node writes of its own, by its shape: before its operands' texts, between each two and after them. Lengths are
// capped.
ghost use Rattle.std.specs.Prelude.{◌≡◌, ◌+◌, ◌≤◌, min, length};
ghost use Rattle.base.specs.Splice.{Wrote};
ghost use Rattle.text.specs.Layout.{front, between, rear};
ghost use Rattle.view.specs.View.{NodeAt, layout_at};

use pieces::{head_len, operator_len, put_head, put_operator, put_suffix, suffix_len};
use view::{Node, Shape};

pub fn front_len(page: &[u8], starts: &[u16], node: Node, cap: usize) -> usize
    requires { NodeAt page.now starts.now node }
    ensures { result ≡ min (length (front (layout_at page.now node))) cap }
{
    match view::shape_of(node) {
        Shape::Whole => head_len(page, starts, node, cap),
        Shape::Minus => head_len(page, starts, node, cap),
        Shape::Suffixed => 0,
        Shape::Enclosed => leaves::capped_add(head_len(page, starts, node, cap), 1, cap),
        Shape::Infixed => 0,
    }
}

pub fn between_len(page: &[u8], starts: &[u16], node: Node, cap: usize) -> usize
    requires { NodeAt page.now starts.now node }
    ensures { result ≡ min (length (between (layout_at page.now node))) cap }
{
    match view::shape_of(node) {
        Shape::Whole => 0,
        Shape::Minus => 0,
        Shape::Suffixed => 0,
        Shape::Enclosed => leaves::capped_add(0, 2, cap),
        Shape::Infixed => leaves::capped_add(operator_len(page, starts, node, cap), 2, cap),
    }
}

pub fn rear_len(page: &[u8], starts: &[u16], node: Node, cap: usize) -> usize
    requires { NodeAt page.now starts.now node }
    ensures { result ≡ min (length (rear (layout_at page.now node))) cap }
{
    match view::shape_of(node) {
        Shape::Whole => 0,
        Shape::Minus => 0,
        Shape::Suffixed => suffix_len(page, starts, node, cap),
        Shape::Enclosed => leaves::capped_add(0, 1, cap),
        Shape::Infixed => 0,
    }
}

pub fn put_front(page: &[u8], starts: &[u16], node: Node, out: &mut [u8], at: usize) -> usize
    requires node { NodeAt page.now starts.now node }
    requires room { at + length (front (layout_at page.now node)) ≤ length out.old }
    ensures { Wrote out.old out.new at (front (layout_at page.now node)) result }
{
    match view::shape_of(node) {
        Shape::Whole => put_head(page, starts, node, out, at),
        Shape::Minus => put_head(page, starts, node, out, at),
        Shape::Suffixed => at,
        Shape::Enclosed => {
            let next = put_head(page, starts, node, out, at);
            page::put_byte(b'(', out, next)
        }
        Shape::Infixed => at,
    }
}

pub fn put_between(page: &[u8], starts: &[u16], node: Node, out: &mut [u8], at: usize) -> usize
    requires node { NodeAt page.now starts.now node }
    requires room { at + length (between (layout_at page.now node)) ≤ length out.old }
    ensures { Wrote out.old out.new at (between (layout_at page.now node)) result }
{
    match view::shape_of(node) {
        Shape::Whole => at,
        Shape::Minus => at,
        Shape::Suffixed => at,
        Shape::Enclosed => page::put_bytes(b", ", out, at),
        Shape::Infixed => {
            let word = page::put_byte(b' ', out, at);
            let others = put_operator(page, starts, node, out, word);
            page::put_byte(b' ', out, others)
        }
    }
}

pub fn put_rear(page: &[u8], starts: &[u16], node: Node, out: &mut [u8], at: usize) -> usize
    requires node { NodeAt page.now starts.now node }
    requires room { at + length (rear (layout_at page.now node)) ≤ length out.old }
    ensures { Wrote out.old out.new at (rear (layout_at page.now node)) result }
{
    match view::shape_of(node) {
        Shape::Whole => at,
        Shape::Minus => at,
        Shape::Suffixed => put_suffix(page, starts, node, out, at),
        Shape::Enclosed => page::put_byte(b')', out, at),
        Shape::Infixed => at,
    }
}
