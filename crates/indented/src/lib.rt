// What a node longer than a line writes of its own, by its shape: before its operands' texts, between each two and
// after them, with line feeds and two spaces a level. Lengths are capped.
#![tactic(auto)]

ghost use Rattle.std.specs.Prelude.{◌≡◌, ◌++◌, ◌+◌, ◌≤◌, min, length};
ghost use Rattle.base.specs.Splice.{Wrote};
ghost use Rattle.text.specs.Pretty.{indent};
ghost use Rattle.text.specs.Layout.{head, indent_if, front_at, between_at, rear_at};
ghost use Rattle.view.specs.View.{NodeAt, layout_at};

use pieces::{head_len, operator_len, put_head, put_operator, put_suffix, suffix_len};
use view::{Node, Shape};

pub fn indent_len(indents: bool, level: usize, cap: usize) -> usize
    requires { level ≤ 256 }
    ensures { result ≡ min (length (indent_if indents level)) cap }
{
    if indents {
        return leaves::capped_add(0, level * 2, cap);
    }
    0
}

// Two spaces a level.
fn put_spaces(level: usize, out: &mut [u8], at: usize) -> usize
    requires { at + length (indent level) ≤ length out.old }
    ensures { Wrote out.old out.new at (indent level) result }
{
    let mut pos = at;
    for _ in 0..level {
        pos = page::put_bytes(b"  ", out, pos);
    }
    pos
}

pub fn put_indent(indents: bool, level: usize, out: &mut [u8], at: usize) -> usize
    requires { at + length (indent_if indents level) ≤ length out.old }
    ensures { Wrote out.old out.new at (indent_if indents level) result }
{
    if indents {
        return put_spaces(level, out, at);
    }
    at
}

// The indentation and the head.
fn led_len(
    page: &[u8],
    starts: &[u16],
    node: Node,
    indents: bool,
    level: usize,
    cap: usize,
) -> usize
    requires node { NodeAt page.now starts.now node }
    requires level { level ≤ 256 }
    ensures { result ≡ min (length (indent_if indents level ++ head (layout_at page.now node))) cap }
{
    let lead = indent_len(indents, level, cap);
    lead + head_len(page, starts, node, cap - lead)
}

fn put_led(
    page: &[u8],
    starts: &[u16],
    node: Node,
    indents: bool,
    level: usize,
    out: &mut [u8],
    at: usize,
) -> usize
    requires node { NodeAt page.now starts.now node }
    requires room { at + length (indent_if indents level ++ head (layout_at page.now node)) ≤ length out.old }
    ensures { Wrote out.old out.new at (indent_if indents level ++ head (layout_at page.now node)) result }
{
    let next = put_indent(indents, level, out, at);
    put_head(page, starts, node, out, next)
}

pub fn front_at_len(
    page: &[u8],
    starts: &[u16],
    node: Node,
    indents: bool,
    level: usize,
    cap: usize,
) -> usize
    requires node { NodeAt page.now starts.now node }
    requires level { level ≤ 256 }
    ensures { result ≡ min (length (front_at indents level (layout_at page.now node))) cap }
{
    match view::shape_of(node) {
        Shape::Whole => led_len(page, starts, node, indents, level, cap),
        Shape::Minus => led_len(page, starts, node, indents, level, cap),
        Shape::Suffixed => 0,
        Shape::Enclosed => leaves::capped_add(
            led_len(page, starts, node, indents, level, cap),
            2,
            cap,
        ),
        Shape::Infixed => 0,
    }
}

pub fn between_at_len(page: &[u8], starts: &[u16], node: Node, level: usize, cap: usize) -> usize
    requires node { NodeAt page.now starts.now node }
    requires level { level ≤ 256 }
    ensures { result ≡ min (length (between_at level (layout_at page.now node))) cap }
{
    match view::shape_of(node) {
        Shape::Whole => 0,
        Shape::Minus => 0,
        Shape::Suffixed => 0,
        Shape::Enclosed => leaves::capped_add(0, 2, cap),
        Shape::Infixed => {
            let lead = indent_len(true, level, cap);
            leaves::capped_add(lead + operator_len(page, starts, node, cap - lead), 2, cap)
        }
    }
}

pub fn rear_at_len(page: &[u8], starts: &[u16], node: Node, level: usize, cap: usize) -> usize
    requires node { NodeAt page.now starts.now node }
    requires level { level ≤ 256 }
    ensures { result ≡ min (length (rear_at level (layout_at page.now node))) cap }
{
    match view::shape_of(node) {
        Shape::Whole => 0,
        Shape::Minus => 0,
        Shape::Suffixed => suffix_len(page, starts, node, cap),
        Shape::Enclosed => leaves::capped_add(indent_len(true, level, cap), 2, cap),
        Shape::Infixed => 0,
    }
}

pub fn put_front_at(
    page: &[u8],
    starts: &[u16],
    node: Node,
    indents: bool,
    level: usize,
    out: &mut [u8],
    at: usize,
) -> usize
    requires node { NodeAt page.now starts.now node }
    requires room { at + length (front_at indents level (layout_at page.now node)) ≤ length out.old }
    ensures { Wrote out.old out.new at (front_at indents level (layout_at page.now node)) result }
{
    match view::shape_of(node) {
        Shape::Whole => put_led(page, starts, node, indents, level, out, at),
        Shape::Minus => put_led(page, starts, node, indents, level, out, at),
        Shape::Suffixed => at,
        Shape::Enclosed => {
            let next = put_led(page, starts, node, indents, level, out, at);
            page::put_bytes(b"(\n", out, next)
        }
        Shape::Infixed => at,
    }
}

pub fn put_between_at(
    page: &[u8],
    starts: &[u16],
    node: Node,
    level: usize,
    out: &mut [u8],
    at: usize,
) -> usize
    requires node { NodeAt page.now starts.now node }
    requires room { at + length (between_at level (layout_at page.now node)) ≤ length out.old }
    ensures { Wrote out.old out.new at (between_at level (layout_at page.now node)) result }
{
    match view::shape_of(node) {
        Shape::Whole => at,
        Shape::Minus => at,
        Shape::Suffixed => at,
        Shape::Enclosed => page::put_bytes(b",\n", out, at),
        Shape::Infixed => {
            let lead = page::put_byte(b'\n', out, at);
            let token = put_spaces(level, out, lead);
            let behind = put_operator(page, starts, node, out, token);
            page::put_byte(b'\n', out, behind)
        }
    }
}

pub fn put_rear_at(
    page: &[u8],
    starts: &[u16],
    node: Node,
    level: usize,
    out: &mut [u8],
    at: usize,
) -> usize
    requires node { NodeAt page.now starts.now node }
    requires room { at + length (rear_at level (layout_at page.now node)) ≤ length out.old }
    ensures { Wrote out.old out.new at (rear_at level (layout_at page.now node)) result }
{
    match view::shape_of(node) {
        Shape::Whole => at,
        Shape::Minus => at,
        Shape::Suffixed => put_suffix(page, starts, node, out, at),
        Shape::Enclosed => {
            let lead = page::put_byte(b'\n', out, at);
            let last = put_spaces(level, out, lead);
            page::put_byte(b')', out, last)
        }
        Shape::Infixed => at,
    }
}
