// Writes split text into a buffer.
ghost use Rattle.std.specs.Prelude.{suc, ◌+◌, ◌-◌, ◌≤◌, length};
ghost use Rattle.base.specs.Splice.{Wrote};
ghost use Rattle.ast.specs.Tables.{Tables, stack_at, tree_at};
ghost use Rattle.text.specs.Layout.{pretty_indented};
ghost use Rattle.measure.specs.Widths.{Widths};
ghost use Rattle.view.specs.View.{NodeAt, Numberless};
ghost use Rattle.split.specs.Operands.{Operands};

use crate::place::{Place, inner_place, with_indents, with_numberless};
use canonical::write_text;
use indented::{put_between_at, put_front_at, put_indent, put_rear_at};
use measure::width;

// Writes the split text of the tree that record i ends, and returns the place after it.
#[cycle(write_split_write_split_operands)]
pub fn write_split(
    page: &[u8],
    starts: &[u16],
    firsts: &[u8],
    widths: &[u8],
    i: usize,
    place: Place,
    out: &mut [u8],
    at: usize,
) -> usize
    requires tables { Tables page.now starts.now firsts.now (suc i) }
    requires known { Widths page.now widths.now }
    requires numberless { Numberless page.now i place.numberless }
    requires level { place.level + i ≤ 256 }
    requires room { at + length (pretty_indented place.indents place.level (tree_at page.now i)) ≤ length out.old }
    ensures { Wrote out.old out.new at (pretty_indented place.indents place.level (tree_at page.now i)) result }
{
    let line = width(page, starts, firsts, widths, i, place.numberless);
    if line <= page::LINE_LIMIT {
        let text = put_indent(place.indents, place.level, out, at);
        return write_text(page, starts, firsts, i, place.numberless, out, text);
    }
    let own = view::view_at(page, starts, i, place.numberless);
    let end = own.base;
    let count = own.count;
    let minus = view::is_minus(own);
    let kept = with_numberless(place, minus);
    let at = put_front_at(page, starts, own, place.indents, place.level, out, at);
    let others = write_split_operands(page, starts, firsts, widths, own, end, count, kept, out, at);
    put_rear_at(page, starts, own, place.level, out, others)
}

// Writes the split texts of the newest expressions after the first `end` records, `count` of them, with what the node
// writes between each two. `indents` and level are the node's; `numberless` is said of the last operand.
#[cycle(write_split_write_split_operands)]
fn write_split_operands(
    page: &[u8],
    starts: &[u16],
    firsts: &[u8],
    widths: &[u8],
    own: view::Node,
    end: usize,
    count: usize,
    place: Place,
    out: &mut [u8],
    at: usize,
) -> usize
    requires tables { Tables page.now starts.now firsts.now end }
    requires known { Widths page.now widths.now }
    requires node { NodeAt page.now starts.now own }
    requires operands { count ≤ length (stack_at page.now end) }
    requires numberless { Numberless page.now (end - 1) place.numberless }
    requires level { place.level + end ≤ 256 }
    requires room { at + length (Operands page.now own place.indents place.level count end) ≤ length out.old }
    ensures { Wrote out.old out.new at (Operands page.now own place.indents place.level count end) result }
{
    if count == 0 {
        return at;
    }
    let root = end - 1;
    let inner = inner_place(own, place);
    if count == 1 {
        return write_split(page, starts, firsts, widths, root, inner, out, at);
    }
    // the others end where the last one begins
    let end = firsts[root] as usize;
    let fewer = count - 1;
    let rest = with_numberless(place, false);
    let gap = write_split_operands(page, starts, firsts, widths, own, end, fewer, rest, out, at);
    let next = put_between_at(page, starts, own, place.level, out, gap);
    let last = with_indents(inner, true);
    write_split(page, starts, firsts, widths, root, last, out, next)
}
