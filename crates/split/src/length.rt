// The length of split text, up to a cap.
ghost use Rattle.std.specs.Prelude.{◌≡◌, true, suc, ◌+◌, ◌-◌, ◌≤◌, min, length};
ghost use Rattle.records.specs.Stack.{operands_of};
ghost use Rattle.ast.specs.Tables.{Tables, stack_at, tree_at};
ghost use Rattle.text.specs.Layout.{pretty_indented, joined};
ghost use Rattle.text.specs.Measured.{Measured};
ghost use Rattle.measure.specs.Widths.{Widths};
ghost use Rattle.view.specs.View.{Numberless};

use crate::place::{Place, inner_place, with_indents, with_numberless};
use indented::{between_at_len, front_at_len, indent_len, rear_at_len};
use measure::width;

// The length of the split text of the tree that record i ends, or `cap` where it is more.
#[cycle(split_len_split_operands_len)]
pub fn split_len(
    page: &[u8],
    starts: &[u16],
    firsts: &[u8],
    widths: &[u8],
    i: usize,
    place: Place,
    cap: usize,
) -> usize
    requires tables { Tables page.now starts.now firsts.now (suc i) }
    requires known { Widths page.now widths.now }
    requires numberless { Numberless page.now i place.numberless }
    requires level { place.level + i ≤ 256 }
    ensures { result ≡ min (length (pretty_indented place.indents place.level (tree_at page.now i))) cap }
{
    if cap == 0 {
        return 0;
    }
    let level = place.level;
    let line = width(page, starts, firsts, widths, i, place.numberless);
    if line <= page::LINE_LIMIT {
        let lead = indent_len(place.indents, level, cap);
        return leaves::capped_add(lead, line, cap);
    }
    let node = view::view_at(page, starts, i, place.numberless);
    let end = node.base;
    let count = node.count;
    let front = front_at_len(page, starts, node, place.indents, level, cap);
    let left = cap - front;
    let gap = between_at_len(page, starts, node, level, left);
    let minus = view::is_minus(node);
    let operand = inner_place(node, with_numberless(place, minus));
    let inner = split_operands_len(page, starts, firsts, widths, end, count, operand, gap, left);
    let rear = rear_at_len(page, starts, node, level, left - inner);
    front + inner + rear
}

// The length of the split texts of the newest expressions after the first `end` records, `count` of them, with so many
// bytes between each two, or `cap` where it is more. `numberless` is said of the last one, `indents` of the first.
#[cycle(split_len_split_operands_len)]
fn split_operands_len(
    page: &[u8],
    starts: &[u16],
    firsts: &[u8],
    widths: &[u8],
    end: usize,
    count: usize,
    place: Place,
    gap: usize,
    cap: usize,
) -> usize
    requires tables { Tables page.now starts.now firsts.now end }
    requires known { Widths page.now widths.now }
    requires operands { count ≤ length (stack_at page.now end) }
    requires numberless { Numberless page.now (end - 1) place.numberless }
    requires level { place.level + end ≤ 257 }
    ensures { Measured (λ separator. joined separator (pretty_indented place.indents place.level) (pretty_indented true place.level) (operands_of count (stack_at page.now end))) gap cap result }
{
    if count == 0 {
        return 0;
    }
    let root = end - 1;
    if count == 1 {
        return split_len(page, starts, firsts, widths, root, place, cap);
    }
    let others = with_indents(place, true);
    let last = split_len(page, starts, firsts, widths, root, others, cap);
    let left = cap - last;
    if left <= gap {
        return cap;
    }
    // the others end where the last one begins
    let end = firsts[root] as usize;
    let fewer = count - 1;
    let room = left - gap;
    let before = with_numberless(place, false);
    let rest = split_operands_len(page, starts, firsts, widths, end, fewer, before, gap, room);
    last + gap + rest
}
