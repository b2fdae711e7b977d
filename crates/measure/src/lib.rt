// How wide the nodes of a page are: the lengths of their texts up to one byte more than a line, measured once for every
// node, each from its operands' lengths, and kept in a table.
#![tactic(auto)]

ghost use Rattle.std.specs.Prelude.{◌≡◌, suc, ◌-◌, ◌≤◌, min, length};
ghost use Rattle.records.specs.Stack.{operands_of};
ghost use Rattle.ast.specs.Tables.{Tables, stack_at, tree_at};
ghost use Rattle.text.specs.Display.{display};
ghost use Rattle.text.specs.Layout.{joined};
ghost use Rattle.text.specs.Measured.{Measured};
ghost use Rattle.view.specs.View.{Numberless};
ghost use Rattle.measure.specs.Widths.{Widths};

use canonical::own::{between_len, front_len, rear_len};
use canonical::text_len;

// The width of the tree that record i ends: from the table, or measured where the table does not have it.
pub fn width(
    page: &[u8],
    starts: &[u16],
    firsts: &[u8],
    widths: &[u8],
    i: usize,
    numberless: bool,
) -> usize
    requires tables { Tables page.now starts.now firsts.now (suc i) }
    requires known { Widths page.now widths.now }
    requires numberless { Numberless page.now i numberless }
    ensures { result ≡ min (length (display (tree_at page.now i))) 101 }
{
    let known = widths[i] as usize;
    if known != 0 {
        return known;
    }
    text_len(page, starts, firsts, i, numberless, page::WIDTH_LIMIT)
}

// Measures the tree that record i ends and all trees below it, puts their widths into the table, and returns its own.
#[cycle(measure_measure_operands)]
fn measure(
    page: &[u8],
    starts: &[u16],
    firsts: &[u8],
    i: usize,
    numberless: bool,
    widths: &mut [u8],
) -> usize
    requires tables { Tables page.now starts.now firsts.now (suc i) }
    requires numberless { Numberless page.now i numberless }
    requires known { Widths page.now widths.old }
    ensures value { result ≡ min (length (display (tree_at page.now i))) 101 }
    ensures known { Widths page.now widths.new }
{
    let node = view::view_at(page, starts, i, numberless);
    let end = node.base;
    let count = node.count;
    let front = front_len(page, starts, node, page::WIDTH_LIMIT);
    let left = page::WIDTH_LIMIT - front;
    let gap = between_len(page, starts, node, left);
    let minus = view::is_minus(node);
    let inner = measure_operands(page, starts, firsts, end, count, minus, gap, left, widths);
    let rear = rear_len(page, starts, node, left - inner);
    let width = front + inner + rear;
    widths[i] = width as u8;
    width
}

// Measures the newest expressions after the first `end` records, `count` of them, and returns the length of their texts
// with so many bytes between each two, or `cap` where it is more. `numberless` is said of the last one.
#[cycle(measure_measure_operands)]
fn measure_operands(
    page: &[u8],
    starts: &[u16],
    firsts: &[u8],
    end: usize,
    count: usize,
    numberless: bool,
    gap: usize,
    cap: usize,
    widths: &mut [u8],
) -> usize
    requires tables { Tables page.now starts.now firsts.now end }
    requires operands { count ≤ length (stack_at page.now end) }
    requires numberless { Numberless page.now (end - 1) numberless }
    requires cap { cap ≤ 101 }
    requires known { Widths page.now widths.old }
    ensures value { Measured (λ separator. joined separator display display (operands_of count (stack_at page.now end))) gap cap result }
    ensures known { Widths page.now widths.new }
{
    if count == 0 {
        return 0;
    }
    let root = end - 1;
    let width = measure(page, starts, firsts, root, numberless, widths);
    let last = leaves::capped_add(width, 0, cap);
    if count == 1 {
        return last;
    }
    let first = firsts[root] as usize;
    let left = cap - last;
    let room = left.saturating_sub(gap);
    let fewer = count - 1;
    let rest = measure_operands(page, starts, firsts, first, fewer, false, gap, room, widths);
    if left <= gap {
        return cap;
    }
    last + gap + rest
}

// The widths of the tree that record i ends and of all trees below it.
pub fn widths_of(page: &[u8], starts: &[u16], firsts: &[u8], i: usize) -> [u8; page::RECORD_LIMIT]
    requires { Tables page.now starts.now firsts.now (suc i) }
    ensures { Widths page.now result }
{
    let mut widths = [0u8; page::RECORD_LIMIT];
    measure(page, starts, firsts, i, false, &mut widths);
    widths
}
