// Canonical text (ast.rs, `Display`): each node's text is put together from its operands' texts, by functions over
// record positions that fall. What a node writes of its own is written by functions that do not recurse.
#![tactic(auto)]

pub mod fits;
pub mod own;

ghost use Rattle.std.specs.Prelude.{◌≡◌, suc, ◌+◌, ◌-◌, ◌≤◌, min, length};
ghost use Rattle.base.specs.Splice.{Wrote};
ghost use Rattle.records.specs.Stack.{operands_of};
ghost use Rattle.ast.specs.Tables.{Tables, stack_at, tree_at};
ghost use Rattle.text.specs.Display.{display};
ghost use Rattle.text.specs.Layout.{front, between, rear, joined};
ghost use Rattle.text.specs.Measured.{Measured};
ghost use Rattle.view.specs.View.{NodeAt, layout_at, Numberless};

pub use fits::text_fits;
use own::{between_len, front_len, put_between, put_front, put_rear, rear_len};

// The length of the text of the tree that record i ends, or `cap` where it is more.
#[cycle(operands_len_text_len)]
pub fn text_len(
    page: &[u8],
    starts: &[u16],
    firsts: &[u8],
    i: usize,
    numberless: bool,
    cap: usize,
) -> usize
    requires tables { Tables page.now starts.now firsts.now (suc i) }
    requires numberless { Numberless page.now i numberless }
    ensures { result ≡ min (length (display (tree_at page.now i))) cap }
{
    if cap == 0 {
        return 0;
    }
    let node = view::view_at(page, starts, i, numberless);
    let end = node.base;
    let count = node.count;
    let front = front_len(page, starts, node, cap);
    let gap = between_len(page, starts, node, cap - front);
    let inner = operands_len(
        page,
        starts,
        firsts,
        end,
        count,
        view::is_minus(node),
        gap,
        cap - front,
    );
    let rear = rear_len(page, starts, node, cap - front - inner);
    front + inner + rear
}

// The length of the texts of the newest expressions after the first `end` records, `count` of them, with so many bytes
// between each two, or `cap` where it is more. `numberless` is said of the last one.
#[cycle(operands_len_text_len)]
fn operands_len(
    page: &[u8],
    starts: &[u16],
    firsts: &[u8],
    end: usize,
    count: usize,
    numberless: bool,
    gap: usize,
    cap: usize,
) -> usize
    requires tables { Tables page.now starts.now firsts.now end }
    requires operands { count ≤ length (stack_at page.now end) }
    requires numberless { Numberless page.now (end - 1) numberless }
    ensures { Measured (λ separator. joined separator display display (operands_of count (stack_at page.now end))) gap cap result }
{
    if count == 0 {
        return 0;
    }
    let root = end - 1;
    let last = text_len(page, starts, firsts, root, numberless, cap);
    if count == 1 {
        return last;
    }
    let left = cap - last;
    if left <= gap {
        return cap;
    }
    let first = firsts[root] as usize;
    let rest = operands_len(
        page,
        starts,
        firsts,
        first,
        count - 1,
        false,
        gap,
        left - gap,
    );
    last + gap + rest
}

// Writes the text of the tree that record i ends, and returns the place after it.
#[cycle(write_operands_write_text)]
pub fn write_text(
    page: &[u8],
    starts: &[u16],
    firsts: &[u8],
    i: usize,
    numberless: bool,
    out: &mut [u8],
    at: usize,
) -> usize
    requires tables { Tables page.now starts.now firsts.now (suc i) }
    requires numberless { Numberless page.now i numberless }
    requires room { at + length (display (tree_at page.now i)) ≤ length out.old }
    ensures { Wrote out.old out.new at (display (tree_at page.now i)) result }
{
    let node = view::view_at(page, starts, i, numberless);
    let end = node.base;
    let count = node.count;
    let minus = view::is_minus(node);
    let inner = put_front(page, starts, node, out, at);
    let others = write_operands(page, starts, firsts, node, end, count, minus, out, inner);
    put_rear(page, starts, node, out, others)
}

// Writes the texts of the newest expressions after the first `end` records, `count` of them, with what the node writes
// between each two. `numberless` is said of the last one.
#[cycle(write_operands_write_text)]
fn write_operands(
    page: &[u8],
    starts: &[u16],
    firsts: &[u8],
    node: view::Node,
    end: usize,
    count: usize,
    numberless: bool,
    out: &mut [u8],
    at: usize,
) -> usize
    requires tables { Tables page.now starts.now firsts.now end }
    requires node { NodeAt page.now starts.now node }
    requires operands { count ≤ length (stack_at page.now end) }
    requires numberless { Numberless page.now (end - 1) numberless }
    requires room { at + length (joined (between (layout_at page.now node)) display display (operands_of count (stack_at page.now end))) ≤ length out.old }
    ensures { Wrote out.old out.new at (joined (between (layout_at page.now node)) display display (operands_of count (stack_at page.now end))) result }
{
    if count == 0 {
        return at;
    }
    let root = end - 1;
    if count == 1 {
        return write_text(page, starts, firsts, root, numberless, out, at);
    }
    let first = firsts[root] as usize;
    let gap = write_operands(page, starts, firsts, node, first, count - 1, false, out, at);
    let next = put_between(page, starts, node, out, gap);
    write_text(page, starts, firsts, root, numberless, out, next)
}
