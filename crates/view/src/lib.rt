// The node that a record ends: where its records stand. A selector or a subquery with its range, @ and offset is one
// node of up to four records, a negated number one of several. What a node writes of its own is read where it stands,
// when it is written.
#![tactic(auto)]

pub mod literal;
pub mod shape;

ghost use Rattle.std.specs.Prelude.{◌≡◌, suc, ◌+◌, ◌<◌, length, get_or};
ghost use Rattle.view.specs.View.{Starts, KindAt, TakesAt, is_attached, FootOf, Viewed, Numberless};

pub use literal::signed_literal;
use reader::{operand_count, read_record};
pub use shape::{Shape, is_minus, shape_of};

// What stands at the foot of a node.
#[derive(Clone, Copy)]
pub enum Foot {
    Number,
    String,
    Selector,
    Subquery,
    Unary,
    Paren,
    Binary,
    Aggregate,
    Call,
}

// A node: record `base` is its foot, and above it up to record `top` stand its range, @ and offset. Its operands are
// the newest expressions after the first `base` records, `count` of them.
#[derive(Clone, Copy)]
pub struct Node {
    pub foot: Foot,
    pub top: usize,
    pub base: usize,
    pub count: usize,
}

// The kind of record i: its first byte.
pub fn kind_at(page: &[u8], starts: &[u16], i: usize) -> u8
    requires { Starts page.now starts.now (suc i) }
    ensures { KindAt page.now starts.now i result }
{
    let start = starts[i] as usize;
    page[start]
}

// Where the fields of record i start: after its kind.
pub fn fields_start(starts: &[u16], i: usize) -> usize
    requires { i < length starts.now }
    ensures { result ≡ get_or starts.now i 0 + 1 }
{
    let start = starts[i] as usize;
    start + 1
}

// How many operands record i takes.
fn operands_at(page: &[u8], starts: &[u16], i: usize) -> usize
    requires { Starts page.now starts.now (suc i) }
    ensures { TakesAt page.now starts.now i result }
{
    let start = starts[i] as usize;
    match read_record(page, start) {
        Ok((item, _)) => operand_count(item),
        Err(_) => 0,
    }
}

// Whether a record of this kind is a range, an @ or an offset: attached to the node of the record below.
fn is_attached(kind: u8) -> bool
    ensures { result ≡ is_attached kind }
{
    matches!(kind, 3 | 5 | 6)
}

// The foot of record i's node: the first record down from it that is no range, @ or offset.
fn foot_of(page: &[u8], starts: &[u16], i: usize) -> usize
    requires { Starts page.now starts.now (suc i) }
    ensures { FootOf page.now starts.now i result }
{
    let mut j = i;
    // How far down the foot lies is not known before, so it is no `for`.
    while is_attached(kind_at(page, starts, j)) {
        j = j - 1;
    }
    j
}

fn node_of(foot: Foot, top: usize, base: usize, count: usize) -> Node
    ensures { result ≡ record { foot = foot; top = top; base = base; count = count } }
{
    Node {
        foot,
        top,
        base,
        count,
    }
}

// A unary record: a minus, unless it is the sign of a bare number. Under another minus there is none.
fn unary_view(page: &[u8], starts: &[u16], i: usize, j: usize, numberless: bool) -> Node
    requires starts { Starts page.now starts.now (suc i) }
    requires foot { FootOf page.now starts.now i j }
    requires kind { KindAt page.now starts.now j 7 }
    requires numberless { Numberless page.now i numberless }
    ensures { Viewed page.now starts.now i result }
{
    if numberless {
        return node_of(Foot::Unary, i, j, 1);
    }
    match signed_literal(page, starts, j) {
        Some(_) => node_of(Foot::Number, i, j, 0),
        None => node_of(Foot::Unary, i, j, 1),
    }
}

// The node that record i ends. `numberless` says that it is known to be no bare number.
pub fn view_at(page: &[u8], starts: &[u16], i: usize, numberless: bool) -> Node
    requires starts { Starts page.now starts.now (suc i) }
    requires numberless { Numberless page.now i numberless }
    ensures { Viewed page.now starts.now i result }
{
    let j = foot_of(page, starts, i);
    match kind_at(page, starts, j) {
        0 => node_of(Foot::Number, i, j, 0),
        1 => node_of(Foot::String, i, j, 0),
        2 => node_of(Foot::Selector, i, j, 0),
        4 => node_of(Foot::Subquery, i, j, 1),
        7 => unary_view(page, starts, i, j, numberless),
        8 => node_of(Foot::Paren, i, j, 1),
        9 => node_of(Foot::Binary, i, j, 2),
        10 => node_of(Foot::Aggregate, i, j, operands_at(page, starts, j)),
        _ => node_of(Foot::Call, i, j, operands_at(page, starts, j)),
    }
}
