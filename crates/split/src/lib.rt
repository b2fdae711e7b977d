// Split text (parser/mod.rs, `Prettier`): a node longer than a line is written on several lines, its operands a level
// deeper. `indents` says whether the first line is indented: it is not, after the minus of a unary expression.
#![tactic(auto)]

pub mod length;
pub mod place;
pub mod whole;
pub mod write;

ghost use Rattle.std.specs.Prelude.{List, ◌≡◌, ℕ, suc, ◌≤◌};
ghost use Rattle.text.specs.Layout.{inner_indents, inner_level};
ghost use Rattle.view.specs.View.{NodeAt, layout_at};

use view::{Node, Shape};
pub use whole::{prettify_len, put_prettify};

// Whether the first line of the first operand is indented.
fn inner_indents(node: Node, indents: bool) -> bool
    ensures { (page starts : List ℕ) → NodeAt page starts node → result ≡ inner_indents indents (layout_at page node) }
{
    match view::shape_of(node) {
        Shape::Whole => true,
        Shape::Minus => false,
        Shape::Suffixed => indents,
        Shape::Enclosed => true,
        Shape::Infixed => indents,
    }
}

// The level of the operands.
fn inner_level(node: Node, level: usize) -> usize
    requires { level ≤ 256 }
    ensures is { (page starts : List ℕ) → NodeAt page starts node → result ≡ inner_level level (layout_at page node) }
    ensures most { result ≤ suc level }
{
    match view::shape_of(node) {
        Shape::Whole => level,
        Shape::Minus => level,
        Shape::Suffixed => level,
        Shape::Enclosed => level + 1,
        Shape::Infixed => level + 1,
    }
}
