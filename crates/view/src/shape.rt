// The shapes of nodes' texts, and which of them is a minus.
ghost use Rattle.std.specs.Prelude.{◌≡◌};
ghost use Rattle.view.specs.View.{is_minus, shape_of};

use crate::{Foot, Node};

// The way in which a node's text is put together: a text of its own, a minus before the operand, a suffix after it,
// operands in brackets after a head, an operator between two.
#[derive(Clone, Copy)]
pub enum Shape {
    Whole,
    Minus,
    Suffixed,
    Enclosed,
    Infixed,
}

pub fn shape_of(node: Node) -> Shape
    ensures { result ≡ shape_of node.foot }
{
    let foot = node.foot;
    match foot {
        Foot::Number => Shape::Whole,
        Foot::String => Shape::Whole,
        Foot::Selector => Shape::Whole,
        Foot::Subquery => Shape::Suffixed,
        Foot::Unary => Shape::Minus,
        Foot::Paren => Shape::Enclosed,
        Foot::Binary => Shape::Infixed,
        Foot::Aggregate => Shape::Enclosed,
        Foot::Call => Shape::Enclosed,
    }
}

// Whether the node is a minus before its operand.
pub fn is_minus(node: Node) -> bool
    ensures { result ≡ is_minus node.foot }
{
    let foot = node.foot;
    match foot {
        Foot::Number => false,
        Foot::String => false,
        Foot::Selector => false,
        Foot::Subquery => false,
        Foot::Unary => true,
        Foot::Paren => false,
        Foot::Binary => false,
        Foot::Aggregate => false,
        Foot::Call => false,
    }
}
