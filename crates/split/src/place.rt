// Places in split text.
ghost use Rattle.std.specs.Prelude.{List, ◌≡◌, ℕ, suc, ◌≤◌};
ghost use Rattle.view.specs.View.{NodeAt};
ghost use Rattle.split.specs.Place.{with_numberless, with_indents, inner_place};

use crate::{inner_indents, inner_level};

// How a tree stands in split text: whether it is known to be no bare number, whether its first line is indented, and
// its level.
#[derive(Clone, Copy)]
pub struct Place {
    pub numberless: bool,
    pub indents: bool,
    pub level: usize,
}

pub fn with_numberless(place: Place, numberless: bool) -> Place
    ensures { result ≡ with_numberless numberless place }
{
    Place {
        numberless,
        ..place
    }
}

pub fn with_indents(place: Place, indents: bool) -> Place
    ensures { result ≡ with_indents indents place }
{
    Place { indents, ..place }
}

// The place of the first operand, by the node's `indents` and level; `numberless` is said of the operand already.
pub fn inner_place(node: view::Node, place: Place) -> Place
    requires { place.level ≤ 256 }
    ensures is { (page starts : List ℕ) → NodeAt page starts node → result ≡ inner_place page node place }
    ensures most { result.level ≤ suc place.level }
{
    let indents = inner_indents(node, place.indents);
    let level = inner_level(node, place.level);
    Place {
        indents,
        level,
        ..place
    }
}
