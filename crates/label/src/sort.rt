// Printed matchers put in the order of their texts by the definition's own insertion sort: from the last one on, each is
// put among those after it.
ghost use Rattle.std.specs.Prelude.{◌≡◌, ◌++◌, ◌+◌, ◌<◌, length, take, drop};
ghost use Rattle.label.specs.Symbols.{placed};
ghost use Rattle.label.specs.Printed.{printed_text, Prints, AllPrint, Sorts};

use crate::printed::{Printed, printed_at_most};

// `item` is put among those after `at`, which are in order: those that come before it move down by one.
fn place(page: &[u8], item: Printed, order: &mut [Printed], at: usize)
    requires { Prints page.now item × (at < length order.old) × AllPrint page.now (drop (at + 1) order.old) }
    ensures { order.new ≡ take at order.old ++ placed (printed_text page.now) item (drop (at + 1) order.old) }
{
    let mut j = at;
    // The place is needed behind the loop, so it is no `for`.
    while j + 1 < order.len() {
        let next = order[j + 1];
        if printed_at_most(page, item, next) {
            order[j] = item;
            return;
        }
        order[j] = next;
        j = j + 1;
    }
    order[j] = item;
}

pub fn arrange(page: &[u8], order: &mut [Printed])
    requires { AllPrint page.now order.old }
    ensures { Sorts page.now order.old order.new }
{
    for i in (0..order.len()).rev() {
        place(page, order[i], order, i);
    }
}
