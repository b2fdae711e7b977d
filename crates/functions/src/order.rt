// The order of two texts as bytes.
ghost use Rattle.std.specs.Prelude.{◌≡◌};
ghost use Rattle.functions.specs.Order.{order_of};

use std::cmp::Ordering;

// How the first text stands to the second: the first bytes that differ decide, and then the lengths. Names differ
// within a few bytes, and there a loop takes fewer instructions than std's order of slices, which goes by groups.
pub fn order_of(a: &[u8], b: &[u8]) -> Ordering
    ensures { result ≡ order_of a.now b.now }
{
    let shared = a.len().min(b.len());
    for (x, y) in a[..shared].iter().zip(b[..shared].iter()) {
        if x != y {
            return x.cmp(y);
        }
    }
    a.len().cmp(&b.len())
}
