// Lengths of texts, added up to a cap.
ghost use Rattle.std.specs.Prelude.{◌≡◌, ◌+◌, min};

// The sum, or `cap` where the sum is more: a length that stops at the cap cannot overflow.
pub fn capped_add(a: usize, b: usize, cap: usize) -> usize
    ensures { result ≡ min (a + b) cap }
{
    a.saturating_add(b).min(cap)
}
