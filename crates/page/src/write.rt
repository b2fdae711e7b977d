// Writers of bytes into a lent buffer. Each takes a position with room after it and answers the position after what it
// wrote.
ghost use Rattle.std.specs.Prelude.{[], ◌∷◌, ◌+◌, ◌≤◌, length};
ghost use Rattle.base.specs.Splice.{Wrote};

pub fn put_byte(b: u8, out: &mut [u8], at: usize) -> usize
    requires { at + 1 ≤ length out.old }
    ensures { Wrote out.old out.new at (b ∷ []) result }
{
    out[at] = b;
    at + 1
}

// A copy of bytes, as of a part of the page.
pub fn put_bytes(text: &[u8], out: &mut [u8], at: usize) -> usize
    requires { at + length text.now ≤ length out.old }
    ensures { Wrote out.old out.new at text.now result }
{
    let mut pos = at;
    for b in text {
        pos = put_byte(*b, out, pos);
    }
    pos
}
