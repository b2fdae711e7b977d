// Bytes that are copied but for one of them.
ghost use Rattle.std.specs.Prelude.{◌+◌, ◌<◌, ◌≤◌, length, slice_set};
ghost use Rattle.base.specs.Splice.{Wrote};

// Some bytes, with another byte in place of the one at `place`.
pub fn put_changed(text: &[u8], place: usize, byte: u8, out: &mut [u8], at: usize) -> usize
    requires { place < length text.now × at + length text.now ≤ length out.old }
    ensures { Wrote out.old out.new at (slice_set text.now place byte) result }
{
    let next = page::put_bytes(text, out, at);
    out[at + place] = byte;
    next
}
