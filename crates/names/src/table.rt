// Names in one run of letters, and where each begins; after the last stands the end.
ghost use Rattle.std.specs.Prelude.{◌≡◌, T};
ghost use Rattle.names.specs.Written.{name_written, DoesName};
ghost use Rattle.names.specs.Table.{is_table, name_at};

use page::put_bytes;

// Refused 5 at 0, as a word.
const TOO_SHORT: u64 = 9223372036854775808 + 5 * 65536;

fn wide(start: u16) -> usize
    ensures { result ≡ start }
{
    start as usize
}

// Writes the name at a place to the start of the buffer: 4 times the count of its bytes, or too short.
pub fn write_name(letters: &[u8], starts: &[u16], number: u64, out: &mut [u8]) -> u64
    requires { T (is_table letters.now starts.now) }
    ensures { DoesName (name_written (name_at letters.now starts.now number) out.old) result out.new }
{
    let last = starts.len() - 1;
    if last as u64 <= number {
        return 0;
    }
    let place = number as usize;
    let start = wide(starts[place]);
    let end = wide(starts[place + 1]);
    let size = end - start;
    if out.len() < size {
        return TOO_SHORT;
    }
    put_bytes(&letters[start..end], out, 0) as u64 * 4
}
