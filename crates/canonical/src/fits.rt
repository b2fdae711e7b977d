// Whether a canonical text has room. No text is longer than 4 bytes a byte of its page and 128 a record: where that
// fits, nothing is measured.
ghost use Rattle.std.specs.Prelude.{◌≡◌, suc, length, leb};
ghost use Rattle.ast.specs.Tables.{Tables, tree_at};
ghost use Rattle.text.specs.Display.{display};

use crate::text_len;

// Whether the text of the tree that record i ends takes at most so many bytes. It is measured up to one byte more.
pub fn text_fits(page: &[u8], starts: &[u16], firsts: &[u8], i: usize, room: usize) -> bool
    requires { Tables page.now starts.now firsts.now (suc i) }
    ensures { result ≡ leb (length (display (tree_at page.now i))) room }
{
    if 4 * page.len() + 128 * (i + 1) <= room {
        return true;
    }
    let size = text_len(page, starts, firsts, i, false, room + 1);
    size <= room
}
