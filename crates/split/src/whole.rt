// Split text of a whole query (`prettify`): at level 0, its first line indented like every other.
ghost use Rattle.std.specs.Prelude.{◌≡◌, suc, ◌≤◌, min, length};
ghost use Rattle.base.specs.Splice.{Wrote};
ghost use Rattle.ast.specs.Tables.{Tables, tree_at};
ghost use Rattle.text.specs.Pretty.{prettify};
ghost use Rattle.measure.specs.Widths.{Widths};

use crate::length::split_len;
use crate::place::Place;
use crate::write::write_split;

// The place of a whole query.
const WHOLE: Place = Place {
    numberless: false,
    indents: true,
    level: 0,
};

// The length of the split text of the tree that record i ends, or `cap` where it is more.
pub fn prettify_len(
    page: &[u8],
    starts: &[u16],
    firsts: &[u8],
    widths: &[u8],
    i: usize,
    cap: usize,
) -> usize
    requires tables { Tables page.now starts.now firsts.now (suc i) }
    requires known { Widths page.now widths.now }
    ensures { result ≡ min (length (prettify (tree_at page.now i))) cap }
{
    split_len(page, starts, firsts, widths, i, WHOLE, cap)
}

// Writes the split text of the tree that record i ends, from the buffer's start on, and returns how many bytes it has.
pub fn put_prettify(
    page: &[u8],
    starts: &[u16],
    firsts: &[u8],
    widths: &[u8],
    i: usize,
    out: &mut [u8],
) -> usize
    requires tables { Tables page.now starts.now firsts.now (suc i) }
    requires known { Widths page.now widths.now }
    requires room { length (prettify (tree_at page.now i)) ≤ length out.old }
    ensures { Wrote out.old out.new 0 (prettify (tree_at page.now i)) result }
{
    write_split(page, starts, firsts, widths, i, WHOLE, out, 0)
}
