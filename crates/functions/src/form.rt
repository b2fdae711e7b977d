// A table of functions as it lies in two arrays.
ghost use Rattle.std.specs.Prelude.{T};
ghost use Rattle.functions.specs.Table.{is_table};

// The names in ascending order, then their signatures as they stand in a call; and where each of these texts begins,
// with the end last.
#[derive(Clone, Copy)]
pub struct Table<'a> {
    pub letters: &'a [u8],
    pub starts: &'a [u16],
    pub ghost formed: { T (is_table letters.now starts.now) },
}
