// Names in a table, found by halves, and the signatures of what is found.
ghost use Rattle.std.specs.Prelude.{◌≡◌, ◌+◌, ◌<◌, ◌-◌, length, get_or, []};
ghost use Rattle.functions.specs.Table.{count_of};
ghost use Rattle.functions.specs.Answers.{texts_of, place_in};
ghost use Rattle.page.specs.Answers.{option_of, itself};

use crate::form::Table;
use crate::order::order_of;
use std::cmp::Ordering;

impl<'a> Table<'a> {
    // The text at a place: a name, or past the names a signature.
    pub fn text(&self, place: usize) -> &'a [u8]
        requires { place < length self.now.starts.now - 1 }
        ensures { result.now ≡ get_or (texts_of self.now) place [] }
    {
        let start = self.starts[place] as usize;
        let end = self.starts[place + 1] as usize;
        &self.letters[start..end]
    }

    // The place of a name among the names. Those left are from `low` on, before `high`. No search of std's serves: that
    // asks of one start alone, and a text needs the next one too.
    pub fn find(&self, name: &[u8]) -> Option<usize>
        ensures { option_of itself result ≡ place_in self.now name.now }
    {
        let mut low = 0;
        let mut high = self.starts.len() / 2;
        while low < high {
            let middle = low + (high - low) / 2;
            match order_of(self.text(middle), name) {
                Ordering::Equal => return Some(middle),
                Ordering::Less => low = middle + 1,
                Ordering::Greater => high = middle,
            }
        }
        None
    }

    // The signature of the function at a place: they stand behind the names.
    pub fn signature(&self, place: usize) -> &'a [u8]
        requires { place < count_of self.now.starts.now }
        ensures { result.now ≡ get_or (texts_of self.now) (count_of self.now.starts.now + place) [] }
    {
        self.text(self.starts.len() / 2 + place)
    }
}
