// Lists of labels: the start of the first label and their count.
ghost use Rattle.std.specs.Prelude.{◌≡◌, drop};
ghost use Rattle.page.specs.Read.{repeat};
ghost use Rattle.page.specs.Text.{read_any_text};
ghost use Rattle.page.specs.Answers.{field_at, list_on, list_stored};
ghost use Rattle.records.specs.Field.{read_labels};

use crate::on_page::{list_from, read_list};
use page::{Field, List, Span};

// So many labels from a position on.
pub fn labels_from(page: &[u8], start: usize, count: usize) -> Field<List>
    ensures reads { field_at (list_on read_any_text page.now) page.now result ≡ repeat count read_any_text (drop start page.now) }
    ensures stored { list_stored read_any_text page.now result }
{
    list_from::<Span>(page, start, count)
}

// A count, and so many labels.
pub fn read_labels(page: &[u8], at: usize) -> Field<List>
    ensures reads { field_at (list_on read_any_text page.now) page.now result ≡ read_labels (drop at page.now) }
    ensures stored { list_stored read_any_text page.now result }
{
    read_list::<Span>(page, at)
}
