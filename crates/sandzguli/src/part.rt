// The label of refusal 19 (document 01, 'Outcomes of a page'): the part of the page itself that holds it.
ghost use Rattle.std.specs.Prelude.{◌≡◌};
ghost use Rattle.ast.specs.CheckPage.{check};
ghost use Rattle.ast.specs.Part.{label_part, part_of};
ghost use Rattle.joint_label.specs.Answers.{IsPart};

use page::{Span, text_at};
use rules::refusal::refusal_number;
use walk::check;

// Where it starts and ends; no bytes where the page is not refused with 19. Only the outcome says whether there is a
// label.
pub fn label_span(page: &[u8]) -> Span
    ensures { IsPart page.now (label_part page.now (check page.now)) result }
{
    match check(page) {
        Ok(_) => Span { start: 0, end: 0 },
        Err(refused) => {
            joint_label::joint_label(page, refusal_number(refused.refusal), refused.index)
        }
    }
}

// The first group label that is also in the on list, as that part of the lent page; an empty part otherwise.
pub fn joint_label(page: &[u8]) -> &[u8]
    ensures { result.now ≡ part_of page.now (label_part page.now (check page.now)) }
{
    text_at(page, label_span(page))
}
