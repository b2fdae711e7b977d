// Matching, grouping and cardinality (ast.rs, `BinModifier`, `get_op_string`): tokens with labels, each with its space
// in front.
ghost use Rattle.std.specs.Prelude.{◌≡◌, ◌+◌, ◌≤◌, min, length};
ghost use Rattle.base.specs.Splice.{Wrote};
ghost use Rattle.records.specs.Answers.{label_modifier_on, LabelModifierStored, cardinality_on, CardinalityStored};
ghost use Rattle.text.specs.Display.{display_matching, display_cardinality, display_grouping};

use crate::labelled::{labelled_len, put_labelled};
use page::put_byte;
use records::{Cardinality, LabelModifier};

// `ignoring ()` vanishes, `on ()` is printed.
pub fn matching_len(page: &[u8], matching: Option<LabelModifier>, cap: usize) -> usize
    requires { LabelModifierStored page.now matching }
    ensures { result ≡ min (length (display_matching (label_modifier_on page.now matching))) cap }
{
    let Some(own) = matching else {
        return 0;
    };
    match own {
        LabelModifier::Include(list) => labelled_len(3, page, list.start, list.count, cap),
        LabelModifier::Exclude(list) => {
            if list.count == 0 {
                return 0;
            }
            labelled_len(9, page, list.start, list.count, cap)
        }
    }
}

pub fn put_matching(
    page: &[u8],
    matching: Option<LabelModifier>,
    out: &mut [u8],
    at: usize,
) -> usize
    requires stored { LabelModifierStored page.now matching }
    requires room { at + length (display_matching (label_modifier_on page.now matching)) ≤ length out.old }
    ensures { Wrote out.old out.new at (display_matching (label_modifier_on page.now matching)) result }
{
    let Some(own) = matching else {
        return at;
    };
    match own {
        LabelModifier::Include(list) => put_labelled(b" on", page, list.start, list.count, out, at),
        LabelModifier::Exclude(list) => {
            if list.count == 0 {
                return at;
            }
            put_labelled(b" ignoring", page, list.start, list.count, out, at)
        }
    }
}

pub fn cardinality_len(page: &[u8], card: Cardinality, cap: usize) -> usize
    requires { CardinalityStored page.now card }
    ensures { result ≡ min (length (display_cardinality (cardinality_on page.now card))) cap }
{
    match card {
        Cardinality::OneToOne => 0,
        Cardinality::ManyToOne(list) => labelled_len(11, page, list.start, list.count, cap),
        Cardinality::OneToMany(list) => labelled_len(12, page, list.start, list.count, cap),
        Cardinality::ManyToMany => 0,
    }
}

pub fn put_cardinality(page: &[u8], card: Cardinality, out: &mut [u8], at: usize) -> usize
    requires stored { CardinalityStored page.now card }
    requires room { at + length (display_cardinality (cardinality_on page.now card)) ≤ length out.old }
    ensures { Wrote out.old out.new at (display_cardinality (cardinality_on page.now card)) result }
{
    match card {
        Cardinality::OneToOne => at,
        Cardinality::ManyToOne(list) => put_labelled(
            b" group_left",
            page,
            list.start,
            list.count,
            out,
            at,
        ),
        Cardinality::OneToMany(list) => put_labelled(
            b" group_right",
            page,
            list.start,
            list.count,
            out,
            at,
        ),
        Cardinality::ManyToMany => at,
    }
}

// `by ()` vanishes, `without ()` is printed. A space stands after a list.
pub fn grouping_len(page: &[u8], grouping: Option<LabelModifier>, cap: usize) -> usize
    requires { LabelModifierStored page.now grouping }
    ensures { result ≡ min (length (display_grouping (label_modifier_on page.now grouping))) cap }
{
    let Some(own) = grouping else {
        return 0;
    };
    match own {
        LabelModifier::Include(list) => {
            if list.count == 0 {
                return 0;
            }
            labelled_len(4, page, list.start, list.count, cap)
        }
        LabelModifier::Exclude(list) => labelled_len(9, page, list.start, list.count, cap),
    }
}

pub fn put_grouping(
    page: &[u8],
    grouping: Option<LabelModifier>,
    out: &mut [u8],
    at: usize,
) -> usize
    requires stored { LabelModifierStored page.now grouping }
    requires room { at + length (display_grouping (label_modifier_on page.now grouping)) ≤ length out.old }
    ensures { Wrote out.old out.new at (display_grouping (label_modifier_on page.now grouping)) result }
{
    let Some(own) = grouping else {
        return at;
    };
    match own {
        LabelModifier::Include(labels) => {
            if labels.count == 0 {
                return at;
            }
            let space = put_labelled(b" by", page, labels.start, labels.count, out, at);
            put_byte(b' ', out, space)
        }
        LabelModifier::Exclude(list) => {
            let space = put_labelled(b" without", page, list.start, list.count, out, at);
            put_byte(b' ', out, space)
        }
    }
}
