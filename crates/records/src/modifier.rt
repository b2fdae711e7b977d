// Modifiers of binary and aggregate expressions (ast.rs, `LabelModifier`, `VectorMatchCardinality`, `BinModifier`).
ghost use Rattle.std.specs.Prelude.{◌≡◌, drop, IfOk};
ghost use Rattle.page.specs.Answers.{field_at, option_of};
ghost use Rattle.records.specs.Field.{read_option};
ghost use Rattle.records.specs.Modifier as modifier;
ghost use Rattle.records.specs.Modifier.{read_label_modifier, read_cardinality, read_bin_modifier};
ghost use Rattle.records.specs.Answers.{label_modifier_on, cardinality_on, bin_modifier_on, read_fills, modifier_on};
ghost use Rattle.records.specs.Answers.{LabelModifierStored, CardinalityStored, BinModifierStored, ModifierStored};

use crate::kind::read_flag;
use crate::label::read_labels;
use crate::literal::{Literal, read_fill};
use crate::on_page::{OnPage, read_option, wrapped};
use page::{Fault, Field, List, read_number};

// `on` and `by` include, `ignoring` and `without` exclude labels.
#[derive(Clone, Copy)]
pub enum LabelModifier {
    Include(List),
    Exclude(List),
}

pub fn read_label_modifier(page: &[u8], at: usize) -> Field<Option<LabelModifier>>
    ensures reads { field_at (label_modifier_on page.now) page.now result ≡ read_label_modifier (drop at page.now) }
    ensures stored { IfOk result (λ field. LabelModifierStored page.now field.0) }
{
    let (n, next) = read_number(page, at)?;
    match n {
        0 => Ok((None, next)),
        1 => wrapped(read_labels(page, next), |labels| {
            Some(LabelModifier::Include(labels))
        }),
        2 => wrapped(read_labels(page, next), |labels| {
            Some(LabelModifier::Exclude(labels))
        }),
        _ => Err(Fault::BadField),
    }
}

// group_left is many-to-one, group_right one-to-many, with the group labels.
#[derive(Clone, Copy)]
pub enum Cardinality {
    OneToOne,
    ManyToOne(List),
    OneToMany(List),
    ManyToMany,
}

pub fn read_cardinality(page: &[u8], at: usize) -> Field<Cardinality>
    ensures reads { field_at (cardinality_on page.now) page.now result ≡ read_cardinality (drop at page.now) }
    ensures stored { IfOk result (λ field. CardinalityStored page.now field.0) }
{
    let (n, next) = read_number(page, at)?;
    match n {
        0 => Ok((Cardinality::OneToOne, next)),
        1 => wrapped(read_labels(page, next), Cardinality::ManyToOne),
        2 => wrapped(read_labels(page, next), Cardinality::OneToMany),
        3 => Ok((Cardinality::ManyToMany, next)),
        _ => Err(Fault::BadField),
    }
}

// The modifier of a binary expression (ast.rs, `BinModifier`).
#[derive(Clone, Copy)]
pub struct BinModifier {
    pub returns_bool: bool,
    pub matching: Option<LabelModifier>,
    pub card: Cardinality,
    pub lhs: Option<Literal>,
    pub rhs: Option<Literal>,
}

// The rest of a modifier: its two fill values.
fn read_fills(
    page: &[u8],
    at: usize,
    returns_bool: bool,
    matching: Option<LabelModifier>,
    card: Cardinality,
) -> Field<BinModifier>
    requires { LabelModifierStored page.now matching × CardinalityStored page.now card }
    ensures reads { field_at (bin_modifier_on page.now) page.now result ≡ read_fills returns_bool (label_modifier_on page.now matching) (cardinality_on page.now card) (drop at page.now) }
    ensures stored { IfOk result (λ field. BinModifierStored page.now field.0) }
{
    let (lhs, next) = read_fill(page, at)?;
    let (rhs, next) = read_fill(page, next)?;
    let modifier = BinModifier {
        returns_bool,
        matching,
        card,
        lhs,
        rhs,
    };
    Ok((modifier, next))
}

pub fn read_bin_modifier(page: &[u8], at: usize) -> Field<BinModifier>
    ensures reads { field_at (bin_modifier_on page.now) page.now result ≡ read_bin_modifier (drop at page.now) }
    ensures stored { IfOk result (λ field. BinModifierStored page.now field.0) }
{
    let (returns_bool, next) = read_flag(page, at)?;
    let (matching, next) = read_label_modifier(page, next)?;
    let (card, next) = read_cardinality(page, next)?;
    read_fills(page, next, returns_bool, matching, card)
}

impl OnPage for BinModifier {
    ghost Meaning = { modifier.BinModifier };

    ghost meaning = { bin_modifier_on };

    ghost reader = { read_bin_modifier };

    ghost Stored = { BinModifierStored };

    fn read(page: &[u8], at: usize) -> Field<BinModifier> {
        read_bin_modifier(page, at)
    }
}

// A binary expression's modifier, if there is one.
pub fn read_modifier(page: &[u8], at: usize) -> Field<Option<BinModifier>>
    ensures reads { field_at (modifier_on page.now) page.now result ≡ read_option read_bin_modifier (drop at page.now) }
    ensures stored { IfOk result (λ field. ModifierStored page.now field.0) }
{
    read_option(page, at)
}
