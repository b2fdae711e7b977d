// Modifiers of binary expressions, as the check asks of them (ast.rs, `is_matching_on`, `is_labels_joint`,
// `is_matching_labels_not_empty`).
ghost use Rattle.std.specs.Prelude.{ℕ, not, false, List, ◌≡◌};
ghost use Rattle.page.specs.Bytes.{any, is_empty};
ghost use Rattle.records.specs.Answers.{kind_of, labels_on, label_modifier_on, cardinality_on, modifier_on};
ghost use Rattle.ast.specs.CheckAst.{has_label, group_labels, on_labels, matching_labels, is_grouping};
ghost use Rattle.ast.specs.Judge.{judge_binary};
ghost use Rattle.rules.specs.Answers.{verdict_meant};
ghost use Rattle.rules.specs.ModifierFacts.{ModifierFactsOf};

use crate::label::{has_joint, has_labels};
use records::{BinModifier, Cardinality, Kind, LabelModifier};
use rules::binary::{ModifierFacts, judge_sides};
use rules::{Operand, Refusal};

fn is_grouping(card: Cardinality) -> bool
    ensures { (page : List ℕ) → result ≡ is_grouping (cardinality_on page card) }
{
    match card {
        Cardinality::OneToOne => false,
        Cardinality::ManyToOne(_) => true,
        Cardinality::OneToMany(_) => true,
        Cardinality::ManyToMany => false,
    }
}

fn has_matching(page: &[u8], matching: Option<LabelModifier>) -> bool
    ensures { result ≡ not (is_empty (matching_labels (label_modifier_on page.now matching))) }
{
    match matching {
        None => false,
        Some(LabelModifier::Include(list)) => has_labels(page, list.start, list.count),
        Some(LabelModifier::Exclude(list)) => has_labels(page, list.start, list.count),
    }
}

// Whether a group label is in the list that starts at `on`.
fn group_joint(page: &[u8], card: Cardinality, on: usize, ons: usize) -> bool
    ensures { result ≡ any (has_label (labels_on page.now on ons)) (group_labels (cardinality_on page.now card)) }
{
    match card {
        Cardinality::OneToOne => false,
        Cardinality::ManyToOne(list) => has_joint(page, list.start, list.count, on, ons),
        Cardinality::OneToMany(list) => has_joint(page, list.start, list.count, on, ons),
        Cardinality::ManyToMany => false,
    }
}

// 19 looks at `on` alone, not at `ignoring`.
fn is_joint(page: &[u8], matching: Option<LabelModifier>, card: Cardinality) -> bool
    ensures { result ≡ any (has_label (on_labels (label_modifier_on page.now matching))) (group_labels (cardinality_on page.now card)) }
{
    match matching {
        None => false,
        Some(LabelModifier::Include(on)) => group_joint(page, card, on.start, on.count),
        Some(LabelModifier::Exclude(_)) => false,
    }
}

fn facts(page: &[u8], modifier: Option<BinModifier>) -> ModifierFacts
    ensures { ModifierFactsOf (modifier_on page.now modifier) result }
{
    match modifier {
        None => ModifierFacts {
            boolean: false,
            joint: false,
            grouped: false,
            labelled: false,
        },
        Some(m) => {
            let matching = m.matching;
            let card = m.card;
            ModifierFacts {
                boolean: m.returns_bool,
                joint: is_joint(page, matching, card),
                grouped: is_grouping(card),
                labelled: has_matching(page, matching),
            }
        }
    }
}

pub fn judge_binary(
    page: &[u8],
    code: u64,
    modifier: Option<BinModifier>,
    left: Kind,
    right: Kind,
) -> Result<Operand, Refusal>
    ensures { verdict_meant result ≡ judge_binary code (modifier_on page.now modifier) (kind_of left) (kind_of right) }
{
    judge_sides(code, facts(page, modifier), left, right)
}
