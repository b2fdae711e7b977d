// Modifiers as numbers.
ghost use Rattle.std.specs.Prelude.{◌∷◌};
ghost use Rattle.record_lines.specs.Line.{Shows};
ghost use Rattle.record_lines.specs.Numbers.{option_numbers, literal_numbers, label_numbers, label_modifier_numbers};
ghost use Rattle.record_lines.specs.Numbers.{cardinality_numbers, bin_modifier_numbers};

use crate::element::Elements;
use crate::line::put_spaced;
use crate::list::put_list;
use crate::number::{put_flag, put_literal};
use page::List;
use records::{BinModifier, Cardinality, LabelModifier, Literal};

fn put_fill(fill: Option<Literal>, line: &mut [u8], at: usize) -> usize
    ensures { Shows line.old at (option_numbers literal_numbers fill) line.new result }
{
    match fill {
        None => put_spaced(0, line, at),
        Some(literal) => {
            let next = put_spaced(1, line, at);
            put_literal(literal, line, next)
        }
    }
}

// A form with a list of labels.
fn put_labelled(page: &[u8], form: u64, labels: List, line: &mut [u8], at: usize) -> usize
    ensures { Shows line.old at (form ∷ label_numbers page.now labels.start labels.count) line.new result }
{
    let next = put_spaced(form, line, at);
    put_list(Elements::Labels, page, labels, line, next)
}

pub fn put_label_modifier(
    page: &[u8],
    modifier: Option<LabelModifier>,
    line: &mut [u8],
    at: usize,
) -> usize
    ensures { Shows line.old at (label_modifier_numbers page.now modifier) line.new result }
{
    match modifier {
        None => put_spaced(0, line, at),
        Some(LabelModifier::Include(labels)) => put_labelled(page, 1, labels, line, at),
        Some(LabelModifier::Exclude(labels)) => put_labelled(page, 2, labels, line, at),
    }
}

fn put_cardinality(page: &[u8], card: Cardinality, line: &mut [u8], at: usize) -> usize
    ensures { Shows line.old at (cardinality_numbers page.now card) line.new result }
{
    match card {
        Cardinality::OneToOne => put_spaced(0, line, at),
        Cardinality::ManyToOne(labels) => put_labelled(page, 1, labels, line, at),
        Cardinality::OneToMany(labels) => put_labelled(page, 2, labels, line, at),
        Cardinality::ManyToMany => put_spaced(3, line, at),
    }
}

fn put_bin_modifier(page: &[u8], modifier: BinModifier, line: &mut [u8], at: usize) -> usize
    ensures { Shows line.old at (bin_modifier_numbers page.now modifier) line.new result }
{
    let after_flag = put_flag(modifier.returns_bool, line, at);
    let after_matching = put_label_modifier(page, modifier.matching, line, after_flag);
    let after_card = put_cardinality(page, modifier.card, line, after_matching);
    let after_lhs = put_fill(modifier.lhs, line, after_card);
    put_fill(modifier.rhs, line, after_lhs)
}

pub fn put_modifier(page: &[u8], modifier: Option<BinModifier>, line: &mut [u8], at: usize) -> usize
    ensures { Shows line.old at (option_numbers (bin_modifier_numbers page.now) modifier) line.new result }
{
    match modifier {
        None => put_spaced(0, line, at),
        Some(modifier) => {
            let next = put_spaced(1, line, at);
            put_bin_modifier(page, modifier, line, next)
        }
    }
}
