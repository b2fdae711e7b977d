// Operators with their modifier (ast.rs, `get_op_matching_string`) and aggregators with their grouping
// (`get_op_string`).
ghost use Rattle.std.specs.Prelude.{◌≡◌, ◌+◌, ◌≤◌, min, length};
ghost use Rattle.base.specs.Splice.{Wrote};
ghost use Rattle.page.specs.Answers.{option_of};
ghost use Rattle.records.specs.Answers.{label_modifier_on, LabelModifierStored, literal_of, bin_modifier_on, BinModifierStored, modifier_on, ModifierStored};
ghost use Rattle.records.specs.Allowed.{IsFill};
ghost use Rattle.float.specs.Fills.{fill_values};
ghost use Rattle.float.specs.Exact.{ModifierExact};
ghost use Rattle.text.specs.Display.{display_bool, display_modifier, display_operator, display_aggregator};

use float::{FillValues, fill_values};
use leaves::capped_add;
use page::put_bytes;
use records::{BinModifier, LabelModifier};
use tokens::{
    cardinality_len, fills_len, grouping_len, matching_len, put_cardinality, put_fills,
    put_grouping, put_matching, put_token, token_len,
};

fn bool_len(returns_bool: bool) -> usize
    ensures { (result ≡ length (display_bool returns_bool)) × (result ≤ 5) }
{
    if returns_bool {
        return 5;
    }
    0
}

fn put_bool(returns_bool: bool, out: &mut [u8], at: usize) -> usize
    requires { at + length (display_bool returns_bool) ≤ length out.old }
    ensures { Wrote out.old out.new at (display_bool returns_bool) result }
{
    if returns_bool {
        return put_bytes(b" bool", out, at);
    }
    at
}

// The fill numbers come as floats, with bools that say whether they are there, and fractions beside them.
fn modifier_len(page: &[u8], modifier: BinModifier, values: FillValues, cap: usize) -> usize
    requires stored { BinModifierStored page.now modifier }
    requires exact { (values ≡ fill_values (option_of literal_of modifier.lhs) (option_of literal_of modifier.rhs)) × IsFill (option_of literal_of modifier.lhs) × IsFill (option_of literal_of modifier.rhs) }
    ensures { result ≡ min (length (display_modifier (bin_modifier_on page.now modifier))) cap }
{
    let matching = modifier.matching;
    let card = modifier.card;
    let lhs = modifier.lhs;
    let rhs = modifier.rhs;
    let ends = bool_len(modifier.returns_bool) + fills_len(values, lhs, rhs);
    let matched = capped_add(ends, matching_len(page, matching, cap), cap);
    capped_add(matched, cardinality_len(page, card, cap), cap)
}

fn put_modifier(
    page: &[u8],
    modifier: BinModifier,
    values: FillValues,
    out: &mut [u8],
    at: usize,
) -> usize
    requires stored { BinModifierStored page.now modifier }
    requires exact { (values ≡ fill_values (option_of literal_of modifier.lhs) (option_of literal_of modifier.rhs)) × IsFill (option_of literal_of modifier.lhs) × IsFill (option_of literal_of modifier.rhs) }
    requires room { at + length (display_modifier (bin_modifier_on page.now modifier)) ≤ length out.old }
    ensures { Wrote out.old out.new at (display_modifier (bin_modifier_on page.now modifier)) result }
{
    let matching = modifier.matching;
    let card = modifier.card;
    let lhs = modifier.lhs;
    let rhs = modifier.rhs;
    let after_bool = put_bool(modifier.returns_bool, out, at);
    let matched = put_matching(page, matching, out, after_bool);
    let grouped = put_cardinality(page, card, out, matched);
    put_fills(values, lhs, rhs, out, grouped)
}

pub fn operator_len(page: &[u8], code: u64, modifier: Option<BinModifier>, cap: usize) -> usize
    requires stored { ModifierStored page.now modifier }
    requires exact { ModifierExact (modifier_on page.now modifier) }
    ensures { result ≡ min (length (display_operator code (modifier_on page.now modifier))) cap }
{
    let token = token_len(code);
    match modifier {
        None => capped_add(token, 0, cap),
        Some(own) => {
            let lhs = own.lhs;
            let rhs = own.rhs;
            let values = fill_values(lhs, rhs);
            capped_add(token, modifier_len(page, own, values, cap), cap)
        }
    }
}

pub fn put_operator(
    page: &[u8],
    code: u64,
    modifier: Option<BinModifier>,
    out: &mut [u8],
    at: usize,
) -> usize
    requires stored { ModifierStored page.now modifier }
    requires exact { ModifierExact (modifier_on page.now modifier) }
    requires room { at + length (display_operator code (modifier_on page.now modifier)) ≤ length out.old }
    ensures { Wrote out.old out.new at (display_operator code (modifier_on page.now modifier)) result }
{
    match modifier {
        None => put_token(code, out, at),
        Some(own) => {
            let lhs = own.lhs;
            let rhs = own.rhs;
            let values = fill_values(lhs, rhs);
            let behind = put_token(code, out, at);
            put_modifier(page, own, values, out, behind)
        }
    }
}

pub fn aggregator_len(page: &[u8], code: u64, grouping: Option<LabelModifier>, cap: usize) -> usize
    requires { LabelModifierStored page.now grouping }
    ensures { result ≡ min (length (display_aggregator code (label_modifier_on page.now grouping))) cap }
{
    let token = token_len(code);
    capped_add(token, grouping_len(page, grouping, cap), cap)
}

pub fn put_aggregator(
    page: &[u8],
    code: u64,
    grouping: Option<LabelModifier>,
    out: &mut [u8],
    at: usize,
) -> usize
    requires stored { LabelModifierStored page.now grouping }
    requires room { at + length (display_aggregator code (label_modifier_on page.now grouping)) ≤ length out.old }
    ensures { Wrote out.old out.new at (display_aggregator code (label_modifier_on page.now grouping)) result }
{
    let behind = put_token(code, out, at);
    put_grouping(page, grouping, out, behind)
}
