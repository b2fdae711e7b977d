// Range, @ and offset of a selector or a subquery: each is set by a record above it.
ghost use Rattle.std.specs.Prelude.{◌≡◌, suc, None};
ghost use Rattle.std.proofs.Math.Option.{some};
ghost use Rattle.page.specs.Answers.{itself, option_of};
ghost use Rattle.records.specs.Answers.{at_modifier_of, offset_of};
ghost use Rattle.text.specs.Chain.{with_at, with_offset};
ghost use Rattle.text.specs.Answers.{times_of};
ghost use Rattle.view.specs.View.{Starts, AttachedAt, NodeAt};
ghost use Rattle.fields.specs.Attached.{SetsAttached, SetsOver};

use page::read_number;
use records::{AtModifier, Offset, read_at_modifier, read_offset};
use text::Times;
use view::{Node, fields_start, kind_at};

// What the records above a selector or a subquery have set. A subquery has no range of this kind.
#[derive(Clone, Copy)]
pub struct Attached {
    pub range: Option<u64>,
    pub times: Times,
}

fn with_range(attached: Attached, n: u64) -> Attached
    ensures { (option_of itself result.range ≡ some n) × (times_of result.times ≡ times_of attached.times) }
{
    let times = attached.times;
    Attached {
        range: Some(n),
        times,
    }
}

fn with_at(attached: Attached, a: AtModifier) -> Attached
    ensures { (option_of itself result.range ≡ option_of itself attached.range) × (times_of result.times ≡ with_at (at_modifier_of a) (times_of attached.times)) }
{
    let range = attached.range;
    let times = attached.times;
    let offset = times.offset;
    let set = Times {
        at: Some(a),
        offset,
    };
    Attached { range, times: set }
}

fn with_offset(attached: Attached, o: Offset) -> Attached
    ensures { (option_of itself result.range ≡ option_of itself attached.range) × (times_of result.times ≡ with_offset (offset_of o) (times_of attached.times)) }
{
    let range = attached.range;
    let times = attached.times;
    let at = times.at;
    let set = Times {
        at,
        offset: Some(o),
    };
    Attached { range, times: set }
}

// With what record j sets.
fn with_record(page: &[u8], starts: &[u16], j: usize, attached: Attached) -> Attached
    requires starts { Starts page.now starts.now (suc j) }
    requires attached { AttachedAt page.now starts.now j }
    ensures { SetsOver page.now starts.now j attached result }
{
    let start = fields_start(starts, j);
    match kind_at(page, starts, j) {
        3 => match read_number(page, start) {
            Ok((n, _)) => with_range(attached, n),
            Err(_) => attached,
        },
        5 => match read_at_modifier(page, start) {
            Ok((a, _)) => with_at(attached, a),
            Err(_) => attached,
        },
        _ => match read_offset(page, start) {
            Ok((o, _)) => with_offset(attached, o),
            Err(_) => attached,
        },
    }
}

fn nothing_attached() -> Attached
    ensures { result ≡ record { range = None; times = record { at = None; offset = None } } }
{
    let times = Times {
        at: None,
        offset: None,
    };
    Attached { range: None, times }
}

// What is attached to a node: what stands above its foot.
pub fn attached_of(page: &[u8], starts: &[u16], node: Node) -> Attached
    requires { NodeAt page.now starts.now node }
    ensures { SetsAttached page.now starts.now node.top node.base result }
{
    let base = node.base;
    let mut attached = nothing_attached();
    for j in (base..node.top).rev() {
        attached = with_record(page, starts, j + 1, attached);
    }
    attached
}
