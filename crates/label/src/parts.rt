// A matcher's printed parts as texts.
ghost use Rattle.std.specs.Prelude.{◌≡◌, ◌≤◌, length};
ghost use Rattle.page.specs.Text.{is_label};

use records::MatchOp;

// The name, whether that is a label, the operator and the value.
#[derive(Clone, Copy)]
pub struct Parts<'a> {
    pub name: &'a [u8],
    pub bare: bool,
    pub op: MatchOp,
    pub value: &'a [u8],
    pub ghost label: { bare ≡ is_label name.now },
    pub ghost short: { (length name.now ≤ 255) × (length value.now ≤ 255) },
}
