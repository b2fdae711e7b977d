// The order of two matchers' texts, with neither text stored: they are compared symbol by symbol, where a symbol is a
// byte that stands for itself or a backslash with its letter. A larger symbol has larger bytes, and no symbol's bytes
// begin another's.
ghost use Rattle.std.specs.Prelude.{◌≡◌, ◌+◌, ◌<◌, length, get_or};
ghost use Rattle.records.specs.Answers.{op_of};
ghost use Rattle.label.specs.Label.{match_op_token, at_most};
ghost use Rattle.label.specs.Symbols.{symbol, symbols, name_symbols};
ghost use Rattle.label.specs.Printed.{parts_text, parts_symbols};

use crate::parts::Parts;
use leaves::escape_letter;
use records::MatchOp;

// 256 times the first byte that stands for b, and the second or 0.
fn symbol(b: u8) -> usize
    ensures { result ≡ symbol b }
{
    match escape_letter(b) {
        None => b as usize * 256,
        Some(letter) => 23552 + letter as usize,
    }
}

// Symbol j of a quoted text: a quote, the text's own, a quote.
fn quoted_symbol(text: &[u8], j: usize) -> usize
    requires { j < length text.now + 2 }
    ensures { result ≡ get_or (symbols text.now) j 0 }
{
    if j == 0 {
        return 8704;
    }
    if j <= text.len() {
        return symbol(text[j - 1]);
    }
    8704
}

// How many symbols a name has.
fn name_count(name: &[u8], bare: bool) -> usize
    ensures { result ≡ length (name_symbols bare name.now) }
{
    if bare {
        return name.len();
    }
    name.len() + 2
}

fn name_symbol(name: &[u8], bare: bool, j: usize) -> usize
    requires { j < length (name_symbols bare name.now) }
    ensures { result ≡ get_or (name_symbols bare name.now) j 0 }
{
    if bare {
        return symbol(name[j]);
    }
    quoted_symbol(name, j)
}

pub fn operator_count(op: MatchOp) -> usize
    ensures { result ≡ length (match_op_token (op_of op)) }
{
    match op {
        MatchOp::Equal => 1,
        MatchOp::NotEqual | MatchOp::Re(_) | MatchOp::NotRe(_) => 2,
    }
}

// Byte j of an operator: =, !=, =~ or !~.
pub fn operator_byte(op: MatchOp, j: usize) -> u8
    requires { j < length (match_op_token (op_of op)) }
    ensures { result ≡ get_or (match_op_token (op_of op)) j 0 }
{
    match op {
        MatchOp::Equal => b'=',
        MatchOp::NotEqual => if j == 0 { b'!' } else { b'=' },
        MatchOp::Re(_) => if j == 0 { b'=' } else { b'~' },
        MatchOp::NotRe(_) => if j == 0 { b'!' } else { b'~' },
    }
}

impl<'a> Parts<'a> {
    // How many symbols the text has.
    fn symbol_count(&self) -> usize
        ensures { result ≡ length (parts_symbols self.now) }
    {
        name_count(self.name, self.bare) + operator_count(self.op) + self.value.len() + 2
    }

    fn symbol(&self, j: usize) -> usize
        requires { j < length (parts_symbols self.now) }
        ensures { result ≡ get_or (parts_symbols self.now) j 0 }
    {
        let n = name_count(self.name, self.bare);
        if j < n {
            return name_symbol(self.name, self.bare, j);
        }
        let k = j - n;
        let o = operator_count(self.op);
        if k < o {
            return symbol(operator_byte(self.op, k));
        }
        quoted_symbol(self.value, k - o)
    }

    // Whether the text comes no later than the other's.
    pub fn is_at_most(&self, other: &Parts<'a>) -> bool
        ensures { result ≡ at_most (parts_text self.now) (parts_text other.now) }
    {
        let n = self.symbol_count();
        let m = other.symbol_count();
        for j in 0..n {
            if m <= j {
                return false;
            }
            let x = self.symbol(j);
            let y = other.symbol(j);
            if x != y {
                return x < y;
            }
        }
        true
    }
}
