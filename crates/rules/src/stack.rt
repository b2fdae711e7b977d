// The stack of operands: a tag for each, and the value that a number has. The arrays are filled from the end downwards.
ghost use Rattle.std.specs.Prelude.{◌≤◌, ◌≡◌, length};

use crate::operand::{Operand, operand_from, tag_of, value_of};
use page::RECORD_LIMIT;

// The top lies between the arrays: the compiler would else fill both with zeros as one large block.
#[derive(Drop)]
pub struct Stack {
    pub tags: [u8; RECORD_LIMIT],
    pub top: usize,
    pub values: [f64; RECORD_LIMIT],
    pub ghost inside: { top ≤ 256 },
    pub ghost sized: { (length tags ≡ 256) × (length values ≡ 256) },
}

impl Stack {
    ghost use Rattle.std.specs.Prelude.{◌+◌, ◌<◌, [], ◌∷◌, drop, get_or};
    ghost use Rattle.ast.specs.Operand.{string_operand};
    ghost use Rattle.rules.specs.Answers.{operand_meant};
    ghost use Rattle.rules.specs.Stack.{held};

    pub fn new() -> Stack
        ensures { held result ≡ [] }
    {
        Stack {
            tags: [0; RECORD_LIMIT],
            top: RECORD_LIMIT,
            values: [0.0; RECORD_LIMIT],
        }
    }

    pub fn len(&self) -> usize
        ensures { result ≡ length (held self.now) }
    {
        RECORD_LIMIT - self.top
    }

    // The operand at an index, counted from the top.
    pub fn operand(&self, i: usize) -> Operand
        requires { i < length (held self.now) }
        ensures { operand_meant result ≡ get_or (held self.now) i string_operand }
    {
        operand_from(self.tags[self.top + i], self.values[self.top + i])
    }

    // Takes so many operands off, and puts one on.
    pub fn replace(&mut self, count: usize, operand: Operand)
        requires enough { count ≤ length (held self.old) }
        requires room { length (held self.old) < 256 + count }
        ensures { held self.new ≡ operand_meant operand ∷ drop count (held self.old) }
    {
        self.top = self.top + count - 1;
        self.tags[self.top] = tag_of(operand);
        self.values[self.top] = value_of(operand);
    }
}
