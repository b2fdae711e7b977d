// The names of refusals, by their numbers. 0 has none, and neither have 35, 36, 39 and 40.
ghost use Rattle.names.specs.Names.{refusal_name};
ghost use Rattle.names.specs.Written.{name_written, DoesName};

use crate::table::write_name;

const LETTERS: [u8; 1424] = *b"\
    record cut short, bad number or code\
    operands missing, or not one expression at the end\
    a limit passed (page, records, text, list, count or time)\
    text not allowed, or not a name\
    the lent buffer is too short\
    unary on a string literal or range selector\
    range after offset\
    range after @\
    range on anything but a selector\
    @ set already\
    @ on no selector, range or subquery\
    offset set already\
    offset on no selector, range or subquery\
    aggregate of 0 arguments\
    aggregate of another count than 1, or 2 with a parameter\
    binary code is an aggregator\
    bool without comparison\
    two scalars compared without bool\
    a label in both on and group\
    a side of a set operator is a scalar\
    set operator between vectors has a grouping\
    a side is a string or a matrix\
    matching labels, but a side is no vector\
    aggregate code is an operator\
    aggregate operand is no vector, or parameter of the wrong kind\
    fixed signature with another count of arguments\
    fewer arguments than declared kinds less one\
    more arguments than declared kinds less one plus the upper extra\
    arguments, but no declared kinds\
    argument of another kind than declared\
    unary operand is no scalar or vector\
    subquery operand is no vector\
    metric name and a __name__ matcher\
    no name, and no matcher or only ones that accept empty text\
    a function that the table does not have\
    a signature unlike the function table's\
    the flag of a pattern is wrong: 1 if it matches empty text, else 0\
    the parameter of limitk or limit_ratio is no scalar";

const STARTS: [u16; 44] = [
    0, 0, 36, 86, 143, 174, 202, 245, 263, 276, 308, 321, 356, 374, 414, 438, 494, 522, 545, 578,
    606, 642, 685, 715, 755, 784, 846, 893, 937, 1001, 1033, 1071, 1107, 1136, 1170, 1229, 1229,
    1229, 1268, 1307, 1307, 1307, 1373, 1424,
];

pub fn refusal_name(number: u64, out: &mut [u8]) -> u64
    ensures { DoesName (name_written (refusal_name number) out.old) result out.new }
{
    write_name(&LETTERS, &STARTS, number, out)
}
