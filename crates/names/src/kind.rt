// The names of kinds, by their numbers.
ghost use Rattle.names.specs.Names.{kind_name};
ghost use Rattle.names.specs.Written.{name_written, DoesName};

use crate::table::write_name;

const LETTERS: [u8; 24] = *b"\
    vector\
    scalar\
    matrix\
    string";

const STARTS: [u16; 5] = [0, 6, 12, 18, 24];

pub fn kind_name(number: u64, out: &mut [u8]) -> u64
    ensures { DoesName (name_written (kind_name number) out.old) result out.new }
{
    write_name(&LETTERS, &STARTS, number, out)
}
