// Numbers of standard input.
use input::{number_of, read_full};
use std::io::Stdin;

// A number of eight bytes, the lowest first; none where the input ends.
pub fn read_word(stdin: Stdin) -> Option<u64> {
    let mut bytes = [0u8; 8];
    let got = read_full(stdin, &mut bytes);
    if got < 8 {
        return None;
    }
    let low = number_of(bytes[0], bytes[1], bytes[2], bytes[3]);
    let high = number_of(bytes[4], bytes[5], bytes[6], bytes[7]);
    Some(low + 4294967296 * high)
}
