// Blocks of standard input and the numbers in front of them, for programs that read kept pages. What is read no
// contract can say: only where it is put.
#![tactic(auto)]

ghost use Rattle.std.specs.Prelude.{◌<◌, ◌≤◌, ◌≡◌, [], ◌∷◌, length};
ghost use Rattle.input.specs.Number.{lowest_first};
ghost use Rattle.input.specs.Block.{BlockRead};

use std::io::{Read, Stdin};

// One read of standard input into the start of the buffer, and how many bytes it gave: none where the input has ended
// or the read fails.
fn read_some(mut stdin: Stdin, buffer: &mut [u8]) -> usize
    ensures { result ≤ length buffer.new }
{
    match stdin.read(buffer) {
        Ok(n) => n,
        Err(_) => 0,
    }
}

// Reads standard input into the buffer until it is full, the input ends or a read fails, and answers how many bytes it
// put at the start.
pub fn read_full(stdin: Stdin, buffer: &mut [u8]) -> usize
    ensures { result ≤ length buffer.new }
{
    let mut done = 0;
    while done < buffer.len() {
        let n = read_some(stdin, &mut buffer[done..]);
        if n == 0 {
            break;
        }
        done += n;
    }
    done
}

fn wide(b: u8) -> u64
    ensures { (result ≡ b) × (result < 256) }
{
    b as u64
}

// Four bytes as a number, the lowest first.
pub fn number_of(a: u8, b: u8, c: u8, d: u8) -> u64
    ensures { (result ≡ lowest_first (a ∷ b ∷ c ∷ d ∷ [])) × (result < 4294967296) }
{
    wide(a) + 256 * wide(b) + 65536 * wide(c) + 16777216 * wide(d)
}

// No block: the input ends inside it, or it is larger than the buffer.
#[derive(Clone, Copy)]
pub struct BadBlock;

// A length of four bytes, and so many bytes into the buffer; none where the input ends before a block begins.
pub fn read_block(stdin: Stdin, buffer: &mut [u8]) -> Result<Option<usize>, BadBlock>
    ensures { BlockRead buffer.old buffer.new result }
{
    let mut bytes = [0u8; 4];
    let got = read_full(stdin, &mut bytes);
    if got == 0 {
        return Ok(None);
    }
    if got < 4 {
        return Err(BadBlock);
    }
    let size = number_of(bytes[0], bytes[1], bytes[2], bytes[3]) as usize;
    if buffer.len() < size {
        return Err(BadBlock);
    }
    let read = read_full(stdin, &mut buffer[..size]);
    if read < size {
        return Err(BadBlock);
    }
    Ok(Some(size))
}
