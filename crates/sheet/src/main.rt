// The program `sheet`: a page on standard input; on standard output its split text, or `refused N at R`, and a line
// feed.
//
// At most one byte more than a page may have is read: what is written depends on no more (`output-first`, crate
// program).
#![tactic(auto)]

use input::read_full;
use program::put_sheet;
use std::io::{Read, Stdin};

// A short count says neither that the input has ended nor that a read failed. Only an input that has ended answers 0 to
// another read: after a read that failed once the next gives the bytes that are missing.
fn input_failed(mut stdin: Stdin) -> bool {
    let mut more = [0u8; 1];
    match stdin.read(&mut more) {
        Ok(n) => n != 0,
        Err(_) => true,
    }
}

fn main(rt: HostRuntime) {
    let mut page = [0u8; page::PAGE_LIMIT + 1];
    let n = read_full(rt.stdin(), &mut page);
    if n <= page::PAGE_LIMIT {
        if input_failed(rt.stdin()) {
            let _ = rt.stderr().write_all(b"sheet: the input cannot be read\n");
            return;
        }
    }
    let mut out = [0u8; page::OUTPUT_LIMIT + 1];
    let end = put_sheet(&page[..n], &mut out);
    if rt.stdout().write_all(&out[..end]).is_err() {
        let _ = rt
            .stderr()
            .write_all(b"sheet: the output cannot be written\n");
    }
}
