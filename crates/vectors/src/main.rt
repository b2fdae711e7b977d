// Replays the kept list: pages with the answers of the Rust (oracle/KEPT.md has the format), read from standard input.
//
// Each page is checked; its outcome and the part of 19's label are compared with the entry's words. An accepted page is
// copied and printed into a buffer of exactly the entry's size, and then into one a byte shorter, which is refused with
// 5 and keeps its first byte. Written is `N pages equal`, or `entry N differs` at the first one that is not equal,
// counted from 0.
#![tactic(auto)]

mod compare;
mod word;

use compare::{Call, check_equal, writes_equal};
use input::read_block;
use std::io::{Stdin, Stdout};
use word::read_word;

// The next text of the entry, and whether the call writes it.
fn replay_text(
    stdin: Stdin,
    call: Call,
    page: &[u8],
    outcome: u64,
    text: &mut [u8],
    out: &mut [u8],
) -> bool {
    match read_block(stdin, text) {
        Ok(Some(size)) => writes_equal(call, page, outcome, &text[..size], out),
        _ => false,
    }
}

// Whether the calls answer what the entry of a page says.
fn replay_entry(stdin: Stdin, page: &[u8], text: &mut [u8], out: &mut [u8]) -> bool {
    let Some(outcome) = read_word(stdin) else {
        return false;
    };
    let Some(label) = read_word(stdin) else {
        return false;
    };
    let checked = check_equal(page, outcome, label);
    let copied = replay_text(stdin, Call::Copy, page, outcome, text, out);
    let canonical = replay_text(stdin, Call::Canonical, page, outcome, text, out);
    let split = replay_text(stdin, Call::Split, page, outcome, text, out);
    checked & copied & canonical & split
}

// The same of the next entry; none where the input has ended.
fn replay_next(stdin: Stdin, page: &mut [u8], text: &mut [u8], out: &mut [u8]) -> Option<bool> {
    match read_block(stdin, page) {
        Ok(Some(size)) => Some(replay_entry(stdin, &page[..size], text, out)),
        Ok(None) => None,
        Err(_) => Some(false),
    }
}

fn report_equal(stdout: Stdout, count: u64) {
    let _ = println!(stdout; "{count} pages equal");
}

fn report_different(stdout: Stdout, entry: u64) {
    let _ = println!(stdout; "entry {entry} differs");
}

// Nothing says that the input ends, so the loop counts its turns up to a number that no run uses up.
const TURNS: u64 = 4294967296;

fn replay_all(rt: HostRuntime, page: &mut [u8], text: &mut [u8], out: &mut [u8]) {
    for turn in 0..TURNS {
        match replay_next(rt.stdin(), page, text, out) {
            Some(true) => {}
            Some(false) => {
                report_different(rt.stdout(), turn);
                return;
            }
            None => {
                report_equal(rt.stdout(), turn);
                return;
            }
        }
    }
}

const BUFFER_SIZE: usize = 65536;

fn main(rt: HostRuntime) {
    let mut page = [0u8; BUFFER_SIZE];
    let mut text = [0u8; BUFFER_SIZE];
    let mut out = [0u8; BUFFER_SIZE];
    replay_all(rt, &mut page, &mut text, &mut out);
}
