// Shows what each record of a page is, for comparison with the Rust.
//
// Standard input is a stream of pages, each a length of four bytes, lowest first, and so many bytes, at most 65,536.
// For each page a line is written for each record, from the left to the page's end or the first record that cannot be
// read (no limit on the count of records):
//
//     NEXT KIND FIELDS..     the position after the record, its kind 0 to 11, and its fields in the order of the page
//     fault N at R           record R is refused with N, 1, 3 or 4
//     end R                  the page ends after R records
//
// Fields are decimal numbers. A text is its start and its size; a list is its count and its elements; a flag is 0 or 1;
// a choice is the number of its form and the fields of that form. So a matcher is 0 to 3, name, value, and a flag for 2
// and 3; a call is its name, its kinds, 0 to 2 (2 with the upper), the result kind and the count of arguments.
//
// Input that is no such stream, as a page without its length, is answered on standard error by a sentence that says
// what is wanted.
#![tactic(auto)]

use input::read_block;
use reader::read_record;
use record_lines::{end_line, fault_line, record_line};
use std::io::{Stderr, Stdout};

const PAGE_SIZE: usize = 65536;

const LINE_SIZE: usize = 4096;

// A line that cannot be written changes nothing: the next one is tried.
fn write_line(stdout: Stdout, line: &[u8], end: usize) {
    if line.len() < end {
        return;
    }
    let _ = stdout.write_all(&line[..end]);
}

// The records of a page. A record has at least one byte, so that the page ends before the turns do.
fn show_page(stdout: Stdout, page: &[u8], line: &mut [u8]) {
    let mut at = 0;
    for index in 0..=page.len() {
        if page.len() <= at {
            let end = end_line(index as u64, line);
            write_line(stdout, line, end);
            return;
        }
        match read_record(page, at) {
            Ok((item, next)) => {
                let end = record_line(page, item, next, line);
                write_line(stdout, line, end);
                at = next;
            }
            Err(fault) => {
                let end = fault_line(fault, index as u64, line);
                write_line(stdout, line, end);
                return;
            }
        }
    }
}

fn say_what_is_wanted(stderr: Stderr) {
    let _ = stderr.write_all(b"show_records: standard input must be a stream of pages, ");
    let _ = stderr.write_all(
        b"each a length of four bytes, lowest first, and so many bytes, at most 65536\n",
    );
}

// Shows the next page, and answers whether there was one.
fn show_next(rt: HostRuntime, buffer: &mut [u8], line: &mut [u8]) -> bool {
    match read_block(rt.stdin(), buffer) {
        Ok(Some(size)) => {
            show_page(rt.stdout(), &buffer[..size], line);
            true
        }
        Ok(None) => false,
        Err(_) => {
            say_what_is_wanted(rt.stderr());
            false
        }
    }
}

// Nothing says that the input ends, so the turns are counted, by a number that no run uses up.
fn show_all(rt: HostRuntime, buffer: &mut [u8], line: &mut [u8]) {
    for _ in 0..u64::MAX {
        if !show_next(rt, buffer, line) {
            return;
        }
    }
}

fn main(rt: HostRuntime) {
    let mut buffer = [0u8; PAGE_SIZE];
    let mut line = [0u8; LINE_SIZE];
    show_all(rt, &mut buffer, &mut line);
}
