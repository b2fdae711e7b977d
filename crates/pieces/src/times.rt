// Ranges, @ times, offsets and the suffix of a subquery (ast.rs, `get_time_suffix_string`): @ stands before offset.
ghost use Rattle.std.specs.Prelude.{◌≡◌, ◌+◌, ◌≤◌, length};
ghost use Rattle.base.specs.Splice.{Wrote};
ghost use Rattle.page.specs.Answers.{itself, option_of};
ghost use Rattle.records.specs.Answers.{at_modifier_of, offset_of};
ghost use Rattle.leaves.specs.Duration.{display_duration};
ghost use Rattle.text.specs.Display.{optional, display_times, display_suffix};
ghost use Rattle.text.specs.Layout.{display_range};
ghost use Rattle.text.specs.Answers.{times_of};
ghost use Rattle.pieces.specs.Times.{spaced_at, spaced_offset};

use records::{AtModifier, Offset};
use text::Times;

fn at_len(at: Option<AtModifier>) -> usize
    ensures { (result ≡ length (optional spaced_at (option_of at_modifier_of at))) × (result ≤ 27) }
{
    match at {
        None => 0,
        Some(a) => leaves::at_len(a) + 1,
    }
}

fn put_at(time: Option<AtModifier>, out: &mut [u8], at: usize) -> usize
    requires { at + length (optional spaced_at (option_of at_modifier_of time)) ≤ length out.old }
    ensures { Wrote out.old out.new at (optional spaced_at (option_of at_modifier_of time)) result }
{
    match time {
        None => at,
        Some(a) => {
            let next = page::put_byte(b' ', out, at);
            leaves::put_at(a, out, next)
        }
    }
}

fn offset_len(offset: Option<Offset>) -> usize
    ensures { (result ≡ length (optional spaced_offset (option_of offset_of offset))) × (result ≤ 163) }
{
    match offset {
        None => 0,
        Some(o) => leaves::offset_len(o) + 8,
    }
}

fn put_offset(offset: Option<Offset>, out: &mut [u8], at: usize) -> usize
    requires { at + length (optional spaced_offset (option_of offset_of offset)) ≤ length out.old }
    ensures { Wrote out.old out.new at (optional spaced_offset (option_of offset_of offset)) result }
{
    match offset {
        None => at,
        Some(o) => {
            let next = page::put_bytes(b" offset ", out, at);
            leaves::put_offset(o, out, next)
        }
    }
}

pub fn times_len(times: Times) -> usize
    ensures { (result ≡ length (display_times (times_of times))) × (result ≤ 190) }
{
    let at = times.at;
    let offset = times.offset;
    at_len(at) + offset_len(offset)
}

pub fn put_times(times: Times, out: &mut [u8], at: usize) -> usize
    requires { at + length (display_times (times_of times)) ≤ length out.old }
    ensures { Wrote out.old out.new at (display_times (times_of times)) result }
{
    let time = times.at;
    let offset = times.offset;
    let next = put_at(time, out, at);
    put_offset(offset, out, next)
}

pub fn range_len(range: Option<u64>) -> usize
    ensures { (result ≡ length (display_range (option_of itself range))) × (result ≤ 156) }
{
    match range {
        None => 0,
        Some(n) => leaves::duration_len(n) + 2,
    }
}

pub fn put_range(range: Option<u64>, out: &mut [u8], at: usize) -> usize
    requires { at + length (display_range (option_of itself range)) ≤ length out.old }
    ensures { Wrote out.old out.new at (display_range (option_of itself range)) result }
{
    match range {
        None => at,
        Some(n) => {
            let number = page::put_byte(b'[', out, at);
            let closing = leaves::put_duration(n, out, number);
            page::put_byte(b']', out, closing)
        }
    }
}

fn step_len(step: Option<u64>) -> usize
    ensures { (result ≡ length (optional display_duration (option_of itself step))) × (result ≤ 154) }
{
    match step {
        None => 0,
        Some(n) => leaves::duration_len(n),
    }
}

fn put_step(step: Option<u64>, out: &mut [u8], at: usize) -> usize
    requires { at + length (optional display_duration (option_of itself step)) ≤ length out.old }
    ensures { Wrote out.old out.new at (optional display_duration (option_of itself step)) result }
{
    match step {
        None => at,
        Some(n) => leaves::put_duration(n, out, at),
    }
}

pub fn subquery_len(range: u64, step: Option<u64>, times: Times) -> usize
    ensures { result ≡ length (display_suffix range (option_of itself step) (times_of times)) }
{
    leaves::duration_len(range) + step_len(step) + times_len(times) + 3
}

pub fn put_subquery(range: u64, step: Option<u64>, times: Times, out: &mut [u8], at: usize) -> usize
    requires { at + length (display_suffix range (option_of itself step) (times_of times)) ≤ length out.old }
    ensures { Wrote out.old out.new at (display_suffix range (option_of itself step) (times_of times)) result }
{
    let number = page::put_byte(b'[', out, at);
    let colon = leaves::put_duration(range, out, number);
    let second = page::put_byte(b':', out, colon);
    let closing = put_step(step, out, second);
    let behind = page::put_byte(b']', out, closing);
    put_times(times, out, behind)
}
