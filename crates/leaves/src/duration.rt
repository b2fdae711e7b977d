// Durations as seven counts, years down to milliseconds (util/duration.rs, `display_duration`).
// Years and weeks count only where they divide the rest: 90d is easier to read than 12w6d.
ghost use Rattle.std.specs.Prelude.{◌≡◌, ◌+◌, ◌<◌, ◌≤◌, length};
ghost use Rattle.base.specs.Splice.{Wrote};
ghost use Rattle.leaves.specs.Duration.{unit_at, unit_name, count_of, duration_counts, display_count, display_duration};

use crate::decimal::{decimal_len, put_decimal};
use page::{put_byte, put_bytes};

// The units in milliseconds: year, week, day, hour, minute, second, millisecond.
const UNITS: [u64; 7] = [31536000000, 604800000, 86400000, 3600000, 60000, 1000, 1];

// How many whole units are in the rest; an exact unit counts only if it divides the rest.
fn count_of(exact: bool, unit: u64, rest: u64) -> u64
    requires { 0 < unit }
    ensures { result ≡ count_of exact unit rest }
{
    if exact & (rest % unit != 0) {
        return 0;
    }
    rest / unit
}

// The seven counts: each unit's, of what those before it leave.
pub fn breakdown(ms: u64) -> [u64; 7]
    ensures { result ≡ duration_counts ms }
{
    let mut counts = [0u64; 7];
    let mut rest = ms;
    for (i, &unit) in UNITS.iter().enumerate() {
        let count = count_of(i < 2, unit, rest);
        counts[i] = count;
        rest -= count * unit;
    }
    counts
}

// The letters that units begin with; the last unit, `ms`, has an `s` after it.
const LETTERS: [u8; 7] = *b"ywdhmsm";

fn put_unit(unit: usize, out: &mut [u8], at: usize) -> usize
    requires { (unit < 7) × (at + length (unit_name unit) ≤ length out.old) }
    ensures { Wrote out.old out.new at (unit_name unit) result }
{
    let next = put_byte(LETTERS[unit], out, at);
    if unit == 6 {
        return put_byte(b's', out, next);
    }
    next
}

// A count with its unit, or nothing for 0.
fn put_count(count: u64, unit: usize, out: &mut [u8], at: usize) -> usize
    requires { (unit < 7) × (at + length (display_count count (unit_at unit).name) ≤ length out.old) }
    ensures { Wrote out.old out.new at (display_count count (unit_at unit).name) result }
{
    if count == 0 {
        return at;
    }
    let next = put_decimal(count, out, at);
    put_unit(unit, out, next)
}

fn count_len(count: u64, unit: usize) -> usize
    requires { unit < 7 }
    ensures { (result ≡ length (display_count count (unit_at unit).name)) × (result ≤ 22) }
{
    if count == 0 {
        return 0;
    }
    let digits = decimal_len(count);
    if unit == 6 {
        return digits + 2;
    }
    digits + 1
}

pub fn duration_len(ms: u64) -> usize
    ensures { (result ≡ length (display_duration ms)) × (result ≤ 154) }
{
    if ms == 0 {
        return 2;
    }
    let mut sum = 0;
    for (unit, &count) in breakdown(ms).iter().enumerate() {
        sum += count_len(count, unit);
    }
    sum
}

pub fn put_duration(ms: u64, out: &mut [u8], at: usize) -> usize
    requires { at + length (display_duration ms) ≤ length out.old }
    ensures { Wrote out.old out.new at (display_duration ms) result }
{
    if ms == 0 {
        return put_bytes(b"0s", out, at);
    }
    let mut pos = at;
    for (unit, &count) in breakdown(ms).iter().enumerate() {
        pos = put_count(count, unit, out, pos);
    }
    pos
}
