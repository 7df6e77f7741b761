// Comparisons, lent buffers and records.
ghost use Rattle.std.specs.Prelude.{◌≤◌, ◌<◌, length};
ghost use Rattle.limits.specs.Limits.{slots, most_records};

use evaluator::Refusal;
use limits::{RECORD_BYTES, SLOTS};
use tally::Tally;

// A float has the wanted bits. A NaN has those of the one NaN.
pub fn float(rt: &impl Print, t: &mut Tally, got: f64, wanted: u64) {
    t.right(rt, bits::bits_of(got) == wanted);
}

// A place of a lent buffer has the wanted bits.
pub fn at(rt: &impl Print, t: &mut Tally, values: &[f64; SLOTS], i: usize, wanted: u64)
    requires { i < slots }
{
    float(rt, t, values[i], wanted);
}

// The number of an answer: that of the refusal, or 0.
pub fn number_in(a: &Result<(), Refusal>) -> usize {
    match a {
        Ok(()) => 0,
        Err(refusal) => refusal.number(),
    }
}

// The record that it names, or 0.
pub fn place_in(a: &Result<(), Refusal>) -> usize {
    match a {
        Ok(()) => 0,
        Err(refusal) => refusal.place(),
    }
}

// What lent buffers hold: 7 at each place.
pub fn sevens() -> [f64; SLOTS] {
    [7.0; SLOTS]
}

// How many places still hold 7.
pub fn kept(values: &[f64; SLOTS]) -> usize {
    kept_in(values)
}

// The same of a buffer of any length.
pub fn kept_in(values: &[f64]) -> usize
    ensures { result ≤ length values.now }
{
    let mut n: usize = 0;
    for value in values {
        if *value == 7.0 {
            n += 1;
        }
    }
    n
}

// Writes record i of a program: its kind with byte 1 above it, line 1, slot and bits.
pub fn record(p: &mut [u8], i: usize, kind: u64, slot: u64, value: u64)
    requires { i < most_records }
{
    let o = i * RECORD_BYTES;
    bits::put_low(p, o, 2, kind);
    bits::put_low(p, o + 2, 2, slot);
    bits::put_low(p, o + 4, 4, 1);
    bits::put_low(p, o + 8, 8, value);
}

// The same record from place i up to place e.
pub fn records(p: &mut [u8], i0: usize, e: usize, kind: u64, slot: u64, value: u64)
    requires { e < most_records }
{
    for i in i0..e {
        record(p, i, kind, slot, value);
    }
}

// Four records from record i on: two slots are pushed, a kind takes them, and the value is stored to another slot.
pub fn of_slots(p: &mut [u8], i: usize, a: u64, b: u64, kind: u64, to: u64)
    requires { i < 1000 }
{
    record(p, i, 4, a, 0);
    record(p, i + 1, 4, b, 0);
    record(p, i + 2, kind, 0, 0);
    record(p, i + 3, 13, to, 0);
}

// The same with two values.
pub fn of_values(p: &mut [u8], i: usize, a: u64, b: u64, kind: u64, to: u64)
    requires { i < 1000 }
{
    record(p, i, 3, 0, a);
    record(p, i + 1, 3, 0, b);
    record(p, i + 2, kind, 0, 0);
    record(p, i + 3, 13, to, 0);
}
