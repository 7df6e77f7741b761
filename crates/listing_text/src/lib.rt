// The listing of a text, as bytes.
#![tactic(auto)]

ghost use Rattle.std.specs.Prelude.{◌≡◌, Err, [], ◌∷◌, ◌++◌, ◌<◌, ◌≤◌, min};
ghost use Rattle.limits.specs.Limits.{most_records};
ghost use Rattle.laws.specs.Places.{gather};
ghost use Rattle.laws.specs.Put.{Put};
ghost use Rattle.records.specs.Record.{field};
ghost use Rattle.translator.specs.Contract.{number_in, count_in};
ghost use Rattle.listing_text.specs.Listing.{figures, line, line2, line4};
ghost use Rattle.listing_text.specs.Contract.{Lists};
ghost use Rattle.listing_text.specs.Written.{fault_at, ordered_at, head, InReach};

use bits::reads::short_at;
use limits::{FAULT_BYTES, FAULT_ROOM, PROGRAM_ROOM, STATEMENTS};
use translator::{Ordered, Refusal};

// ---- numbers and lines. Each writer answers the place behind what it wrote; past the end of the lent bytes nothing is
// written.

// Writes a byte, if there is a place for it.
fn put_byte(b: u8, out: &mut [u8], at: usize) -> usize
    requires { InReach (b ∷ []) at }
    ensures { Put (b ∷ []) at result out.old out.new }
{
    if out.len() <= at {
        return at + 1;
    }
    out[at] = b;
    at + 1
}

// Writes a number in decimal digits.
fn put_figures(n: u64, out: &mut [u8], at: usize) -> usize
    requires { InReach (figures n) at }
    ensures { Put (figures n) at result out.old out.new }
{
    if n < 10 {
        return put_byte(48 + n as u8, out, at);
    }
    let last = put_figures(n / 10, &mut *out, at);
    put_byte(48 + (n % 10) as u8, out, last)
}

// Writes a line of one number.
fn put_line(n: u64, out: &mut [u8], at: usize) -> usize
    requires { InReach (line n) at }
    ensures { Put (line n) at result out.old out.new }
{
    let end = put_figures(n, &mut *out, at);
    put_byte(10, out, end)
}

// Writes a line of two numbers.
fn put_pair(m: u64, n: u64, out: &mut [u8], at: usize) -> usize
    requires { InReach (line2 m n) at }
    ensures { Put (line2 m n) at result out.old out.new }
{
    let gap = put_figures(m, &mut *out, at);
    let second = put_byte(32, &mut *out, gap);
    put_line(n, out, second)
}

// Writes a line of four numbers.
fn put_row(k: u64, l: u64, m: u64, n: u64, out: &mut [u8], at: usize) -> usize
    requires { InReach (line4 k l m n) at }
    ensures { Put (line4 k l m n) at result out.old out.new }
{
    let gap = put_figures(k, &mut *out, at);
    let second = put_byte(32, &mut *out, gap);
    let next = put_figures(l, &mut *out, second);
    let third = put_byte(32, &mut *out, next);
    put_pair(m, n, out, third)
}

// Writes the first line: two letters, a space and a number.
fn put_head(a: u8, b: u8, n: u64, out: &mut [u8]) -> usize
    requires { InReach (head a b n) 0 }
    ensures { Put (head a b n) 0 result out.old out.new }
{
    let second = put_byte(a, &mut *out, 0);
    let gap = put_byte(b, &mut *out, second);
    let number = put_byte(32, &mut *out, gap);
    put_line(n, out, number)
}

// ---- faults and ordered statements

// The number of n bytes from a place on, low first, at most eight; those past the end are 0.
fn low_at(s: &[u8], at: usize, n: usize) -> u64
    ensures { result ≡ field s.now at (min n 8) }
{
    if s.len() < at {
        return 0;
    }
    bits::get_low(&s[at..], n)
}

// Writes line and code of a fault, line and column of its place.
fn put_fault_line(list: &[u8], i: usize, out: &mut [u8], at: usize) -> usize
    requires { (i < most_records) × InReach (fault_at list.now i) at }
    ensures { Put (fault_at list.now i) at result out.old out.new }
{
    let o = i * FAULT_BYTES;
    let line = low_at(list, o, 2);
    let code = low_at(list, o + 2, 1);
    let place = low_at(list, o + 4, 2);
    let column = low_at(list, o + 6, 2);
    put_row(line, code, place, column, out, at)
}

// Writes the first lines of so many ordered units.
fn put_units(ordered: &[u16], count: usize, out: &mut [u8], at: usize) -> usize
    requires { (count ≤ most_records) × InReach (gather (ordered_at ordered.now) count 0) at }
    ensures { Put (gather (ordered_at ordered.now) count 0) at result out.old out.new }
{
    let mut w = at;
    for i in 0..count {
        w = put_line(short_at(ordered, i) as u64, &mut *out, w);
    }
    w
}

// Writes the lines of so many faults.
fn put_faults(list: &[u8], count: usize, out: &mut [u8], at: usize) -> usize
    requires { (count ≤ most_records) × InReach (gather (fault_at list.now) count 0) at }
    ensures { Put (gather (fault_at list.now) count 0) at result out.old out.new }
{
    let mut w = at;
    for i in 0..count {
        w = put_fault_line(list, i, &mut *out, w);
    }
    w
}

// ---- the listing

// Writes the listing of a translated text: its records, then the first lines of its ordered units.
fn put_order(done: Ordered, ordered: &[u16], out: &mut [u8]) -> usize
    requires { (done.records ≤ most_records) × (done.units ≤ most_records) }
    ensures { Put (head 79 75 done.records ++ gather (ordered_at ordered.now) done.units 0) 0 result
        out.old out.new }
{
    let at = put_head(b'O', b'K', done.records as u64, &mut *out);
    put_units(ordered, done.units, out, at)
}

// Writes that of a refusal: its number, then its faults.
fn put_refusal(refusal: Refusal, faults: &[u8], out: &mut [u8]) -> usize
    requires { count_in (Err refusal) ≤ most_records }
    ensures { Put (head 78 79 (number_in (Err refusal)) ++ gather (fault_at faults.now) (count_in (Err refusal)) 0) 0
        result out.old out.new }
{
    let at = put_head(b'N', b'O', u64::from(refusal.number()), &mut *out);
    put_faults(faults, refusal.count(), out, at)
}

// The listing of a text, written to the front of what is lent, as far as there are places; how many bytes it has.
pub fn list(text: &[u8], out: &mut [u8]) -> usize
    ensures { Lists text.now out.old result out.new }
{
    let mut faults = [0u8; FAULT_ROOM];
    let mut program = [0u8; PROGRAM_ROOM];
    let mut ordered = [0u16; STATEMENTS];
    let answer = translator::translate_in_order(text, &mut faults, &mut program, &mut ordered);
    match answer {
        Ok(done) => put_order(done, &ordered, out),
        Err(refusal) => put_refusal(refusal, &faults, out),
    }
}
