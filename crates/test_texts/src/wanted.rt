// What a text must give, in lent buffers that hold 170 at each place before.
ghost use Rattle.std.specs.Prelude.{◌<◌, ◌≤◌, length};

use bits::reads::wide;
use limits::{FAULT_ROOM, PROGRAM_ROOM};
use tally::Tally;
use translator::Refusal;

// Lent places past the room that is asked for.
const PAST: usize = 16;

// The number and the count of a verdict.
fn told(verdict: Result<usize, Refusal>) -> (usize, usize) {
    match verdict {
        Ok(count) => (0, count),
        Err(refusal) => (refusal.number() as usize, refusal.count()),
    }
}

// Writes record i of a program: kind, operand, line and bits.
pub fn record(program: &mut [u8], i: usize, kind: u64, operand: u64, line: u64, value: u64)
    requires { i < 4096 }
{
    let o = i * 16;
    bits::put_low(&mut *program, o, 2, kind);
    bits::put_low(&mut *program, o + 2, 2, operand);
    bits::put_low(&mut *program, o + 4, 4, line);
    bits::put_low(program, o + 8, 8, value);
}

// A program buffer as it is lent, for the records of a text.
pub fn blank() -> [u8; 4096] {
    [170u8; 4096]
}

// Whether two buffers have the same bytes, and as many.
pub fn same(a: &[u8], b: &[u8]) -> bool {
    a == b
}

// The text has this number and count with these buffers lent, and they then hold what is wanted.
pub fn lent(
    rt: &impl Print,
    t: &mut Tally,
    text: &[u8],
    faults: &mut [u8],
    program: &mut [u8],
    number: usize,
    count: usize,
    list: &[u8],
    records: &[u8],
) {
    let said = told(translator::translate(text, &mut *faults, &mut *program));
    t.number(rt, said.0, number);
    t.number(rt, said.1, count);
    t.right(rt, same(faults, list));
    t.right(rt, same(program, records));
}

// ---- faults, as a listing has them: line, code, line of the place and column of each, spaces between; and a comma
// between two faults.

// The numbers of a fault.
const NUMBERS: usize = 4;

// A number with one byte more behind it: a digit goes on with it, a space begins another, a comma is passed over.
fn read_on(n: u64, b: u8) -> u64 {
    if b == b' ' {
        return 0;
    }
    if b < b'0' {
        return n;
    }
    n % 65536 * 10 + wide(b) - 48
}

// The place in the list of the number that is being read, with one byte more: a space moves it by two.
fn move_on(at: usize, b: u8) -> usize {
    if b == b' ' {
        if at < FAULT_ROOM {
            return at + 2;
        }
    }
    at
}

// How many faults there are up to the number at a place.
fn fault_count(at: usize) -> usize {
    (at / 2 + 1) / NUMBERS
}

// Writes such faults to a list, two bytes for each number, low first; how many faults.
pub fn put_faults(wanted: &[u8], list: &mut [u8]) -> usize {
    let mut n: u64 = 0;
    let mut at: usize = 0;
    for b in wanted {
        n = read_on(n, *b);
        at = move_on(at, *b);
        bits::put_low(&mut *list, at, 2, n);
    }
    fault_count(at)
}

// The text is refused with this number and these faults, and nothing else is written.
pub fn faulty(rt: &impl Print, t: &mut Tally, text: &[u8], number: usize, wanted: &[u8]) {
    let mut faults = [170u8; FAULT_ROOM + PAST];
    let mut program = [170u8; 4096];
    let mut list = [170u8; FAULT_ROOM + PAST];
    let count = put_faults(wanted, &mut list);
    lent(
        rt,
        t,
        text,
        &mut faults,
        &mut program,
        number,
        count,
        &list,
        &blank(),
    );
}

// The first n bytes of a text are refused so; a text that is shorter counts as one that differs.
pub fn faulty_front(
    rt: &impl Print,
    t: &mut Tally,
    text: &[u8],
    n: usize,
    number: usize,
    wanted: &[u8],
) {
    if text.len() < n {
        t.right(rt, false);
        return;
    }
    faulty(rt, t, &text[..n], number, wanted);
}

// The place of the next bar from a place on, or the end.
fn next_bar(table: &[u8], at: usize) -> usize
    requires { at ≤ length table.now }
    ensures { (at ≤ result) × (result ≤ length table.now) }
{
    for i in at..table.len() {
        if table[i] == b'|' {
            return i;
        }
    }
    table.len()
}

// Each text of a table is refused with this number. A row has the faults, a bar, the text and a bar; what is no row
// counts as a text that differs.
pub fn refused(rt: &impl Print, t: &mut Tally, number: usize, table: &[u8]) {
    let mut at: usize = 0;
    while at < table.len() {
        let bar = next_bar(table, at);
        if table.len() <= bar {
            t.right(rt, false);
            return;
        }
        let text = bar + 1;
        let end = next_bar(table, text);
        if table.len() <= end {
            t.right(rt, false);
            return;
        }
        faulty(rt, t, &table[text..end], number, &table[at..bar]);
        at = end + 1;
    }
}

// ---- programs, and nothing

// The text is translated into so many records, these, and nothing else is written.
pub fn translated(rt: &impl Print, t: &mut Tally, text: &[u8], count: usize, wanted: &[u8; 4096]) {
    let mut faults = [170u8; FAULT_ROOM];
    let mut program = [170u8; 4096];
    let kept = [170u8; FAULT_ROOM];
    lent(
        rt,
        t,
        text,
        &mut faults,
        &mut program,
        0,
        count,
        &kept,
        wanted,
    );
}

// The text is translated into so many records, those of the whole program room, and nothing else is written.
pub fn exact(
    rt: &impl Print,
    t: &mut Tally,
    text: &[u8],
    count: usize,
    wanted: &[u8; PROGRAM_ROOM],
) {
    let mut faults = [170u8; FAULT_ROOM];
    let mut program = [170u8; PROGRAM_ROOM];
    let kept = [170u8; FAULT_ROOM];
    lent(
        rt,
        t,
        text,
        &mut faults,
        &mut program,
        0,
        count,
        &kept,
        wanted,
    );
}

// The text is refused with this number or has no records, and nothing is written.
pub fn silent(rt: &impl Print, t: &mut Tally, text: &[u8], number: usize) {
    let mut faults = [170u8; FAULT_ROOM];
    let mut program = [170u8; PROGRAM_ROOM];
    let list = [170u8; FAULT_ROOM];
    let kept = [170u8; PROGRAM_ROOM];
    lent(
        rt,
        t,
        text,
        &mut faults,
        &mut program,
        number,
        0,
        &list,
        &kept,
    );
}
