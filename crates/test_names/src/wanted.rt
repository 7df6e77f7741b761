// What asking for names must give, in lent buffers that hold 7 at each place before.
use limits::{DEFINITIONS, FAULT_BYTES, FAULT_ROOM, ROSTER_BYTES};
use tally::Tally;
use translator::Refusal;

// Room for the entries of all definitions and one more.
pub const ROOM: usize = ROSTER_BYTES * DEFINITIONS + ROSTER_BYTES;

// Lent places past the room that is asked for.
const PAST: usize = 16;

// ---- answers

// An answer in numbers: its number and its count, of faults or of entries.
#[derive(Clone, Copy, PartialEq)]
pub struct Said {
    pub number: u8,
    pub count: usize,
}

// So many entries.
fn so_many(count: usize) -> Said {
    Said { number: 0, count }
}

// A refusal without faults.
pub fn refused(number: u8) -> Said {
    Said { number, count: 0 }
}

// Those of an answer.
fn told(answer: Result<usize, Refusal>) -> Said {
    match answer {
        Ok(count) => so_many(count),
        Err(refusal) => Said {
            number: refusal.number(),
            count: refusal.count(),
        },
    }
}

// ---- lent buffers

// Whether two buffers have the same bytes, and as many.
fn same(a: &[u8], b: &[u8]) -> bool {
    a == b
}

// With these buffers lent the text has this answer, and they then hold what is wanted.
pub fn lent(
    rt: &impl Print,
    t: &mut Tally,
    text: &[u8],
    faults: &mut [u8],
    out: &mut [u8],
    answer: Said,
    list: &[u8],
    roster: &[u8],
) {
    let got = told(translator::names(text, &mut *faults, &mut *out));
    t.right(rt, got == answer);
    t.right(rt, same(faults, list));
    t.right(rt, same(out, roster));
}

// With the first n of ROOM bytes lent for names the text has this answer, they then hold the first n of what is wanted,
// and no fault is written. Where there are fewer than n, that counts as a text that differs.
fn with_room(rt: &impl Print, t: &mut Tally, text: &[u8], n: usize, answer: Said, wanted: &[u8]) {
    if ROOM < n {
        t.right(rt, false);
        return;
    }
    if wanted.len() < n {
        t.right(rt, false);
        return;
    }
    let mut faults = [7u8; FAULT_ROOM];
    let mut out = [7u8; ROOM];
    let list = [7u8; FAULT_ROOM];
    lent(
        rt,
        t,
        text,
        &mut faults,
        &mut out[..n],
        answer,
        &list,
        &wanted[..n],
    );
}

// With n bytes lent the text has this answer, and nothing is written.
fn unwritten(rt: &impl Print, t: &mut Tally, text: &[u8], n: usize, answer: Said) {
    let kept = [7u8; ROOM];
    with_room(rt, t, text, n, answer, &kept);
}

// ---- names, none, faults, and nothing

// Entries at the front of lent bytes.
fn in_front(entries: &[u8]) -> [u8; ROOM] {
    let mut wanted = [7u8; ROOM];
    bits::put_bytes(&mut wanted, 0, entries);
    wanted
}

// The text has these entries, at least one: with more room than they need, with as much, and with a byte less, which is
// 10.
pub fn named(rt: &impl Print, t: &mut Tally, text: &[u8], entries: &[u8]) {
    let n = entries.len();
    if n == 0 {
        t.right(rt, false);
        return;
    }
    let wanted = in_front(entries);
    let count = n / ROSTER_BYTES;
    with_room(rt, t, text, ROOM, so_many(count), &wanted);
    with_room(rt, t, text, n, so_many(count), &wanted);
    unwritten(rt, t, text, n - 1, refused(10));
}

// The text has no definition: with room, and without.
pub fn nameless(rt: &impl Print, t: &mut Tally, text: &[u8]) {
    unwritten(rt, t, text, ROOM, so_many(0));
    unwritten(rt, t, text, 0, so_many(0));
}

// The text is refused with this number, and nothing is written: with room, and without.
pub fn silent(rt: &impl Print, t: &mut Tally, text: &[u8], number: u8) {
    unwritten(rt, t, text, ROOM, refused(number));
    unwritten(rt, t, text, 0, refused(number));
}

// With these bytes lent for names the text is refused with this number and these faults, and the bytes are kept.
fn listed(
    rt: &impl Print,
    t: &mut Tally,
    text: &[u8],
    out: &mut [u8],
    number: u8,
    faults: &[u8],
    kept: &[u8],
) {
    let mut list = [7u8; FAULT_ROOM + PAST];
    let mut wanted = [7u8; FAULT_ROOM + PAST];
    bits::put_bytes(&mut wanted, 0, faults);
    let answer = Said {
        number,
        count: faults.len() / FAULT_BYTES,
    };
    lent(rt, t, text, &mut list, out, answer, &wanted, kept);
}

// So it is with room for four names, and without.
pub fn faulty(rt: &impl Print, t: &mut Tally, text: &[u8], number: u8, faults: &[u8]) {
    let mut out = [7u8; 4 * ROSTER_BYTES];
    let kept = [7u8; 4 * ROSTER_BYTES];
    let mut none = [7u8; 0];
    listed(rt, t, text, &mut out, number, faults, &kept);
    listed(rt, t, text, &mut none, number, faults, b"");
}
