// Texts at limits and their rosters, which rules make.
ghost use Rattle.std.specs.Prelude.{◌<◌};

use crate::wanted::{named, silent};
use limits::{DEFINITIONS, ROSTER_BYTES};
use tally::Tally;

// ---- names and entries

// The last figure of a number.
fn figure(k: usize) -> u8 {
    48 + (k % 10) as u8
}

// A name of a letter and the last three figures of a number.
fn name(letter: u8, k: usize) -> [u8; 4] {
    [letter, figure(k / 100), figure(k / 10), figure(k)]
}

// Writes entry i of a roster, which holds zeros before: a name, what it is, slot i + 1 and a line.
fn put_entry(roster: &mut [u8], i: usize, name: [u8; 4], what: u64, line: u64)
    requires { i < 1024 }
{
    let at = ROSTER_BYTES * i;
    bits::put_bytes(&mut *roster, at, &name);
    bits::put_low(&mut *roster, at + 8, 2, what);
    bits::put_low(&mut *roster, at + 10, 2, i as u64 + 1);
    bits::put_low(roster, at + 12, 4, line);
}

// ---- definitions

// Lines of the pairs of constants.
const PAIRS: usize = 512;

// The bytes of such a line.
const PAIR: usize = 20;

// Writes line k of them.
fn put_pair(text: &mut [u8], k: usize)
    requires { k < 512 }
{
    let at = PAIR * k;
    bits::put_bytes(&mut *text, at, b"CONST A000=1,B000=1\n");
    bits::put_bytes(&mut *text, at + 6, &name(b'A', k));
    bits::put_bytes(text, at + 13, &name(b'B', k));
}

// 1,024 constants in 512 statements.
fn pairs() -> [u8; PAIR * PAIRS] {
    let mut text = [0u8; PAIR * PAIRS];
    for k in 0..PAIRS {
        put_pair(&mut text, k);
    }
    text
}

// The letter of definition i.
fn letter(i: usize) -> u8 {
    if i % 2 == 0 {
        return b'A';
    }
    b'B'
}

// The entries of all but the last: 16,368 bytes.
fn pairs_roster() -> [u8; ROSTER_BYTES * DEFINITIONS] {
    let mut roster = [0u8; ROSTER_BYTES * DEFINITIONS];
    for i in 0..DEFINITIONS {
        put_entry(&mut roster, i, name(letter(i), i / 2), 1, i as u64 / 2 + 1);
    }
    roster
}

// The first n bytes of a text have these entries; a text that is shorter counts as one that differs.
fn named_front(rt: &impl Print, t: &mut Tally, text: &[u8], n: usize, entries: &[u8]) {
    if text.len() < n {
        t.right(rt, false);
        return;
    }
    named(rt, t, &text[..n], entries);
}

// 1,023 definitions have their entries in 16,368 bytes, and in 16,367 none has: 10. With the last, of eight bytes, they
// are too many: 6.
fn definitions(rt: &impl Print, t: &mut Tally) {
    let text = pairs();
    named_front(rt, t, &text, PAIR * PAIRS - 8, &pairs_roster());
    silent(rt, t, &text, 6);
}

// ---- records

// The bytes of a sum, and of the text of sums.
const SUM: usize = 72;

const SUMS: usize = 4237;

// Byte r of a sum: a name, an equals sign, ones with plus signs between, byte 10.
fn sum_byte(r: usize) -> u8 {
    if r == 0 {
        return b'A';
    }
    if r == 1 {
        return b'=';
    }
    if r == SUM - 1 {
        return b'\n';
    }
    if r % 2 == 0 {
        return b'1';
    }
    b'+'
}

// A block of 58 sums of 35 ones and one of 17, and behind it a statement of four bytes. The first sum begins at byte
// 14, the last at 4190 with 35 bytes.
fn sums(last: &[u8; 4]) -> [u8; SUMS] {
    let mut text = [0u8; SUMS];
    for (i, byte) in text.iter_mut().enumerate() {
        *byte = sum_byte((i + 58) % SUM);
    }
    bits::put_bytes(&mut text, 0, b"PROCED A=P(T)\n");
    bits::put_bytes(&mut text, 4225, b"\nENDPRO\n");
    bits::put_bytes(&mut text, 4233, last);
    text
}

// A sum of r ones has 2 r records, so these have 58 * 70 + 34 = 4094. With two more they are as many as there may be.
// One more is too many, 8, whatever room there is for names.
fn records(rt: &impl Print, t: &mut Tally) {
    named(
        rt,
        t,
        &sums(b"T=+1"),
        b"A\0\0\0\0\0\0\0\x03\0\x01\0\x02\0\0\0\
          T\0\0\0\0\0\0\0\x03\0\x02\0\x3e\0\0\0",
    );
    silent(rt, t, &sums(b"T=-1"), 8);
}

// ---- drafts

// The blocks, and the bytes and lines of each.
const BLOCKS: usize = 64;

const BLOCK: usize = 300;

const BLOCK_LINES: u64 = 6;

// Their text, and behind it that of a constant.
const HEADERS: usize = BLOCK * BLOCKS + 9;

// Writes bytes at a place, and among them name k.
fn put_named(text: &mut [u8], at: usize, bytes: &[u8], name_at: usize, k: usize) {
    bits::put_bytes(&mut *text, at, bytes);
    bits::put_bytes(text, name_at, &name(b'A', k));
}

// Writes the ends of three lines of a header that begins at a place.
fn put_dots(text: &mut [u8], at: usize)
    requires { at < 19200 }
{
    bits::put_bytes(&mut *text, at + 68, b"...\n");
    bits::put_bytes(&mut *text, at + 140, b"...\n");
    bits::put_bytes(text, at + 212, b"...\n");
}

// Writes what block k has but its inputs: a header of four lines, an assignment and an end.
fn put_block(text: &mut [u8], k: usize)
    requires { k < 64 }
{
    let at = BLOCK * k;
    put_named(&mut *text, at, b"PROCED A000=P(", at + 7, k);
    put_dots(&mut *text, at);
    put_named(text, at + 283, b")\nA000=B \nENDPRO\n", at + 285, k);
}

// Byte i of inputs: the name B again and again, with commas between.
fn input_byte(i: usize) -> u8 {
    if i % 2 == 0 {
        return b'B';
    }
    b','
}

// As many of them as the text has bytes.
fn inputs() -> [u8; HEADERS] {
    let mut text = [0u8; HEADERS];
    for (i, byte) in text.iter_mut().enumerate() {
        *byte = input_byte(i);
    }
    text
}

// 64 blocks of 129 inputs each: more drafts than a quarter of the largest text has bytes.
fn headers() -> [u8; HEADERS] {
    let mut text = inputs();
    for k in 0..BLOCKS {
        put_block(&mut text, k);
    }
    bits::put_bytes(&mut text, BLOCK * BLOCKS, b"CONST B=1");
    text
}

// The entries of their outputs, each on the fifth line of its block, and that of the constant.
fn headers_roster() -> [u8; ROSTER_BYTES * BLOCKS + ROSTER_BYTES] {
    let mut roster = [0u8; ROSTER_BYTES * BLOCKS + ROSTER_BYTES];
    for k in 0..BLOCKS {
        put_entry(&mut roster, k, name(b'A', k), 3, BLOCK_LINES * k as u64 + 5);
    }
    put_entry(&mut roster, BLOCKS, [b'B', 0, 0, 0], 1, 385);
    roster
}

// A text that is read in the largest room.
fn drafts(rt: &impl Print, t: &mut Tally) {
    named(rt, t, &headers(), &headers_roster());
}

// All of these.
pub fn all(rt: &impl Print, t: &mut Tally) {
    definitions(rt, t);
    records(rt, t);
    drafts(rt, t);
}
