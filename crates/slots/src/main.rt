// The slots program: reads a text from standard input to its end, and writes a line for each of its definitions: slot,
// name, what it is, and first line, with a space between. For a refused text it writes nothing.
#![tactic(auto)]

ghost use Rattle.std.specs.Prelude.{◌<◌, ◌≤◌, length};

use bits::reads::{byte_at, wide};
use limits::{DEFINITIONS, FAULT_ROOM, ROSTER_BYTES, TEXT_BYTES};
use std::io;
use std::io::Read;

// A byte more than a text may have: what is longer is refused by its size, whatever follows.
const READ: usize = TEXT_BYTES + 1;

// Room for the entries of all definitions.
const ROSTER: usize = ROSTER_BYTES * DEFINITIONS;

// Where an entry has what the name is, the slot and the line; the name stands before them.
const WHAT_AT: usize = 8;

const SLOT_AT: usize = 10;

const LINE_AT: usize = 12;

// More bytes than a line has: a slot and a first line of four digits, a name of six letters, what it is, three spaces
// and its end.
const LINE: usize = 20;

// More than all lines have.
const LINES: usize = LINE * DEFINITIONS;

// ---- lines. Each writer answers how many bytes there are then.

// Writes a byte behind the first n. One for which there is no place is counted all the same.
fn put_byte(out: &mut [u8; LINES], n: usize, b: u8) -> usize {
    if n < LINES {
        out[n] = b;
        return n + 1;
    }
    LINES + 1
}

// Writes bytes behind the first n0.
fn put_bytes(out: &mut [u8; LINES], n0: usize, bytes: &[u8]) -> usize {
    let mut n = n0;
    for b in bytes {
        n = put_byte(&mut *out, n, *b);
    }
    n
}

// Writes a number in decimal digits.
fn put_number(out: &mut [u8; LINES], n: usize, number: u64) -> usize {
    let mut digits = itoa::Buffer::new();
    put_bytes(out, n, digits.format(number).as_bytes())
}

// Writes a number and a space.
fn put_column(out: &mut [u8; LINES], n: usize, number: u64) -> usize {
    let space = put_number(&mut *out, n, number);
    put_byte(out, space, b' ')
}

// Writes a byte of a name, unless it is a zero that fills it up.
fn put_letter(out: &mut [u8; LINES], n: usize, b: u8) -> usize {
    if b == 0 {
        return n;
    }
    put_byte(out, n, b)
}

// Writes the name of the entry at a place of the roster, and a space.
fn put_name(out: &mut [u8; LINES], n0: usize, roster: &[u8; ROSTER], at: usize) -> usize
    requires { at < 16368 }
{
    let mut n = n0;
    for i in 0..WHAT_AT {
        n = put_letter(&mut *out, n, byte_at(roster, at + i));
    }
    put_byte(out, n, b' ')
}

// The number of two bytes at a place, low first. No slot and no line needs more.
fn pair_at(roster: &[u8; ROSTER], at: usize) -> u64
    requires { at < 16384 }
{
    wide(byte_at(roster, at)) + 256 * wide(byte_at(roster, at + 1))
}

// Writes the line of entry i.
fn put_line(out: &mut [u8; LINES], n: usize, roster: &[u8; ROSTER], i: usize) -> usize
    requires { i < 1023 }
{
    let at = ROSTER_BYTES * i;
    let name = put_column(&mut *out, n, pair_at(roster, at + SLOT_AT));
    let what = put_name(&mut *out, name, roster, at);
    let line = put_column(&mut *out, what, wide(byte_at(roster, at + WHAT_AT)));
    let end = put_number(&mut *out, line, pair_at(roster, at + LINE_AT));
    put_byte(out, end, b'\n')
}

// Writes the lines of so many entries.
fn put_lines(out: &mut [u8; LINES], roster: &[u8; ROSTER], count: usize) -> usize {
    let mut n: usize = 0;
    for i in 0..DEFINITIONS {
        if count <= i {
            return n;
        }
        n = put_line(&mut *out, n, roster, i);
    }
    n
}

// ---- the program

// Prints the first m bytes, or says that there are not so many.
fn write_front(rt: &(impl Print + Eprint), out: &[u8; LINES], m: usize) -> io::Result<()> {
    let lines: &[u8] = out;
    if lines.len() < m {
        return eprintln!(rt; "the lines are longer than their room");
    }
    rt.write_all(&lines[..m])
}

// Prints the lines of a text, none where it is refused.
fn print_slots(rt: &(impl Print + Eprint), text: &[u8]) -> io::Result<()> {
    let mut faults = [0u8; FAULT_ROOM];
    let mut roster = [0u8; ROSTER];
    let mut out = [0u8; LINES];
    let count = translator::names(text, &mut faults, &mut roster).unwrap_or(0);
    let m = put_lines(&mut out, &roster, count);
    write_front(rt, &out, m)
}

// Reads until the buffer is full, the input ends or a read fails; how many bytes.
fn read_full(input: &mut impl Read, buf: &mut [u8]) -> usize
    ensures { result ≤ length buf.new }
{
    let mut done: usize = 0;
    while done < buf.len() {
        match input.read(&mut buf[done..]) {
            Ok(0) => return done,
            Ok(n) => done += n,
            Err(_) => return done,
        }
    }
    done
}

// Whether the input has ended: a read gives no byte and does not fail.
fn at_end(input: &mut impl Read) -> bool {
    let mut byte = [0u8; 1];
    match input.read(&mut byte) {
        Ok(n) => n == 0,
        Err(_) => false,
    }
}

// Reads, asks for the names, prints. Of a text whose reading failed before its end nothing is printed.
fn main(rt: HostRuntime) -> io::Result<()> {
    let mut input = rt.stdin();
    let mut text = [0u8; READ];
    let n = read_full(&mut input, &mut text);
    if n < READ {
        if !at_end(&mut input) {
            return eprintln!(&rt; "the text could not be read to its end");
        }
    }
    print_slots(&rt, &text[..n])
}
