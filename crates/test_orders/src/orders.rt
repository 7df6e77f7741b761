// Orders as data, and a program in another order. A line has a number for each unit: the record at which that begins
// where the units stand in the first order, as the translator has put them.
ghost use Rattle.std.specs.Prelude.{◌<◌};

use bits::reads::{byte_at, index};
use limits::RECORD_BYTES;

// The furnace has so many records, and behind its constants and initials so many units.
pub const COUNT: usize = 597;

pub const UNITS: usize = 53;

// So many bytes.
pub const PROGRAM: usize = COUNT * RECORD_BYTES;

// How many numbers a line has, and where the next line begins.
#[derive(Drop)]
pub struct Line {
    pub count: usize,
    pub next: usize,
}

// ---- reading

// Whether a number begins at place i: a digit behind none.
fn begins(text: &[u8], i: usize) -> bool {
    if 0 < i && byte_at(text, i - 1).is_ascii_digit() {
        return false;
    }
    byte_at(text, i).is_ascii_digit()
}

// A number with one digit more. It stays as it is if that is no digit, or if no record has so large a number.
fn longer(number: u16, digit: u8) -> u16 {
    if !digit.is_ascii_digit() || 6000 < number {
        return number;
    }
    number * 10 + (digit - b'0') as u16
}

// The number whose digits begin at a place.
fn number_at(text: &[u8], from: usize) -> u16 {
    let mut number: u16 = 0;
    for i in from..text.len() {
        if !text[i].is_ascii_digit() {
            return number;
        }
        number = longer(number, text[i]);
    }
    number
}

// Puts a number behind the first n of an order. One for which there is no place is counted all the same.
fn put_number(order: &mut [u16; UNITS], n: usize, number: u16) -> usize {
    if n < UNITS {
        order[n] = number;
        return n + 1;
    }
    UNITS + 1
}

// Reads the numbers of the line that begins at a place. What is no digit parts them.
pub fn read_line(text: &[u8], from: usize, order: &mut [u16; UNITS]) -> Line {
    let mut count: usize = 0;
    let mut i = from;
    while i < text.len() {
        if text[i] == b'\n' {
            return Line { count, next: i + 1 };
        }
        if begins(text, i) {
            count = put_number(&mut *order, count, number_at(text, i));
        }
        i += 1;
    }
    Line { count, next: i }
}

// ---- sorting

// Puts a byte behind the first n of a program. One for which there is no place is counted all the same.
fn put_byte(out: &mut [u8; PROGRAM], n: usize, b: u8) -> usize {
    if n < PROGRAM {
        out[n] = b;
        return n + 1;
    }
    PROGRAM + 1
}

// Puts the records from a up to e of a program behind the first n bytes of another; how many bytes there are then.
fn put_records(
    program: &[u8; PROGRAM],
    a: usize,
    e: usize,
    out: &mut [u8; PROGRAM],
    n0: usize,
) -> usize
    requires { (a < 65536) × (e < 65536) }
{
    let mut n = n0;
    for i in a * RECORD_BYTES..e * RECORD_BYTES {
        n = put_byte(&mut *out, n, byte_at(program, i));
    }
    n
}

// Where the unit ends that begins at record a: where the next begins in the first order, or at the program's end.
fn unit_end(first: &[u16; UNITS], a: usize) -> usize
    ensures { result < 65536 }
{
    first
        .iter()
        .map(|&begin| index(begin))
        .find(|&begin| a < begin)
        .unwrap_or(COUNT)
}

// The program in another order: constants and initials as they stand, then unit by unit. How many bytes it has.
pub fn sort(
    program: &[u8; PROGRAM],
    first: &[u16; UNITS],
    order: &[u16; UNITS],
    out: &mut [u8; PROGRAM],
) -> usize {
    let mut n = put_records(program, 0, index(first[0]), &mut *out, 0);
    for &unit in order {
        let a = index(unit);
        n = put_records(program, a, unit_end(first, a), &mut *out, n);
    }
    n
}
