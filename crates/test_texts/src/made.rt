// Texts of many statements that a rule makes, and programs and fault lists for them.
ghost use Rattle.std.specs.Prelude.{◌+◌, ◌≤◌, ◌<◌};

use crate::wanted::record;
use bits::reads::byte_at;
use limits::PROGRAM_ROOM;

// ---- texts

// What stands on each line: a sum of ones with a name of its own; eight constants of one; a name that is the next of
// 512, and the last the first; a header; a comment.
#[derive(Clone, Copy)]
pub enum Rule {
    Sum,
    Constants,
    Link,
    Header,
    Comment,
}

// A digit of a number: its hundreds, tens or ones.
fn figure(k: usize, unit: usize) -> u8 {
    if unit == 0 {
        return 48;
    }
    48 + (k / unit % 10) as u8
}

// Byte r of name k: A, or B from 1,000 on, and three figures.
fn name_byte(k: usize, r: usize) -> u8 {
    if r == 0 {
        return 65 + (k / 1000 % 26) as u8;
    }
    if r == 1 {
        return figure(k, 100);
    }
    if r == 2 {
        return figure(k, 10);
    }
    figure(k, 1)
}

// Byte r of sum k, whose line has a width of w: its name, an equals sign, ones with plus signs between, byte 10.
fn sum_byte(k: usize, r: usize, w: usize) -> u8 {
    if r < 4 {
        return name_byte(k, r);
    }
    if r == 4 {
        return 61;
    }
    if w <= r {
        return 10;
    }
    if r % 2 == 1 {
        return 49;
    }
    43
}

// Byte r of constants on line k: each its name, an equals sign and a one, with commas between, and byte 10.
fn constants_byte(k: usize, r: usize) -> u8 {
    if r < 6 {
        return byte_at(b"CONST ", r);
    }
    if r == 61 {
        return 10;
    }
    let q = (r - 6) % 7;
    if q < 4 {
        return name_byte(k % 1024 * 8 + (r - 6) / 7, q);
    }
    byte_at(b"=1,", q - 4)
}

// Byte r of link k.
fn link_byte(k: usize, r: usize) -> u8 {
    if r < 4 {
        return name_byte(k, r);
    }
    if r == 4 {
        return 61;
    }
    if r == 9 {
        return 10;
    }
    name_byte((k % 512 + 1) % 512, r - 5)
}

// Byte r of line k by a rule, which has a width of w.
fn byte_by(rule: Rule, k: usize, r: usize, w: usize) -> u8 {
    match rule {
        Rule::Sum => sum_byte(k, r, w),
        Rule::Constants => constants_byte(k, r),
        Rule::Link => link_byte(k, r),
        Rule::Header => byte_at(b"PROCED A=P(B)\n", r),
        Rule::Comment => byte_at(b"*\n", r),
    }
}

// Fills bytes with lines by a rule, of w bytes each, byte 10 aside, and numbered from a number on.
pub fn fill(out: &mut [u8], rule: Rule, from: usize, w: usize)
    requires { (from ≤ 1024) × (w ≤ 72) }
{
    for (i, byte) in out.iter_mut().enumerate() {
        *byte = byte_by(rule, from + i / (w + 1) % 1024, i % (w + 1), w);
    }
}

// ---- programs

// Record i of a program, which is record r of the sum with this slot and line, of so many records: ones pushed, each
// but the first added, the sum stored.
fn put_sum_record(program: &mut [u8], i: usize, slot: u64, line: u64, r: usize, size: usize)
    requires { (i < 4096) × (0 < size) }
{
    if r == size - 1 {
        record(program, i, 13, slot, line, 0);
        return;
    }
    if r == 0 {
        record(program, i, 3, 0, line, 0x3ff0_0000_0000_0000);
        return;
    }
    if r % 2 == 1 {
        record(program, i, 3, 0, line, 0x3ff0_0000_0000_0000);
        return;
    }
    record(program, i, 5, 0, line, 0);
}

// Which sum record j of sums of this size is of, from 0.
fn turn(j: usize, size: usize) -> u64
    requires { 0 < size }
    ensures { result ≤ 4096 }
{
    let k = j / size;
    if k < 4096 {
        return k as u64;
    }
    4096
}

// So many records from a place on, of sums of this size each, from a slot and a line on.
pub fn put_sums(program: &mut [u8], start: usize, count: usize, size: usize, slot: u64, line: u64)
    requires { (start + count ≤ 4096) × ((0 < size) × ((slot ≤ 1024) × (line ≤ 1024))) }
{
    for j in 0..count {
        let k = turn(j, size);
        put_sum_record(&mut *program, start + j, slot + k, line + k, j % size, size);
    }
}

// The program of sums of one size, a line for each.
pub fn sums_program(count: usize, size: usize) -> [u8; PROGRAM_ROOM]
    requires { (count ≤ 4096) × (0 < size) }
{
    let mut program = [170u8; PROGRAM_ROOM];
    put_sums(&mut program, 0, count, size, 1, 1);
    program
}

// The records of so many constants of one, eight to a line.
fn put_constants(program: &mut [u8], count: usize)
    requires { count ≤ 4096 }
{
    for i in 0..count {
        record(
            &mut *program,
            i,
            1,
            i as u64 + 1,
            i as u64 / 8 + 1,
            0x3ff0_0000_0000_0000,
        );
    }
}

// Their program.
pub fn constants_program(count: usize) -> [u8; PROGRAM_ROOM]
    requires { count ≤ 4096 }
{
    let mut program = [170u8; PROGRAM_ROOM];
    put_constants(&mut program, count);
    program
}

// The records of 512 links, the last first: each pushes the slot of the next.
fn put_links(program: &mut [u8]) {
    for i in 0..512usize {
        let slot = 512 - i as u64;
        record(&mut *program, 2 * i, 4, slot + 1, slot, 0);
        record(&mut *program, 2 * i + 1, 13, slot, slot, 0);
    }
}

// Their program, where the last is no link, but a one.
pub fn links_program() -> [u8; PROGRAM_ROOM] {
    let mut program = [170u8; PROGRAM_ROOM];
    put_links(&mut program);
    record(&mut program, 0, 3, 0, 512, 0x3ff0_0000_0000_0000);
    program
}

// ---- fault lists

// Writes fault k, from 0, of a list that has one for each line: its code and its column.
fn put_fault(list: &mut [u8], k: usize, code: u64, column: u64)
    requires { k < 512 }
{
    let o = k * 8;
    let line = k as u64 + 1;
    bits::put_low(&mut *list, o, 2, line);
    bits::put_low(&mut *list, o + 2, 2, code);
    bits::put_low(&mut *list, o + 4, 2, line);
    bits::put_low(list, o + 6, 2, column);
}

// The faults of 512 lines, all of one code and at one column.
pub fn put_each(list: &mut [u8], code: u64, column: u64) {
    for k in 0..512 {
        put_fault(&mut *list, k, code, column);
    }
}
