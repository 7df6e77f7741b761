// Puts the program of the furnace into other good orders, evaluates, starts and steps each beside the first, and
// compares the bits of every place. One bad order is refused. The orders are data, which tools/good-orders finds.
#![tactic(auto)]

mod beside;
mod lent;
mod orders;

ghost use Rattle.std.specs.Prelude.{◌≤◌, length};

use evaluator::Refusal;
use lent::{same_bits, sevens};
use limits::{FAULT_ROOM, TEXT_BYTES};
use orders::{COUNT, PROGRAM, UNITS, read_line, sort};
use std::fs;
use std::io::Read;
use std::rt::Files;
use tally::Tally;

// A byte more than a text may have.
const READ: usize = TEXT_BYTES + 1;

// More than a file of orders has.
const LINES: usize = 4096;

// How many orders the file has, one to a line; that of the first line is the first.
const ORDERS: usize = 7;

// Reads a file to the front of a buffer, until that is full, the file ends or a read fails; how many bytes, 0 where it
// can't be opened.
fn read_file(rt: &impl Files, path: &str, buf: &mut [u8]) -> usize
    ensures { result ≤ length buf.new }
{
    let Ok(mut file) = fs::open(rt, path) else {
        return 0;
    };
    let mut done: usize = 0;
    while done < buf.len() {
        match file.read(&mut buf[done..]) {
            Ok(0) => return done,
            Ok(n) => done += n,
            Err(_) => return done,
        }
    }
    done
}

// Translates the furnace; how many records, 0 where it is refused.
fn translate(rt: &impl Files, program: &mut [u8]) -> usize {
    let mut text = [0u8; READ];
    let mut faults = [0u8; FAULT_ROOM];
    let n = read_file(rt, "furnace.deck", &mut text);
    translator::translate(&text[..n], &mut faults, program).unwrap_or(0)
}

// Reads the order on the first line of a file; how many numbers it has.
fn read_order(rt: &impl Files, path: &str, order: &mut [u16; UNITS]) -> usize {
    let mut text = [0u8; LINES];
    let n = read_file(rt, path, &mut text);
    let line = read_line(&text[..n], 0, order);
    line.count
}

// Whether two programs have the same bytes.
fn same(p: &[u8; PROGRAM], q: &[u8; PROGRAM]) -> bool {
    p == q
}

// The first order gives the program itself.
fn first_order(rt: &impl Print, t: &mut Tally, program: &[u8; PROGRAM], first: &[u16; UNITS]) {
    let mut sorted = [0u8; PROGRAM];
    let n = sort(program, first, first, &mut sorted);
    t.number(rt, n, PROGRAM);
    t.right(rt, same(&sorted, program));
}

// Another good order gives a program of other bytes and as many records, which does the same.
fn good_order(
    rt: &impl Print,
    t: &mut Tally,
    program: &[u8; PROGRAM],
    first: &[u16; UNITS],
    order: &[u16; UNITS],
) {
    let mut sorted = [0u8; PROGRAM];
    let n = sort(program, first, order, &mut sorted);
    t.number(rt, n, PROGRAM);
    t.right(rt, !same(&sorted, program));
    beside::all(rt, t, program, &sorted);
}

// All orders of a text but the first: each has so many numbers, and nothing stands behind the last.
fn each_order(
    rt: &impl Print,
    t: &mut Tally,
    program: &[u8; PROGRAM],
    first: &[u16; UNITS],
    text: &[u8],
) {
    let mut order = [0u16; UNITS];
    let head = read_line(text, 0, &mut order);
    let mut at = head.next;
    for _ in 1..ORDERS {
        let line = read_line(text, at, &mut order);
        t.number(rt, line.count, UNITS);
        good_order(rt, t, program, first, &order);
        at = line.next;
    }
    t.number(rt, at, text.len());
}

// All orders of the file but the first.
fn good_orders(
    rt: &(impl Print + Files),
    t: &mut Tally,
    program: &[u8; PROGRAM],
    first: &[u16; UNITS],
) {
    let mut text = [0u8; LINES];
    let n = read_file(rt, "furnace.orders", &mut text);
    each_order(rt, t, program, first, &text[..n]);
}

// The number and the record number of an answer.
fn told(answer: Result<(), Refusal>) -> (usize, usize) {
    match answer {
        Ok(()) => (0, 0),
        Err(refusal) => (refusal.number(), refusal.place()),
    }
}

// An answer is the refusal for this record.
fn refused_for(rt: &impl Print, t: &mut Tally, answer: Result<(), Refusal>, place: usize) {
    let said = told(answer);
    t.number(rt, said.0, 3);
    t.number(rt, said.1, place);
}

// Evaluating, starting and stepping refuse a program for this record, and write nothing.
fn refused(rt: &impl Print, t: &mut Tally, p: &[u8; PROGRAM], place: usize) {
    let mut v = sevens();
    let mut d = sevens();
    let lent = sevens();
    let a = evaluator::evaluate(p, &mut v, &mut d);
    let b = evaluator::start(p, &mut v, &mut d);
    let c = evaluator::step(p, 30.0, &mut v, &mut d);
    refused_for(rt, t, a, place);
    refused_for(rt, t, b, place);
    refused_for(rt, t, c, place);
    t.right(rt, same_bits(&v, &lent));
    t.right(rt, same_bits(&d, &lent));
}

// The bad order has the valve, the block of line 104, behind the derivative of TRIM, line 100, which uses its output
// FREE. In the first order the block and all behind it have 37 + 6 + 6 + 2 + 4 + 4 = 59 records of 597, so 538
// stand before them. There KI, ERR and their product come now, and at 541 FREE, which is not set yet.
fn bad_order(
    rt: &(impl Print + Files),
    t: &mut Tally,
    program: &[u8; PROGRAM],
    first: &[u16; UNITS],
) {
    let mut order = [0u16; UNITS];
    let mut sorted = [0u8; PROGRAM];
    let count = read_order(rt, "furnace.bad", &mut order);
    let n = sort(program, first, &order, &mut sorted);
    t.number(rt, count, UNITS);
    t.number(rt, n, PROGRAM);
    refused(rt, t, &sorted, 541);
}

// The program, the first order, the other good ones, the bad one, and the summary.
fn main(rt: HostRuntime) {
    let mut program = [0u8; PROGRAM];
    let mut first = [0u16; UNITS];
    let count = translate(&rt, &mut program);
    let units = read_order(&rt, "furnace.orders", &mut first);
    let mut t = Tally::none();
    t.number(&rt, count, COUNT);
    t.number(&rt, units, UNITS);
    first_order(&rt, &mut t, &program, &first);
    good_orders(&rt, &mut t, &program, &first);
    bad_order(&rt, &mut t, &program, &first);
    t.finish(&rt);
}
