// Decks and programs from before request 9 of document 02, kept as data. To NAME.deck belong NAME.program, the program
// that it had then, and NAME.values, what that program left in 256 values and 256 derivatives. Both were made by the
// library of before, commit 4012a21. The deck must still give the same bytes, and the program leave the same bits.
#![tactic(auto)]

mod lent;

ghost use Rattle.std.specs.Prelude.{◌≤◌, length};

use evaluator::Refusal;
use lent::{PLACES, mixture, same_bits};
use limits::{FAULT_ROOM, PROGRAM_ROOM, RECORD_BYTES, SLOTS, TEXT_BYTES};
use std::fs;
use std::io::Read;
use std::rt::Files;
use tally::Tally;

// A byte more than a text may have.
const READ: usize = TEXT_BYTES + 1;

// A record more than a program may have.
const ROOM: usize = PROGRAM_ROOM + RECORD_BYTES;

// The bytes of as many floats as there are places.
const FLOATS: usize = 8 * PLACES;

// A file of values has those and the derivatives after evaluating, after a start, and after the steps that follow it.
const LEFT: usize = 6 * FLOATS;

// How many steps follow.
const STEPS: usize = 50;

// Reads a file to the front of a buffer, until that is full, the file ends or a read fails; how many bytes, 0 where it
// can't be opened.
fn read_file(rt: &impl Files, path: &str, buf: &mut [u8]) -> usize
    ensures { result ≤ length buf.new }
{
    let Ok(mut file) = fs::open(rt, path) else {
        return 0;
    };
    let mut done: usize = 0;
    while done < buf.len() {
        match file.read(&mut buf[done..]) {
            Ok(0) => return done,
            Ok(n) => done += n,
            Err(_) => return done,
        }
    }
    done
}

// ---- the deck

// A deck is translated into a program of so many bytes, and nothing else is written. One that is refused has no record.
fn translated(
    rt: &(impl Print + Files),
    t: &mut Tally,
    deck: &str,
    program: &[u8; ROOM],
    size: usize,
) {
    let mut text = [0u8; READ];
    let mut faults = [170u8; FAULT_ROOM];
    let mut out = [170u8; ROOM];
    let n = read_file(rt, deck, &mut text);
    let count = translator::translate(&text[..n], &mut faults, &mut out).unwrap_or(0);
    t.number(rt, count, size / RECORD_BYTES);
    t.right(rt, out == *program);
    t.right(rt, faults == [170u8; FAULT_ROOM]);
}

// ---- the program

// The number and the record number of an answer.
fn told(answer: Result<(), Refusal>) -> (usize, usize) {
    match answer {
        Ok(()) => (0, 0),
        Err(refusal) => (refusal.number(), refusal.place()),
    }
}

// It is evaluated from the mixture.
fn evaluated(rt: &impl Print, t: &mut Tally, program: &[u8], left: &[u8]) {
    let mut v = mixture(0);
    let mut d = mixture(PLACES);
    let said = told(evaluator::evaluate(program, &mut v, &mut d));
    t.number(rt, said.0, 0);
    t.number(rt, said.1, 0);
    t.right(rt, same_bits(&v, left, 0));
    t.right(rt, same_bits(&d, left, FLOATS));
}

// Steps of h; how many are no refusal.
fn step_all(program: &[u8], h: f64, v: &mut [f64; SLOTS], d: &mut [f64; SLOTS]) -> usize {
    for n in 0..STEPS {
        if evaluator::step(program, h, v, d).is_err() {
            return n;
        }
    }
    STEPS
}

// It is started from the mixture, and then stepped.
fn stepped(rt: &impl Print, t: &mut Tally, program: &[u8], h: f64, left: &[u8]) {
    let mut v = mixture(0);
    let mut d = mixture(PLACES);
    let said = told(evaluator::start(program, &mut v, &mut d));
    t.number(rt, said.0, 0);
    t.right(rt, same_bits(&v, left, 2 * FLOATS));
    t.right(rt, same_bits(&d, left, 3 * FLOATS));
    t.number(rt, step_all(program, h, &mut v, &mut d), STEPS);
    t.right(rt, same_bits(&v, left, 4 * FLOATS));
    t.right(rt, same_bits(&d, left, 5 * FLOATS));
}

// It leaves what the file has.
fn run(rt: &(impl Print + Files), t: &mut Tally, program: &[u8], values: &str, h: f64) {
    let mut left = [0u8; LEFT + 1];
    t.number(rt, read_file(rt, values, &mut left), LEFT);
    evaluated(rt, t, program, &left);
    stepped(rt, t, program, h, &left);
}

// ---- both

// A deck gives its program, whose file is not empty, and that leaves what it left with steps of h.
fn as_before(
    rt: &(impl Print + Files),
    t: &mut Tally,
    deck: &str,
    program: &str,
    values: &str,
    h: f64,
) {
    let mut bytes = [170u8; ROOM];
    let size = read_file(rt, program, &mut bytes);
    t.right(rt, 0 < size);
    translated(rt, t, deck, &bytes, size);
    run(rt, t, &bytes[..size], values, h);
}

// Those of the paper, the manual and the examples, and one of all functions, with what is no number.
fn ordinary(rt: &(impl Print + Files), t: &mut Tally) {
    as_before(rt, t, "tank.deck", "tank.program", "tank.values", 0.1);
    as_before(rt, t, "relay.deck", "relay.program", "relay.values", 2.5);
    as_before(rt, t, "wall.deck", "wall.program", "wall.values", 30.0);
    as_before(rt, t, "valve.deck", "valve.program", "valve.values", 2.5);
    as_before(
        rt,
        t,
        "checker.deck",
        "checker.program",
        "checker.values",
        60.0,
    );
    as_before(
        rt,
        t,
        "furnace.deck",
        "furnace.program",
        "furnace.values",
        30.0,
    );
    as_before(
        rt,
        t,
        "switches.deck",
        "switches.program",
        "switches.values",
        0.1,
    );
}

// Those at the limits of before: 255 statements with 255 definitions; 256 with 255, and 30 blocks; 512 lines; 16,384
// bytes; and one with all of these and 4,096 records.
fn largest(rt: &(impl Print + Files), t: &mut Tally) {
    as_before(rt, t, "names.deck", "names.program", "names.values", 0.1);
    as_before(rt, t, "blocks.deck", "blocks.program", "blocks.values", 0.1);
    as_before(rt, t, "lines.deck", "lines.program", "lines.values", 0.1);
    as_before(rt, t, "bytes.deck", "bytes.program", "bytes.values", 0.1);
    as_before(rt, t, "full.deck", "full.program", "full.values", 0.1);
}

// All of these, and the summary.
fn main(rt: HostRuntime) {
    let mut t = Tally::none();
    ordinary(&rt, &mut t);
    largest(&rt, &mut t);
    t.finish(&rt);
}
