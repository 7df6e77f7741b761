// Plans arrays that are those of no text, as model/specs/Plan says, and writes a program where there is too little
// room.
use crate::wanted::same;
use bits::reads::{short_at, word_at};
use blocks::answer::Refusal;
use limits::{DEFINITIONS, FAULT_BYTES, STATEMENTS};
use model::answer::Counts;
use sheet::Sheet;
use tally::Tally;

// The first three numbers are these.
fn words(rt: &impl Print, t: &mut Tally, s: &[u64], a: usize, b: usize, c: usize) {
    t.number(rt, word_at(s, 0) as usize, a);
    t.number(rt, word_at(s, 1) as usize, b);
    t.number(rt, word_at(s, 2) as usize, c);
}

// The same of numbers of two bytes.
fn shorts(rt: &impl Print, t: &mut Tally, s: &[u16], a: usize, b: usize, c: usize) {
    t.number(rt, short_at(s, 0), a);
    t.number(rt, short_at(s, 1), b);
    t.number(rt, short_at(s, 2), c);
}

// The number of a plan, and its counts of faults, definitions and units of the order.
fn told(plan: Result<Counts, Refusal>) -> (usize, usize, usize, usize) {
    match plan {
        Ok(counts) => (0, 0, counts.definitions, counts.units),
        Err(Refusal::ManyDefinitions) => (6, 0, 0, 0),
        Err(Refusal::Faults(count)) => (7, count, 0, 0),
        Err(Refusal::Unfit) => (9, 0, 0, 0),
    }
}

// The plan has this number, and these counts.
fn planned(
    rt: &impl Print,
    t: &mut Tally,
    p: Result<Counts, Refusal>,
    number: usize,
    faults: usize,
    definitions: usize,
    units: usize,
) {
    let said = told(p);
    t.number(rt, said.0, number);
    t.number(rt, said.1, faults);
    t.number(rt, said.2, definitions);
    t.number(rt, said.3, units);
}

// A constant amid an assignment is a definition like any other.
fn amid(rt: &impl Print, t: &mut Tally) {
    let lines = [1u16; 1];
    let bounds = [0u16, 3];
    let kinds = [3u8, 1, 13];
    let mut args = [7u64, 5, 6];
    let mut used = [170u16; 3];
    let mut faults = [170u8; FAULT_BYTES];
    let mut places = [170u16; DEFINITIONS];
    let mut equated = [170u16; STATEMENTS];
    let mut order = [170u16; STATEMENTS];
    let p = model::plan(
        &lines,
        &bounds,
        &lines,
        &bounds,
        &kinds,
        &mut args,
        &mut used,
        &mut faults,
        &mut places,
        &mut equated,
        &mut order,
    );
    planned(rt, t, p, 0, 0, 2, 1);
    words(rt, t, &args, 7, 1, 2);
    shorts(rt, t, &places, 1, 2, 170);
    shorts(rt, t, &equated, 0, 170, 170);
    shorts(rt, t, &order, 0, 170, 170);
}

// So it is the first of two of one name: the statement has fault 21, and its place is its first byte.
fn amid_twice(rt: &impl Print, t: &mut Tally) {
    let lines = [1u16; 1];
    let bounds = [0u16, 3];
    let kinds = [3u8, 1, 13];
    let mut args = [7u64, 5, 5];
    let mut used = [170u16; 3];
    let mut faults = [170u8; FAULT_BYTES];
    let mut places = [170u16; DEFINITIONS];
    let mut equated = [170u16; STATEMENTS];
    let mut order = [170u16; STATEMENTS];
    let p = model::plan(
        &lines,
        &bounds,
        &lines,
        &bounds,
        &kinds,
        &mut args,
        &mut used,
        &mut faults,
        &mut places,
        &mut equated,
        &mut order,
    );
    planned(rt, t, p, 7, 1, 0, 0);
    t.right(rt, same(&faults, b"\x01\x00\x15\x00\x01\x00\x01\x00"));
}

// A name in the expression of a statement that is no unit of the order is resolved, and is no use.
fn unused(rt: &impl Print, t: &mut Tally) {
    let lines = [1u16, 2];
    let bounds = [0u16, 1, 3];
    let kinds = [4u8, 3, 13];
    let mut args = [6u64, 9, 6];
    let mut used = [170u16; 3];
    let mut faults = [170u8; 2 * FAULT_BYTES];
    let mut places = [170u16; DEFINITIONS];
    let mut equated = [170u16; STATEMENTS];
    let mut order = [170u16; STATEMENTS];
    let p = model::plan(
        &lines,
        &bounds,
        &lines,
        &bounds,
        &kinds,
        &mut args,
        &mut used,
        &mut faults,
        &mut places,
        &mut equated,
        &mut order,
    );
    planned(rt, t, p, 0, 0, 1, 1);
    words(rt, t, &args, 1, 9, 1);
    shorts(rt, t, &used, 170, 170, 170);
    shorts(rt, t, &places, 2, 170, 170);
    shorts(rt, t, &equated, 1, 170, 170);
    shorts(rt, t, &order, 0, 170, 170);
}

// Room for all definitions but one is too little, and nothing is written.
fn few_places(rt: &impl Print, t: &mut Tally) {
    let lines = [1u16; 1];
    let bounds = [0u16, 3];
    let kinds = [3u8, 1, 13];
    let mut args = [7u64, 5, 6];
    let mut used = [170u16; 3];
    let mut faults = [170u8; FAULT_BYTES];
    let mut places = [170u16; 1022];
    let mut equated = [170u16; STATEMENTS];
    let mut order = [170u16; STATEMENTS];
    let p = model::plan(
        &lines,
        &bounds,
        &lines,
        &bounds,
        &kinds,
        &mut args,
        &mut used,
        &mut faults,
        &mut places,
        &mut equated,
        &mut order,
    );
    planned(rt, t, p, 9, 0, 0, 0);
    words(rt, t, &args, 7, 5, 6);
    shorts(rt, t, &places, 170, 170, 170);
    shorts(rt, t, &equated, 170, 170, 170);
    shorts(rt, t, &order, 170, 170, 170);
}

// Of two constants one has room, and four bytes are left.
fn little_room(rt: &impl Print, t: &mut Tally) {
    let places = [0u16, 2];
    let equated = [0u16; 1];
    let firsts = [0u16, 1];
    let order = [0u16; 1];
    let mut out = [170u8; 20];
    let sheet = Sheet {
        lines: &[1],
        bounds: &[0, 4],
        kinds: &[1, 0, 1, 0],
        args: &[1, 0x4000_0000_0000_0000, 2, 7],
    };
    let n = program::put_program(
        &places,
        &equated[..0],
        &firsts,
        &sheet,
        &order[..0],
        &mut out,
    );
    t.number(rt, n, 16);
    t.right(
        rt,
        same(
            &out,
            b"\x01\x00\x01\x00\x01\x00\x00\x00\x00\x00\x00\x00\x00\x00\x00\x40\xaa\xaa\xaa\xaa",
        ),
    );
}

// All of these.
pub fn all(rt: &impl Print, t: &mut Tally) {
    amid(rt, t);
    amid_twice(rt, t);
    unused(rt, t);
    few_places(rt, t);
    little_room(rt, t);
}
