// Programs and buffers that are refused: the number, the record, and nothing written.
use crate::lent::{kept, kept_in, number_in, place_in, record, records, sevens};
use evaluator::Refusal;
use limits::SLOTS;
use tally::Tally;

// A record of a program.
#[derive(Clone, Copy)]
struct Rec {
    kind: u64,
    slot: u64,
    value: u64,
}

fn of(kind: u64, slot: u64, value: u64) -> Rec {
    Rec { kind, slot, value }
}

// A record that pushes 1.
fn push() -> Rec {
    of(3, 0, 0x3ff0_0000_0000_0000)
}

// A constant, and an initial value, of 1.
fn constant(slot: u64) -> Rec {
    of(1, slot, 0x3ff0_0000_0000_0000)
}

fn initial(slot: u64) -> Rec {
    of(2, slot, 0x3ff0_0000_0000_0000)
}

// An answer has this number and this record number.
fn answered(rt: &impl Print, t: &mut Tally, a: Result<(), Refusal>, wanted: usize, place: usize) {
    t.number(rt, number_in(&a), wanted);
    t.number(rt, place_in(&a), place);
}

// All three of them do.
fn alike(
    rt: &impl Print,
    t: &mut Tally,
    a: Result<(), Refusal>,
    b: Result<(), Refusal>,
    c: Result<(), Refusal>,
    wanted: usize,
    place: usize,
) {
    answered(rt, t, a, wanted, place);
    answered(rt, t, b, wanted, place);
    answered(rt, t, c, wanted, place);
}

// Evaluating, starting and stepping refuse a program alike, and write nothing.
fn refused(rt: &impl Print, t: &mut Tally, p: &[u8], wanted: usize, place: usize) {
    let mut v = sevens();
    let mut d = sevens();
    let a = evaluator::evaluate(p, &mut v, &mut d);
    let b = evaluator::start(p, &mut v, &mut d);
    let c = evaluator::step(p, 0.5, &mut v, &mut d);
    alike(rt, t, a, b, c, wanted, place);
    t.number(rt, kept(&v), SLOTS);
    t.number(rt, kept(&d), SLOTS);
}

// A program of one record, which is bad.
fn one(rt: &impl Print, t: &mut Tally, a: Rec) {
    let mut p = [0u8; 16];
    record(&mut p, 0, a.kind, a.slot, a.value);
    refused(rt, t, &p, 3, 0);
}

// Of two records, the second bad.
fn two(rt: &impl Print, t: &mut Tally, a: Rec, b: Rec) {
    let mut p = [0u8; 32];
    record(&mut p, 0, a.kind, a.slot, a.value);
    record(&mut p, 1, b.kind, b.slot, b.value);
    refused(rt, t, &p, 3, 1);
}

// Of three records, the third bad.
fn three(rt: &impl Print, t: &mut Tally, a: Rec, b: Rec, c: Rec) {
    let mut p = [0u8; 48];
    record(&mut p, 0, a.kind, a.slot, a.value);
    record(&mut p, 1, b.kind, b.slot, b.value);
    record(&mut p, 2, c.kind, c.slot, c.value);
    refused(rt, t, &p, 3, 2);
}

// Of four records, the fourth bad.
fn four(rt: &impl Print, t: &mut Tally, a: Rec, b: Rec, c: Rec, d: Rec) {
    let mut p = [0u8; 64];
    record(&mut p, 0, a.kind, a.slot, a.value);
    record(&mut p, 1, b.kind, b.slot, b.value);
    record(&mut p, 2, c.kind, c.slot, c.value);
    record(&mut p, 3, d.kind, d.slot, d.value);
    refused(rt, t, &p, 3, 3);
}

// Of five records, the fifth bad.
fn five(rt: &impl Print, t: &mut Tally, a: Rec, b: Rec, c: Rec, d: Rec, e: Rec) {
    let mut p = [0u8; 80];
    record(&mut p, 0, a.kind, a.slot, a.value);
    record(&mut p, 1, b.kind, b.slot, b.value);
    record(&mut p, 2, c.kind, c.slot, c.value);
    record(&mut p, 3, d.kind, d.slot, d.value);
    record(&mut p, 4, e.kind, e.slot, e.value);
    refused(rt, t, &p, 3, 4);
}

// Unknown kinds, and byte 1 not 0.
fn kinds(rt: &impl Print, t: &mut Tally) {
    one(rt, t, of(0, 0, 0));
    one(rt, t, of(16, 0, 0));
    one(rt, t, of(255, 0, 0));
    one(rt, t, of(3 + 256, 0, 0));
    one(rt, t, of(1 + 256 * 128, 1, 0));
}

// Slots over 1,023, also where the slot that has their low bits is set, or is a state.
fn slots(rt: &impl Print, t: &mut Tally) {
    one(rt, t, constant(1024));
    one(rt, t, constant(65535));
    one(rt, t, initial(1024));
    one(rt, t, initial(65535));
    one(rt, t, of(4, 1024, 0));
    two(rt, t, constant(1), of(4, 1025, 0));
    two(rt, t, push(), of(13, 1024, 0));
    two(rt, t, push(), of(13, 65535, 0));
    three(rt, t, initial(1), push(), of(14, 1025, 0));
    three(rt, t, initial(255), push(), of(14, 65535, 0));
    three(rt, t, initial(1023), push(), of(14, 65535, 0));
}

// A slot is not that of its low byte alone: one of the two is set, and the other is asked for.
fn low_bytes(rt: &impl Print, t: &mut Tally) {
    two(rt, t, constant(1), of(4, 257, 0));
    two(rt, t, constant(257), of(4, 1, 0));
    three(rt, t, initial(255), push(), of(14, 1023, 0));
    four(rt, t, push(), of(13, 1023, 0), push(), of(15, 255, 0));
}

// An unused slot or value that is not 0; the bits of -0 are not 0.
fn unused(rt: &impl Print, t: &mut Tally) {
    one(rt, t, of(3, 1, 0));
    one(rt, t, of(4, 0, 1));
    three(rt, t, push(), push(), of(5, 1, 0));
    three(rt, t, push(), push(), of(12, 0, 0x8000_0000_0000_0000));
    two(rt, t, push(), of(9, 0, 1));
    two(rt, t, push(), of(13, 1, 1));
    three(rt, t, initial(1), push(), of(14, 1, 1));
}

// Kind 1 after another kind, and kind 2 after 3.
fn late(rt: &impl Print, t: &mut Tally) {
    two(rt, t, initial(1), constant(2));
    two(rt, t, push(), constant(1));
    two(rt, t, push(), initial(1));
    four(rt, t, constant(1), initial(2), push(), initial(3));
}

// Slot 0 set.
fn time(rt: &impl Print, t: &mut Tally) {
    one(rt, t, constant(0));
    one(rt, t, initial(0));
    two(rt, t, push(), of(13, 0, 0));
}

// A slot set twice, or read before it is set.
fn marks(rt: &impl Print, t: &mut Tally) {
    two(rt, t, constant(1), constant(1));
    two(rt, t, constant(1), initial(1));
    three(rt, t, constant(1), push(), of(13, 1, 0));
    three(rt, t, initial(1), push(), of(13, 1, 0));
    four(rt, t, push(), of(13, 1, 0), push(), of(13, 1, 0));
    one(rt, t, of(4, 1, 0));
    two(rt, t, constant(1), of(4, 2, 0));
}

// Too few values.
fn few(rt: &impl Print, t: &mut Tally) {
    one(rt, t, of(5, 0, 0));
    two(rt, t, push(), of(6, 0, 0));
    two(rt, t, push(), of(12, 0, 0));
    one(rt, t, of(9, 0, 0));
    three(rt, t, push(), push(), of(10, 0, 0));
    three(rt, t, push(), push(), of(11, 0, 0));
    one(rt, t, of(13, 1, 0));
    two(rt, t, initial(1), of(14, 1, 0));
}

// Kinds 13 and 14 with two values, 14 for no state and 14 twice.
fn ends(rt: &impl Print, t: &mut Tally) {
    three(rt, t, push(), push(), of(13, 1, 0));
    four(rt, t, initial(1), push(), push(), of(14, 1, 0));
    two(rt, t, push(), of(14, 1, 0));
    three(rt, t, constant(1), push(), of(14, 1, 0));
    five(
        rt,
        t,
        initial(1),
        push(),
        of(14, 1, 0),
        push(),
        of(14, 1, 0),
    );
}

// Slot 1 is stored, and a value is pushed; the record behind them is bad.
fn stored(rt: &impl Print, t: &mut Tally, a: Rec) {
    four(rt, t, push(), of(13, 1, 0), push(), a);
}

// Kind 15 with byte 1 not 0, a slot over 1,023, or a value; the bits of -0 are not 0.
fn again_fields(rt: &impl Print, t: &mut Tally) {
    stored(rt, t, of(15 + 256, 1, 0));
    stored(rt, t, of(15, 1025, 0));
    stored(rt, t, of(15, 1, 1));
    stored(rt, t, of(15, 1, 0x8000_0000_0000_0000));
}

// Kind 15 for a slot that is not set, where none is and where another is stored, for slot 0, for a constant, and for a
// state, without its derivative and with it.
fn again_slots(rt: &impl Print, t: &mut Tally) {
    two(rt, t, push(), of(15, 1, 0));
    stored(rt, t, of(15, 2, 0));
    two(rt, t, push(), of(15, 0, 0));
    three(rt, t, constant(1), push(), of(15, 1, 0));
    three(rt, t, initial(1), push(), of(15, 1, 0));
    five(
        rt,
        t,
        initial(1),
        push(),
        of(14, 1, 0),
        push(),
        of(15, 1, 0),
    );
}

// Kind 15 without a value and with two; kinds 1 and 2 behind it.
fn again_places(rt: &impl Print, t: &mut Tally) {
    let store = of(13, 1, 0);
    let again = of(15, 1, 0);
    three(rt, t, push(), store, again);
    five(rt, t, push(), store, push(), push(), again);
    five(rt, t, push(), store, push(), again, constant(2));
    five(rt, t, push(), store, push(), again, initial(2));
}

// A sixty-eighth value; the first of two bad records; 4 for a value left and for a state without derivative.
fn ended(rt: &impl Print, t: &mut Tally) {
    let mut pile = [0u8; 1088];
    records(&mut pile, 0, 68, 3, 0, 0);
    refused(rt, t, &pile, 3, 67);
    let zeros = [0u8; 32];
    refused(rt, t, &zeros, 3, 0);
    let mut left = [0u8; 16];
    record(&mut left, 0, 3, 0, 0);
    refused(rt, t, &left, 4, 0);
    let mut open = [0u8; 16];
    record(&mut open, 0, 2, 1, 0);
    refused(rt, t, &open, 4, 0);
}

// 2: no multiple of 16 bytes, or more than 4,096 records. With 4,096 the records are judged.
fn sizes(rt: &impl Print, t: &mut Tally) {
    let short = [0u8; 15];
    refused(rt, t, &short, 2, 0);
    let odd = [0u8; 17];
    refused(rt, t, &odd, 2, 0);
    let most = [0u8; 65536];
    refused(rt, t, &most, 3, 0);
    let more = [0u8; 65552];
    refused(rt, t, &more, 2, 0);
}

// 1: values of 1,023 places, which comes before a bad size.
fn short_values(rt: &impl Print, t: &mut Tally) {
    let odd = [0u8; 17];
    let mut v = [7.0; 1023];
    let mut d = sevens();
    let a = evaluator::evaluate(&odd, &mut v, &mut d);
    let b = evaluator::start(&odd, &mut v, &mut d);
    let c = evaluator::step(&odd, 0.5, &mut v, &mut d);
    alike(rt, t, a, b, c, 1, 0);
    t.number(rt, kept_in(&v), 1023);
    t.number(rt, kept(&d), SLOTS);
}

// 1: derivatives of 1,023 places.
fn short_derivs(rt: &impl Print, t: &mut Tally) {
    let odd = [0u8; 17];
    let mut v = sevens();
    let mut d = [7.0; 1023];
    let a = evaluator::evaluate(&odd, &mut v, &mut d);
    let b = evaluator::start(&odd, &mut v, &mut d);
    let c = evaluator::step(&odd, 0.5, &mut v, &mut d);
    alike(rt, t, a, b, c, 1, 0);
    t.number(rt, kept(&v), SLOTS);
    t.number(rt, kept_in(&d), 1023);
}

// 1: 256 places of each, with a program that has none to write.
fn short_both(rt: &impl Print, t: &mut Tally) {
    let none = [0u8; 0];
    let mut v = [7.0; 256];
    let mut d = [7.0; 256];
    let a = evaluator::evaluate(&none, &mut v, &mut d);
    let b = evaluator::start(&none, &mut v, &mut d);
    let c = evaluator::step(&none, 0.5, &mut v, &mut d);
    alike(rt, t, a, b, c, 1, 0);
    t.number(rt, kept_in(&v), 256);
    t.number(rt, kept_in(&d), 256);
}

// All of these.
pub fn all(rt: &impl Print, t: &mut Tally) {
    kinds(rt, t);
    slots(rt, t);
    low_bytes(rt, t);
    unused(rt, t);
    late(rt, t);
    time(rt, t);
    marks(rt, t);
    few(rt, t);
    ends(rt, t);
    again_fields(rt, t);
    again_slots(rt, t);
    again_places(rt, t);
    ended(rt, t);
    sizes(rt, t);
    short_values(rt, t);
    short_derivs(rt, t);
    short_both(rt, t);
}
