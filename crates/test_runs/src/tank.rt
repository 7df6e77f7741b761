// The tank of the paper: PARAM K=2 / Q=K*H / H=INTGRL(1,F-Q) / F=LIMIT(0,3,TIME). The slots are 1 K, 2 Q, 3 H, 4 F.
use crate::lent::{at, kept, number_in, of_slots, place_in, record, sevens};
use limits::SLOTS;
use tally::Tally;

// F=LIMIT(0,3,TIME), in five records.
fn flow(p: &mut [u8]) {
    record(p, 6, 3, 0, 0);
    record(p, 7, 3, 0, 0x4008_0000_0000_0000);
    record(p, 8, 4, 0, 0);
    record(p, 9, 11, 0, 0);
    record(p, 10, 13, 4, 0);
}

// The derivative of H, F-Q, in four.
fn change(p: &mut [u8]) {
    record(p, 11, 4, 4, 0);
    record(p, 12, 4, 2, 0);
    record(p, 13, 6, 0, 0);
    record(p, 14, 14, 3, 0);
}

// The 15 records: the constant and the initial value, Q=K*H in four, F, and the derivative of H.
fn program() -> [u8; 240] {
    let mut p = [0u8; 240];
    record(&mut p, 0, 1, 1, 0x4000_0000_0000_0000);
    record(&mut p, 1, 2, 3, 0x3ff0_0000_0000_0000);
    of_slots(&mut p, 2, 1, 3, 7, 2);
    flow(&mut p);
    change(&mut p);
    p
}

// A start writes TIME = 0 and H = 1, and nothing else.
fn starts(rt: &impl Print, t: &mut Tally) {
    let p = program();
    let mut v = sevens();
    let mut d = sevens();
    let a = evaluator::start(&p, &mut v, &mut d);
    t.number(rt, number_in(&a), 0);
    t.number(rt, place_in(&a), 0);
    at(rt, t, &v, 0, 0);
    at(rt, t, &v, 3, 0x3ff0_0000_0000_0000);
    t.number(rt, kept(&v), SLOTS - 2);
    t.number(rt, kept(&d), SLOTS);
}

// At TIME = 0 and H = 1: K = 2, Q = 2 * 1 = 2, F = 0, which is neither below 0 nor above 3, and the derivative is
// 0 - 2 = -2.
fn evaluates(rt: &impl Print, t: &mut Tally) {
    let p = program();
    let mut v = sevens();
    let mut d = sevens();
    v[0] = 0.0;
    v[3] = 1.0;
    let a = evaluator::evaluate(&p, &mut v, &mut d);
    t.number(rt, number_in(&a), 0);
    at(rt, t, &v, 0, 0);
    at(rt, t, &v, 1, 0x4000_0000_0000_0000);
    at(rt, t, &v, 2, 0x4000_0000_0000_0000);
    at(rt, t, &v, 3, 0x3ff0_0000_0000_0000);
    at(rt, t, &v, 4, 0);
    at(rt, t, &d, 3, 0xc000_0000_0000_0000);
    t.number(rt, kept(&v), SLOTS - 5);
    t.number(rt, kept(&d), SLOTS - 1);
}

// A first step of 0.5, from TIME = 0 and H = 1: the derivative is -2, H = 1 + 0.5 * -2 = 0, and TIME = 0.5.
fn steps(rt: &impl Print, t: &mut Tally) {
    let p = program();
    let mut v = sevens();
    let mut d = sevens();
    let a = evaluator::start(&p, &mut v, &mut d);
    let b = evaluator::step(&p, 0.5, &mut v, &mut d);
    t.number(rt, number_in(&a), 0);
    t.number(rt, number_in(&b), 0);
    at(rt, t, &v, 3, 0);
    at(rt, t, &v, 0, 0x3fe0_0000_0000_0000);
    at(rt, t, &d, 3, 0xc000_0000_0000_0000);
    t.number(rt, kept(&v), SLOTS - 5);
    t.number(rt, kept(&d), SLOTS - 1);
}

// A second: Q = 2 * 0 = 0, F = 0.5, the derivative is 0.5, H = 0 + 0.5 * 0.5 = 0.25, and TIME = 1.
fn steps_again(rt: &impl Print, t: &mut Tally) {
    let p = program();
    let mut v = sevens();
    let mut d = sevens();
    v[0] = 0.5;
    v[3] = 0.0;
    let a = evaluator::step(&p, 0.5, &mut v, &mut d);
    t.number(rt, number_in(&a), 0);
    at(rt, t, &v, 2, 0);
    at(rt, t, &v, 4, 0x3fe0_0000_0000_0000);
    at(rt, t, &d, 3, 0x3fe0_0000_0000_0000);
    at(rt, t, &v, 3, 0x3fd0_0000_0000_0000);
    at(rt, t, &v, 0, 0x3ff0_0000_0000_0000);
}

// What F is at a TIME.
fn limited(rt: &impl Print, t: &mut Tally, time: f64, wanted: u64) {
    let p = program();
    let mut v = sevens();
    let mut d = sevens();
    v[0] = time;
    let a = evaluator::evaluate(&p, &mut v, &mut d);
    t.number(rt, number_in(&a), 0);
    at(rt, t, &v, 4, wanted);
}

// F is 3 above 3, 0 below 0, TIME at 3, and follows a TIME that is NaN, which neither end stops.
fn limits(rt: &impl Print, t: &mut Tally) {
    limited(rt, t, 7.0, 0x4008_0000_0000_0000);
    limited(rt, t, 3.0, 0x4008_0000_0000_0000);
    limited(rt, t, -7.0, 0);
    limited(rt, t, 0.0 / 0.0, 0x7ff8_0000_0000_0000);
}

// All of these.
pub fn all(rt: &impl Print, t: &mut Tally) {
    starts(rt, t);
    evaluates(rt, t);
    steps(rt, t);
    steps_again(rt, t);
    limits(rt, t);
}
