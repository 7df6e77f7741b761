// A program and the same in another order, side by side.
ghost use Rattle.std.specs.Prelude.{◌<◌};

use crate::lent::{same_bits, sevens};
use crate::orders::PROGRAM;
use bits::float_of;
use evaluator::Refusal;
use limits::SLOTS;
use tally::Tally;

// How many steps a run has.
const STEPS: usize = 200;

// ---- from where

// By a place: -0, a negative number, the least, a huge one, the infinite, NaN, the infinite and the greatest negated.
fn odd(i: usize) -> f64 {
    match i % 8 {
        0 => float_of(0x8000_0000_0000_0000),
        1 => -3.5,
        2 => float_of(1),
        3 => float_of(0x7e37_e43c_8800_759c),
        4 => float_of(0x7ff0_0000_0000_0000),
        5 => float_of(0x7ff8_0000_0000_0000),
        6 => float_of(0xfff0_0000_0000_0000),
        _ => float_of(0xffef_ffff_ffff_ffff),
    }
}

// Such a float at each place that a number divides, and 7 at the others. Each kind is met by a state: these have the
// slots 59 to 63, 79, 80, 98 to 102, 106, 107, 112 and 113.
fn mixed(every: usize) -> [f64; SLOTS]
    requires { 0 < every }
{
    let mut values = sevens();
    for (i, value) in values.iter_mut().enumerate() {
        if i % every == 0 {
            *value = odd(i);
        }
    }
    values
}

// ---- side by side

// Neither answer is a refusal, and all places of values v and w, and of derivatives d and e, have the same bits.
fn alike(
    rt: &impl Print,
    t: &mut Tally,
    a: Result<(), Refusal>,
    b: Result<(), Refusal>,
    v: &[f64; SLOTS],
    w: &[f64; SLOTS],
    d: &[f64; SLOTS],
    e: &[f64; SLOTS],
) {
    t.right(rt, a.is_ok() && b.is_ok());
    t.right(rt, same_bits(v, w));
    t.right(rt, same_bits(d, e));
}

// Both are stepped by h.
fn step_both(
    rt: &impl Print,
    t: &mut Tally,
    p: &[u8; PROGRAM],
    q: &[u8; PROGRAM],
    h: f64,
    v: &mut [f64; SLOTS],
    w: &mut [f64; SLOTS],
    d: &mut [f64; SLOTS],
    e: &mut [f64; SLOTS],
) {
    let a = evaluator::step(p, h, &mut *v, &mut *d);
    let b = evaluator::step(q, h, &mut *w, &mut *e);
    alike(rt, t, a, b, v, w, d, e);
}

// Both are evaluated from the same values, and then stepped from what that leaves.
fn evaluate_both(
    rt: &impl Print,
    t: &mut Tally,
    p: &[u8; PROGRAM],
    q: &[u8; PROGRAM],
    from: [f64; SLOTS],
) {
    let mut v = from;
    let mut w = from;
    let mut d = sevens();
    let mut e = sevens();
    let a = evaluator::evaluate(p, &mut v, &mut d);
    let b = evaluator::evaluate(q, &mut w, &mut e);
    alike(rt, t, a, b, &v, &w, &d, &e);
    step_both(rt, t, p, q, 30.0, &mut v, &mut w, &mut d, &mut e);
}

// Both are started, and then stepped many times. They are compared after the start and after each step.
fn run_both(rt: &impl Print, t: &mut Tally, p: &[u8; PROGRAM], q: &[u8; PROGRAM], h: f64) {
    let mut v = sevens();
    let mut w = sevens();
    let mut d = sevens();
    let mut e = sevens();
    let a = evaluator::start(p, &mut v, &mut d);
    let b = evaluator::start(q, &mut w, &mut e);
    alike(rt, t, a, b, &v, &w, &d, &e);
    for _ in 0..STEPS {
        step_both(rt, t, p, q, h, &mut v, &mut w, &mut d, &mut e);
    }
}

// From 7 and from 0 at all places, and from mixed values; then a run past a reversal of the fire, and one of steps so
// long that the flow of fuel swings ever wider.
pub fn all(rt: &impl Print, t: &mut Tally, p: &[u8; PROGRAM], q: &[u8; PROGRAM]) {
    evaluate_both(rt, t, p, q, sevens());
    evaluate_both(rt, t, p, q, [0.0; SLOTS]);
    evaluate_both(rt, t, p, q, mixed(1));
    evaluate_both(rt, t, p, q, mixed(3));
    evaluate_both(rt, t, p, q, mixed(7));
    run_both(rt, t, p, q, 8.0);
    run_both(rt, t, p, q, 30.0);
}
