// Other programs that are accepted.
ghost use Rattle.std.specs.Prelude.{◌<◌};
ghost use Rattle.limits.specs.Limits.{slots};

use crate::lent::{
    at, float, kept, kept_in, number_in, of_slots, of_values, record, records, sevens,
};
use limits::SLOTS;
use tally::Tally;

// Slots 1 and 2 are 10 and 4. Slots 3 to 7 are sum, difference, product, quotient, and the first negated.
fn arithmetic() -> [u8; 336] {
    let mut p = [0u8; 336];
    record(&mut p, 0, 1, 1, 0x4024_0000_0000_0000);
    record(&mut p, 1, 1, 2, 0x4010_0000_0000_0000);
    of_slots(&mut p, 2, 1, 2, 5, 3);
    of_slots(&mut p, 6, 1, 2, 6, 4);
    of_slots(&mut p, 10, 1, 2, 7, 5);
    of_slots(&mut p, 14, 1, 2, 8, 6);
    record(&mut p, 18, 4, 1, 0);
    record(&mut p, 19, 9, 0, 0);
    record(&mut p, 20, 13, 7, 0);
    p
}

// 10 + 4 = 14, 10 - 4 = 6, 10 * 4 = 40, 10 / 4 = 2.5 and -10. Seven slots are written, and no derivative.
fn computes(rt: &impl Print, t: &mut Tally) {
    let p = arithmetic();
    let mut v = sevens();
    let mut d = sevens();
    let a = evaluator::evaluate(&p, &mut v, &mut d);
    t.number(rt, number_in(&a), 0);
    at(rt, t, &v, 3, 0x402c_0000_0000_0000);
    at(rt, t, &v, 4, 0x4018_0000_0000_0000);
    at(rt, t, &v, 5, 0x4044_0000_0000_0000);
    at(rt, t, &v, 6, 0x4004_0000_0000_0000);
    at(rt, t, &v, 7, 0xc024_0000_0000_0000);
    t.number(rt, kept(&v), SLOTS - 7);
    t.number(rt, kept(&d), SLOTS);
}

// Slot 4 is 4. Slots 1 to 3 are INSW(TIME,2,3), COMPAR(TIME,4) and COMPAR(4,TIME).
fn choice() -> [u8; 224] {
    let mut p = [0u8; 224];
    record(&mut p, 0, 1, 4, 0x4010_0000_0000_0000);
    record(&mut p, 1, 4, 0, 0);
    record(&mut p, 2, 3, 0, 0x4000_0000_0000_0000);
    record(&mut p, 3, 3, 0, 0x4008_0000_0000_0000);
    record(&mut p, 4, 10, 0, 0);
    record(&mut p, 5, 13, 1, 0);
    of_slots(&mut p, 6, 0, 4, 12, 2);
    of_slots(&mut p, 10, 4, 0, 12, 3);
    p
}

// What the three slots are at a TIME.
fn chooses_at(rt: &impl Print, t: &mut Tally, time: f64, insw: u64, above: u64, below: u64) {
    let p = choice();
    let mut v = sevens();
    let mut d = sevens();
    v[0] = time;
    let a = evaluator::evaluate(&p, &mut v, &mut d);
    t.number(rt, number_in(&a), 0);
    at(rt, t, &v, 1, insw);
    at(rt, t, &v, 2, above);
    at(rt, t, &v, 3, below);
}

// Below 0 INSW takes 2, at 0, at -0, above and at NaN it takes 3. 4 is at least 4. With a NaN each COMPAR is 0.
fn chooses(rt: &impl Print, t: &mut Tally) {
    let two = 0x4000_0000_0000_0000;
    let three = 0x4008_0000_0000_0000;
    let one = 0x3ff0_0000_0000_0000;
    chooses_at(rt, t, -1.0, two, 0, one);
    chooses_at(rt, t, 0.0, three, 0, one);
    chooses_at(rt, t, -0.0, three, 0, one);
    chooses_at(rt, t, 4.0, three, one, one);
    chooses_at(rt, t, 5.0, three, one, 0);
    chooses_at(rt, t, 0.0 / 0.0, three, 0, 0);
}

// 0.1 + 0.2 is 1.33333333333338 (base 16) times 2^-2, halfway, and rounds to the even ..34. 1 / 3 is 1.5555.. and
// rounds down. 1 / 0 is infinite, and 0 / 0 the NaN.
fn rounds(rt: &impl Print, t: &mut Tally) {
    let mut p = [0u8; 256];
    let one = 0x3ff0_0000_0000_0000;
    of_values(
        &mut p,
        0,
        0x3fb9_9999_9999_999a,
        0x3fc9_9999_9999_999a,
        5,
        1,
    );
    of_values(&mut p, 4, one, 0x4008_0000_0000_0000, 8, 2);
    of_values(&mut p, 8, one, 0, 8, 3);
    of_values(&mut p, 12, 0, 0, 8, 4);
    let mut v = sevens();
    let mut d = sevens();
    let a = evaluator::evaluate(&p, &mut v, &mut d);
    t.number(rt, number_in(&a), 0);
    at(rt, t, &v, 1, 0x3fd3_3333_3333_3334);
    at(rt, t, &v, 2, 0x3fd5_5555_5555_5555);
    at(rt, t, &v, 3, 0x7ff0_0000_0000_0000);
    at(rt, t, &v, 4, 0x7ff8_0000_0000_0000);
}

// A state of -1 with the derivative 1 - 2^-27, stepped by h = 1 + 2^-27: the product 1 - 2^-54 lies halfway and rounds
// to 1, so the state is 0. Rounded once, or with h times the sum, it would not be.
fn rounds_twice(rt: &impl Print, t: &mut Tally) {
    let mut p = [0u8; 48];
    record(&mut p, 0, 2, 1, 0xbff0_0000_0000_0000);
    record(&mut p, 1, 3, 0, 0x3fef_ffff_fc00_0000);
    record(&mut p, 2, 14, 1, 0);
    let mut v = sevens();
    let mut d = sevens();
    let a = evaluator::start(&p, &mut v, &mut d);
    let b = evaluator::step(&p, bits::float_of(0x3ff0_0000_0200_0000), &mut v, &mut d);
    t.number(rt, number_in(&a), 0);
    t.number(rt, number_in(&b), 0);
    at(rt, t, &d, 1, 0x3fef_ffff_fc00_0000);
    at(rt, t, &v, 1, 0);
    at(rt, t, &v, 0, 0x3ff0_0000_0200_0000);
}

// Values may be NaN, -0 and infinite; each NaN pattern is read as the NaN. The line is free.
fn reads(rt: &impl Print, t: &mut Tally) {
    let mut p = [0u8; 64];
    record(&mut p, 0, 1, 1, 0x7ff0_0000_0000_0001);
    record(&mut p, 1, 1, 2, 0xffff_ffff_ffff_ffff);
    record(&mut p, 2, 1, 3, 0x8000_0000_0000_0000);
    record(&mut p, 3, 1, 1023, 0xfff0_0000_0000_0000);
    bits::put_low(&mut p, 4, 4, 0xffff_ffff);
    let mut v = sevens();
    let mut d = sevens();
    let a = evaluator::evaluate(&p, &mut v, &mut d);
    t.number(rt, number_in(&a), 0);
    at(rt, t, &v, 1, 0x7ff8_0000_0000_0000);
    at(rt, t, &v, 2, 0x7ff8_0000_0000_0000);
    at(rt, t, &v, 3, 0x8000_0000_0000_0000);
    at(rt, t, &v, 1023, 0xfff0_0000_0000_0000);
    t.number(rt, kept(&v), SLOTS - 4);
}

// 67 ones are pushed, 66 additions leave their sum, 67. 1,024 places are enough, and there is no other store.
fn piles(rt: &impl Print, t: &mut Tally) {
    let mut p = [0u8; 2144];
    records(&mut p, 0, 67, 3, 0, 0x3ff0_0000_0000_0000);
    records(&mut p, 67, 133, 5, 0, 0);
    record(&mut p, 133, 13, 1023, 0);
    let mut v = [7.0; 1024];
    let mut d = [7.0; 1024];
    let a = evaluator::evaluate(&p, &mut v, &mut d);
    t.number(rt, number_in(&a), 0);
    float(rt, t, v[1023], 0x4050_c000_0000_0000);
    t.number(rt, kept_in(&v), 1023);
    t.number(rt, kept_in(&d), 1024);
}

// ---- slots of one byte and of two

// One slot is the constant 5. A state begins as 5, and its derivative is itself negated. Another slot is stored the
// constant, and then itself and itself.
fn of_each(constant: u64, state: u64, stored: u64) -> [u8; 176] {
    let mut p = [0u8; 176];
    record(&mut p, 0, 1, constant, 0x4014_0000_0000_0000);
    record(&mut p, 1, 2, state, 0x4014_0000_0000_0000);
    record(&mut p, 2, 4, constant, 0);
    record(&mut p, 3, 13, stored, 0);
    record(&mut p, 4, 4, stored, 0);
    record(&mut p, 5, 4, stored, 0);
    record(&mut p, 6, 5, 0, 0);
    record(&mut p, 7, 15, stored, 0);
    record(&mut p, 8, 4, state, 0);
    record(&mut p, 9, 9, 0, 0);
    record(&mut p, 10, 14, state, 0);
    p
}

// A start writes the state and TIME = 0. Of more than 1,024 places that are lent the further ones stay.
fn starts_at(rt: &impl Print, t: &mut Tally, constant: usize, state: usize, stored: usize)
    requires { state < slots }
{
    let p = of_each(constant as u64, state as u64, stored as u64);
    let mut v = [7.0; 1100];
    let mut d = [7.0; 1100];
    let a = evaluator::start(&p, &mut v, &mut d);
    t.number(rt, number_in(&a), 0);
    float(rt, t, v[state], 0x4014_0000_0000_0000);
    float(rt, t, v[0], 0);
    t.number(rt, kept_in(&v), 1098);
    t.number(rt, kept_in(&d), 1100);
}

// From 7 and TIME = 7 a step of 0.5 leaves the state 7 + 0.5 * -7 = 3.5, the constant 5, 5 + 5 = 10, and TIME = 7.5.
fn steps_at(rt: &impl Print, t: &mut Tally, constant: usize, state: usize, stored: usize)
    requires { (constant < slots) × ((state < slots) × (stored < slots)) }
{
    let p = of_each(constant as u64, state as u64, stored as u64);
    let mut v = [7.0; 1100];
    let mut d = [7.0; 1100];
    let a = evaluator::step(&p, 0.5, &mut v, &mut d);
    t.number(rt, number_in(&a), 0);
    float(rt, t, d[state], 0xc01c_0000_0000_0000);
    float(rt, t, v[state], 0x400c_0000_0000_0000);
    float(rt, t, v[constant], 0x4014_0000_0000_0000);
    float(rt, t, v[stored], 0x4024_0000_0000_0000);
    float(rt, t, v[0], 0x401e_0000_0000_0000);
    t.number(rt, kept_in(&v), 1096);
    t.number(rt, kept_in(&d), 1099);
}

// The last slot of one byte, the first of two, and the last, each for each.
fn far(rt: &impl Print, t: &mut Tally) {
    starts_at(rt, t, 256, 255, 1023);
    starts_at(rt, t, 1023, 256, 255);
    starts_at(rt, t, 255, 1023, 256);
    steps_at(rt, t, 256, 255, 1023);
    steps_at(rt, t, 1023, 256, 255);
    steps_at(rt, t, 255, 1023, 256);
}

// The empty program is accepted: evaluating writes nothing, and a step moves TIME alone, from 7 to 7.5.
fn nothing(rt: &impl Print, t: &mut Tally) {
    let p = [0u8; 0];
    let mut v = sevens();
    let mut d = sevens();
    let a = evaluator::evaluate(&p, &mut v, &mut d);
    t.number(rt, number_in(&a), 0);
    t.number(rt, kept(&v), SLOTS);
    let b = evaluator::step(&p, 0.5, &mut v, &mut d);
    t.number(rt, number_in(&b), 0);
    at(rt, t, &v, 0, 0x401e_0000_0000_0000);
    t.number(rt, kept(&d), SLOTS);
}

// Slot 1 is 5, and slot 2 is it doubled. Slot 1 becomes slot 2 + slot 1, and slot 3 is slot 1 - slot 2. At last slot 1
// becomes itself times TIME.
fn again() -> [u8; 288] {
    let mut p = [0u8; 288];
    record(&mut p, 0, 3, 0, 0x4014_0000_0000_0000);
    record(&mut p, 1, 13, 1, 0);
    of_slots(&mut p, 2, 1, 1, 5, 2);
    record(&mut p, 6, 4, 2, 0);
    record(&mut p, 7, 4, 1, 0);
    record(&mut p, 8, 5, 0, 0);
    record(&mut p, 9, 15, 1, 0);
    of_slots(&mut p, 10, 1, 2, 6, 3);
    record(&mut p, 14, 4, 1, 0);
    record(&mut p, 15, 4, 0, 0);
    record(&mut p, 16, 7, 0, 0);
    record(&mut p, 17, 15, 1, 0);
    p
}

// At TIME = 2: slot 2 is 5 + 5 = 10, slot 1 becomes 10 + 5 = 15, slot 3 is 15 - 10 = 5, and slot 1 ends as 15 * 2 = 30.
fn stores_again(rt: &impl Print, t: &mut Tally) {
    let p = again();
    let mut v = sevens();
    let mut d = sevens();
    v[0] = 2.0;
    let a = evaluator::evaluate(&p, &mut v, &mut d);
    t.number(rt, number_in(&a), 0);
    at(rt, t, &v, 1, 0x403e_0000_0000_0000);
    at(rt, t, &v, 2, 0x4024_0000_0000_0000);
    at(rt, t, &v, 3, 0x4014_0000_0000_0000);
    t.number(rt, kept(&v), SLOTS - 4);
    t.number(rt, kept(&d), SLOTS);
}

// A start writes TIME = 0 alone. A step of 0.5 then evaluates at TIME = 0: slot 1 ends as 15 * 0 = 0, and slot 3 is
// 15 - 10 = 5. TIME is 0.5 then.
fn steps_again(rt: &impl Print, t: &mut Tally) {
    let p = again();
    let mut v = sevens();
    let mut d = sevens();
    let a = evaluator::start(&p, &mut v, &mut d);
    t.number(rt, number_in(&a), 0);
    t.number(rt, kept(&v), SLOTS - 1);
    let b = evaluator::step(&p, 0.5, &mut v, &mut d);
    t.number(rt, number_in(&b), 0);
    at(rt, t, &v, 1, 0);
    at(rt, t, &v, 3, 0x4014_0000_0000_0000);
    at(rt, t, &v, 0, 0x3fe0_0000_0000_0000);
}

// All of these.
pub fn all(rt: &impl Print, t: &mut Tally) {
    computes(rt, t);
    chooses(rt, t);
    rounds(rt, t);
    rounds_twice(rt, t);
    reads(rt, t);
    piles(rt, t);
    far(rt, t);
    stores_again(rt, t);
    steps_again(rt, t);
    nothing(rt, t);
}
