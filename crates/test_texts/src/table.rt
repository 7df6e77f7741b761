// The texts of the paper's table that no proof computes, and further texts for each code.
use crate::wanted::{blank, record, refused, translated};
use tally::Tally;

// One number is stored: it is pushed, and kind 13 writes slot 1.
fn stored(rt: &impl Print, t: &mut Tally, text: &[u8], bits: u64) {
    let mut w = blank();
    record(&mut w, 0, 3, 0, 1, bits);
    record(&mut w, 1, 13, 1, 1, 0);
    translated(rt, t, text, 2, &w);
}

// Numbers at the ends of both ranges, with the bits of the nearest f64.
fn numbers(rt: &impl Print, t: &mut Tally) {
    stored(rt, t, b"A=999999999999999", 0x430c_6bf5_2633_fff8);
    stored(rt, t, b"A=1E22", 0x4480_f0cf_064d_d592);
    stored(rt, t, b"A=1E-22", 0x3b5e_3920_1017_5ee6);
}

// 17: m or k out of range.
fn ranges(rt: &impl Print, t: &mut Tally) {
    refused(
        rt,
        t,
        5,
        b"1 17 1 3|A=1.000000000000000|\
          1 17 1 3|A=1E23|\
          1 17 1 3|A=0.1E-22|",
    );
}

// 16: malformed numbers.
fn malformed(rt: &impl Print, t: &mut Tally) {
    refused(
        rt,
        t,
        5,
        b"1 16 1 3|A=2X|\
          1 16 1 3|A=1E|\
          1 16 1 3|A=1E100|",
    );
}

// 18: the grammar.
fn ungrammatical(rt: &impl Print, t: &mut Tally) {
    refused(
        rt,
        t,
        5,
        b"1 18 1 8|A=TIME*-2|\
          1 18 1 1|TIME=1|\
          1 18 1 2|A=|",
    );
}

// 14, 15 and 11, and two faults in line order.
fn others(rt: &impl Print, t: &mut Tally) {
    refused(
        rt,
        t,
        5,
        b"1 14 1 3|A=#|\
          1 15 1 1|ABCDEFG=1|\
          1 11 1 6|A=1...\n|\
          1 14 1 3, 4 18 4 3|A=b\n\nC=1\nD=(|",
    );
}

// The model's faults, and which of them is sought while others stand.
fn models(rt: &impl Print, t: &mut Tally) {
    refused(
        rt,
        t,
        7,
        b"2 21 2 1|A=1\nA=B|\
          1 22 1 1|A=B|\
          1 23 1 1|X=INTGRL(Y,1)\nY=2|\
          1 23 1 1, 2 22 2 1|X=INTGRL(Y,1)\nY=Z|\
          1 22 1 1|X=INTGRL(Y,Z)\nY=2|\
          2 22 2 1|A=A\nB=Z|",
    );
}

// The tank, record by record.
fn tank(rt: &impl Print, t: &mut Tally) {
    let one = 0x3ff0_0000_0000_0000;
    let two = 0x4000_0000_0000_0000;
    let three = 0x4008_0000_0000_0000;
    let mut w = blank();
    record(&mut w, 0, 1, 1, 2, two);
    record(&mut w, 1, 2, 3, 4, one);
    record(&mut w, 2, 4, 1, 3, 0);
    record(&mut w, 3, 4, 3, 3, 0);
    record(&mut w, 4, 7, 0, 3, 0);
    record(&mut w, 5, 13, 2, 3, 0);
    record(&mut w, 6, 3, 0, 5, 0);
    record(&mut w, 7, 3, 0, 5, three);
    record(&mut w, 8, 4, 0, 5, 0);
    record(&mut w, 9, 11, 0, 5, 0);
    record(&mut w, 10, 13, 4, 5, 0);
    record(&mut w, 11, 4, 4, 4, 0);
    record(&mut w, 12, 4, 2, 4, 0);
    record(&mut w, 13, 6, 0, 4, 0);
    record(&mut w, 14, 14, 3, 4, 0);
    translated(
        rt,
        t,
        b"* TANK\nPARAM K=2\nQ=K*H\nH=INTGRL(1,F-Q)\nF=LIMIT(0,3,TIME)\n",
        15,
        &w,
    );
}

// A minus in a constant and in an initial negates the value; a constant's name is resolved; INSW and COMPAR.
fn records(rt: &impl Print, t: &mut Tally) {
    let one = 0x3ff0_0000_0000_0000;
    let minus_one = 0xbff0_0000_0000_0000;
    let mut w = blank();
    record(&mut w, 0, 1, 1, 1, minus_one);
    record(&mut w, 1, 2, 2, 2, minus_one);
    record(&mut w, 2, 2, 3, 3, minus_one);
    record(&mut w, 3, 4, 3, 2, 0);
    record(&mut w, 4, 14, 2, 2, 0);
    record(&mut w, 5, 4, 0, 3, 0);
    record(&mut w, 6, 4, 1, 3, 0);
    record(&mut w, 7, 12, 0, 3, 0);
    record(&mut w, 8, 4, 2, 3, 0);
    record(&mut w, 9, 3, 0, 3, one);
    record(&mut w, 10, 10, 0, 3, 0);
    record(&mut w, 11, 14, 3, 3, 0);
    translated(
        rt,
        t,
        b"CONST A=-1\nX=INTGRL(-1,Y)\nY=INTGRL(A,INSW(COMPAR(TIME,A),X,1))",
        12,
        &w,
    );
}

// All of these.
pub fn all(rt: &impl Print, t: &mut Tally) {
    numbers(rt, t);
    ranges(rt, t);
    malformed(rt, t);
    ungrammatical(rt, t);
    others(rt, t);
    models(rt, t);
    tank(rt, t);
    records(rt, t);
}
