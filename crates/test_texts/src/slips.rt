// The slips to shut out.
use crate::wanted::{blank, faulty, record, translated};
use tally::Tally;

// A long run is one statement: its fifth line starts none.
fn long_run(rt: &impl Print, t: &mut Tally) {
    faulty(
        rt,
        t,
        b"A=1...\n+1...\n+1...\n+1...\nC=1\nB=1",
        5,
        b"1 12 1 1",
    );
}

// A leading minus negates the whole first term: the product is written first.
fn leading_minus(rt: &impl Print, t: &mut Tally) {
    let two = 0x4000_0000_0000_0000;
    let three = 0x4008_0000_0000_0000;
    let mut w = blank();
    record(&mut w, 0, 1, 2, 2, two);
    record(&mut w, 1, 1, 3, 2, three);
    record(&mut w, 2, 4, 2, 1, 0);
    record(&mut w, 3, 4, 3, 1, 0);
    record(&mut w, 4, 7, 0, 1, 0);
    record(&mut w, 5, 9, 0, 1, 0);
    record(&mut w, 6, 13, 1, 1, 0);
    translated(rt, t, b"C=-A*B\nCONST A=2,B=3", 7, &w);
}

// What hangs behind a loop is named with it; what does not, is not.
fn behind_a_loop(rt: &impl Print, t: &mut Tally) {
    faulty(
        rt,
        t,
        b"A=B\nB=A\nD=A\nE=1\nF=D+E",
        7,
        b"1 24 1 1, 2 24 2 1, 3 24 3 1, 5 24 5 1",
    );
}

// A state is known without order: it is no loop, and what uses it need not follow it.
fn states(rt: &impl Print, t: &mut Tally) {
    let one = 0x3ff0_0000_0000_0000;
    let mut w = blank();
    record(&mut w, 0, 2, 1, 1, one);
    record(&mut w, 1, 4, 1, 1, 0);
    record(&mut w, 2, 9, 0, 1, 0);
    record(&mut w, 3, 14, 1, 1, 0);
    translated(rt, t, b"X=INTGRL(1,-X)", 4, &w);
    let mut x = blank();
    record(&mut x, 0, 2, 1, 1, one);
    record(&mut x, 1, 4, 1, 2, 0);
    record(&mut x, 2, 13, 2, 2, 0);
    record(&mut x, 3, 4, 2, 1, 0);
    record(&mut x, 4, 14, 1, 1, 0);
    translated(rt, t, b"X=INTGRL(1,Y)\nY=X", 5, &x);
}

// Names are not missed while an unread statement may define them.
fn unread(rt: &impl Print, t: &mut Tally) {
    faulty(rt, t, b"A=B\nB=*", 5, b"2 18 2 3");
}

// A star behind a space multiplies, also on a continued line.
fn star(rt: &impl Print, t: &mut Tally) {
    let two = 0x4000_0000_0000_0000;
    let three = 0x4008_0000_0000_0000;
    let mut w = blank();
    record(&mut w, 0, 3, 0, 1, three);
    record(&mut w, 1, 3, 0, 1, two);
    record(&mut w, 2, 7, 0, 1, 0);
    record(&mut w, 3, 13, 1, 1, 0);
    translated(rt, t, b"A=3...\n *2", 4, &w);
}

// All of these.
pub fn all(rt: &impl Print, t: &mut Tally) {
    long_run(rt, t);
    leading_minus(rt, t);
    behind_a_loop(rt, t);
    states(rt, t);
    unread(rt, t);
    star(rt, t);
}
