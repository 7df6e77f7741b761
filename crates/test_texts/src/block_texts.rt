// Texts with procedural blocks that the table of promises does not have.
use crate::wanted::{blank, record, refused, translated};
use tally::Tally;

// Both words are reserved everywhere, and TIME is no input.
fn ungrammatical(rt: &impl Print, t: &mut Tally) {
    refused(
        rt,
        t,
        5,
        b"1 18 1 12|PROCED A=P(TIME)|\
          1 18 1 7|PROCED=1|\
          1 18 1 3|A=ENDPRO|\
          1 18 1 8|ENDPRO A|\
          1 18 1 10|PROCED A,=P(B)|",
    );
}

// Only assignments stand inside, and an output is named once.
fn inside(rt: &impl Print, t: &mut Tally) {
    refused(
        rt,
        t,
        7,
        b"3 26 3 1|PROCED A=P(B)\nA=B\nX=INTGRL(0,1)\nENDPRO\nB=1|\
          1 26 1 1|PROCED A,A=P(B)\nA=B\nENDPRO\nB=1|",
    );
}

// As an initial an output is no constant, and a name of the block's own is not known.
fn initials(rt: &impl Print, t: &mut Tally) {
    refused(
        rt,
        t,
        7,
        b"5 23 5 1|PROCED A=P(B)\nA=B\nENDPRO\nB=1\nX=INTGRL(A,1)|\
          6 22 6 1|PROCED A=P(B)\nC=B\nA=C\nENDPRO\nB=1\nX=INTGRL(C,1)|",
    );
}

// Two blocks that set one name; and an input that is a name of another block's own.
fn two_blocks(rt: &impl Print, t: &mut Tally) {
    refused(
        rt,
        t,
        7,
        b"6 21 6 1|PROCED A=P(T)\nL=T\nA=L\nENDPRO\nPROCED B=Q(T)\nL=T\nB=L\nENDPRO\nT=1|\
          5 22 5 1|PROCED A=P(T)\nL=T\nA=L\nENDPRO\nPROCED B=Q(L)\nB=L\nENDPRO\nT=1|",
    );
}

// A name of the block's own has its slot among the others; a header may go over lines.
fn records(rt: &impl Print, t: &mut Tally) {
    let one = 0x3ff0_0000_0000_0000;
    let mut w = blank();
    record(&mut w, 0, 3, 0, 5, one);
    record(&mut w, 1, 13, 3, 5, 0);
    record(&mut w, 2, 4, 3, 2, 0);
    record(&mut w, 3, 13, 1, 2, 0);
    record(&mut w, 4, 4, 1, 3, 0);
    record(&mut w, 5, 4, 1, 3, 0);
    record(&mut w, 6, 5, 0, 3, 0);
    record(&mut w, 7, 13, 2, 3, 0);
    record(&mut w, 8, 4, 2, 6, 0);
    record(&mut w, 9, 13, 4, 6, 0);
    translated(
        rt,
        t,
        b"PROCED A=P(T)\nL=T\nA=L+L\nENDPRO\nT=1\nB=A",
        10,
        &w,
    );
    let mut x = blank();
    record(&mut x, 0, 3, 0, 5, one);
    record(&mut x, 1, 13, 2, 5, 0);
    record(&mut x, 2, 4, 2, 3, 0);
    record(&mut x, 3, 13, 1, 3, 0);
    translated(rt, t, b"PROCED A=...\nP(T)\nA=T\nENDPRO\nT=1", 4, &x);
}

// All of these.
pub fn all(rt: &impl Print, t: &mut Tally) {
    ungrammatical(rt, t);
    inside(rt, t);
    initials(rt, t);
    two_blocks(rt, t);
    records(rt, t);
}
