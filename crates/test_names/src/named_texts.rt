// Small texts and their entries. A row of an entry has the name and the zeros behind it, what it is and a zero, the
// slot, and the line.
use crate::wanted::{named, nameless};
use tally::Tally;

// The tank: a constant, two assignments and a state. Slots follow the text and not the order, which is 3, 5, 4.
fn tank(rt: &impl Print, t: &mut Tally) {
    named(
        rt,
        t,
        b"* TANK\nPARAM K=2\nQ=K*H\nH=INTGRL(1,F-Q)\nF=LIMIT(0,3,TIME)\n",
        b"K\0\0\0\0\0\0\0\x01\0\x01\0\x02\0\0\0\
          Q\0\0\0\0\0\0\0\x03\0\x02\0\x03\0\0\0\
          H\0\0\0\0\0\0\0\x02\0\x03\0\x04\0\0\0\
          F\0\0\0\0\0\0\0\x03\0\x04\0\x05\0\0\0",
    );
}

// Each constant of a statement has its entry, with the line of that.
fn constants(rt: &impl Print, t: &mut Tally) {
    named(
        rt,
        t,
        b"CONST A=1,ABCDEF=-2.5\n\nPARAM B=+3,C=1,D=0\nINCON E=4E1",
        b"A\0\0\0\0\0\0\0\x01\0\x01\0\x01\0\0\0\
          ABCDEF\0\0\x01\0\x02\0\x01\0\0\0\
          B\0\0\0\0\0\0\0\x01\0\x03\0\x03\0\0\0\
          C\0\0\0\0\0\0\0\x01\0\x04\0\x03\0\0\0\
          D\0\0\0\0\0\0\0\x01\0\x05\0\x03\0\0\0\
          E\0\0\0\0\0\0\0\x01\0\x06\0\x04\0\0\0",
    );
}

// Names of one to six characters, each the front of others, with digits and without.
fn lengths(rt: &impl Print, t: &mut Tally) {
    named(
        rt,
        t,
        b"A=1\nAB=A\nAB1=AB\nABCD=2\nTIMES=TIME\nABCDEF=A\nA12345=3",
        b"A\0\0\0\0\0\0\0\x03\0\x01\0\x01\0\0\0\
          AB\0\0\0\0\0\0\x03\0\x02\0\x02\0\0\0\
          AB1\0\0\0\0\0\x03\0\x03\0\x03\0\0\0\
          ABCD\0\0\0\0\x03\0\x04\0\x04\0\0\0\
          TIMES\0\0\0\x03\0\x05\0\x05\0\0\0\
          ABCDEF\0\0\x03\0\x06\0\x06\0\0\0\
          A12345\0\0\x03\0\x07\0\x07\0\0\0",
    );
}

// States of one and of six letters, and an initial that is a constant's name.
fn states(rt: &impl Print, t: &mut Tally) {
    named(
        rt,
        t,
        b"X=INTGRL(HEIGHT,-X)\nMASSES=INTGRL(1,X)\nCONST HEIGHT=2",
        b"X\0\0\0\0\0\0\0\x02\0\x01\0\x01\0\0\0\
          MASSES\0\0\x02\0\x02\0\x02\0\0\0\
          HEIGHT\0\0\x01\0\x03\0\x03\0\0\0",
    );
}

// ---- blocks

// A name of the block's own, and an output, each with the line on which it is set.
fn block(rt: &impl Print, t: &mut Tally) {
    named(
        rt,
        t,
        b"PROCED A=P(T)\nL=T\nA=L+L\nENDPRO\nT=1\nB=A",
        b"L\0\0\0\0\0\0\0\x04\0\x01\0\x02\0\0\0\
          A\0\0\0\0\0\0\0\x03\0\x02\0\x03\0\0\0\
          T\0\0\0\0\0\0\0\x03\0\x03\0\x05\0\0\0\
          B\0\0\0\0\0\0\0\x03\0\x04\0\x06\0\0\0",
    );
}

// An output and a name of the block's own that are set again have one entry each, with the line of the first setting.
fn set_again(rt: &impl Print, t: &mut Tally) {
    named(
        rt,
        t,
        b"PROCED RESULT=P(B)\nRESULT=B\nHELPER=RESULT+1\nHELPER=HELPER*2\nRESULT=HELPER\nENDPRO\nCONST B=1",
        b"RESULT\0\0\x03\0\x01\0\x02\0\0\0\
          HELPER\0\0\x04\0\x02\0\x03\0\0\0\
          B\0\0\0\0\0\0\0\x01\0\x03\0\x07\0\0\0",
    );
}

// Outputs have slots as they are set, not as the header names them.
fn outputs(rt: &impl Print, t: &mut Tally) {
    named(
        rt,
        t,
        b"PROCED A,B=P(C)\nB=C\nA=B\nENDPRO\nC=TIME",
        b"B\0\0\0\0\0\0\0\x03\0\x01\0\x02\0\0\0\
          A\0\0\0\0\0\0\0\x03\0\x02\0\x03\0\0\0\
          C\0\0\0\0\0\0\0\x03\0\x03\0\x05\0\0\0",
    );
}

// The name of a block has no entry: here another statement defines it, and two blocks have it.
fn block_names(rt: &impl Print, t: &mut Tally) {
    named(
        rt,
        t,
        b"PROCED A=P(T)\nX=T\nA=X\nENDPRO\nPROCED B=P(A)\nY=A\nB=Y\nENDPRO\nT=1\nP=2",
        b"X\0\0\0\0\0\0\0\x04\0\x01\0\x02\0\0\0\
          A\0\0\0\0\0\0\0\x03\0\x02\0\x03\0\0\0\
          Y\0\0\0\0\0\0\0\x04\0\x03\0\x06\0\0\0\
          B\0\0\0\0\0\0\0\x03\0\x04\0\x07\0\0\0\
          T\0\0\0\0\0\0\0\x03\0\x05\0\x09\0\0\0\
          P\0\0\0\0\0\0\0\x03\0\x06\0\x0a\0\0\0",
    );
}

// ---- lines

// A statement over several lines with a comment inside has its first line.
fn over_lines(rt: &impl Print, t: &mut Tally) {
    named(
        rt,
        t,
        b"* C\nQ=K...\n* PLUS\n+1\n\nCONST K=2,...\n* AND\nL=3\nX=INTGRL(K,...\n*\nQ)\nY...\n=4",
        b"Q\0\0\0\0\0\0\0\x03\0\x01\0\x02\0\0\0\
          K\0\0\0\0\0\0\0\x01\0\x02\0\x06\0\0\0\
          L\0\0\0\0\0\0\0\x01\0\x03\0\x06\0\0\0\
          X\0\0\0\0\0\0\0\x02\0\x04\0\x09\0\0\0\
          Y\0\0\0\0\0\0\0\x03\0\x05\0\x0c\0\0\0",
    );
}

// So do a block's header, its end and a setting in it.
fn block_over_lines(rt: &impl Print, t: &mut Tally) {
    named(
        rt,
        t,
        b"PROCED A...\n* OUT\n=F(C)\nA=C...\n* TWICE\n+C\nENDPRO...\n*\n\nC=1",
        b"A\0\0\0\0\0\0\0\x03\0\x01\0\x04\0\0\0\
          C\0\0\0\0\0\0\0\x03\0\x02\0\x0a\0\0\0",
    );
}

// A definition on line 1,024, which has two bytes.
fn last_line(rt: &impl Print, t: &mut Tally) {
    let mut text = [b'\n'; 1026];
    bits::put_bytes(&mut text, 1023, b"A=1");
    named(rt, t, &text, b"A\0\0\0\0\0\0\0\x03\0\x01\0\0\x04\0\0");
}

// ---- none

// Nothing; a comment and blanks; as many lines and as many bytes as there may be.
fn without(rt: &impl Print, t: &mut Tally) {
    let lines = [b'\n'; 1024];
    let comment = [b'*'; 32768];
    nameless(rt, t, b"");
    nameless(rt, t, b"* A=1\n\n   \n");
    nameless(rt, t, &lines);
    nameless(rt, t, &comment);
}

// All of these.
pub fn all(rt: &impl Print, t: &mut Tally) {
    tank(rt, t);
    constants(rt, t);
    lengths(rt, t);
    states(rt, t);
    block(rt, t);
    set_again(rt, t);
    outputs(rt, t);
    block_names(rt, t);
    over_lines(rt, t);
    block_over_lines(rt, t);
    last_line(rt, t);
    without(rt, t);
}
