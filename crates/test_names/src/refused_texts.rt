// Texts that are refused. A fault has line, code, line of its place and column, two bytes each.
use crate::wanted::{faulty, lent, refused, silent};
use bits::reads::byte_at;
use limits::{FAULT_ROOM, ROSTER_BYTES, STATEMENTS};
use tally::Tally;

// With a byte less than is asked for faults any text is refused, and nothing is written.
fn short_list(rt: &impl Print, t: &mut Tally, text: &[u8]) {
    let mut faults = [7u8; FAULT_ROOM - 1];
    let list = [7u8; FAULT_ROOM - 1];
    let mut out = [7u8; ROSTER_BYTES];
    let kept = [7u8; ROSTER_BYTES];
    lent(rt, t, text, &mut faults, &mut out, refused(1), &list, &kept);
}

// 1: a text without fault, one with a statement fault, and one with a model fault.
fn short_lists(rt: &impl Print, t: &mut Tally) {
    short_list(rt, t, b"A=1");
    short_list(rt, t, b"A=#");
    short_list(rt, t, b"A=A");
}

// 2: a byte more than a text may have. 3: a line more.
fn sizes(rt: &impl Print, t: &mut Tally) {
    let comment = [b'*'; 32769];
    let lines = [b'\n'; 1025];
    silent(rt, t, &comment, 2);
    silent(rt, t, &lines, 3);
}

// The bytes of a statement more than there may be, four each.
const MANY: usize = 4 * (STATEMENTS + 1);

// These statements.
fn statements() -> [u8; MANY] {
    let mut text = [0u8; MANY];
    for (i, byte) in text.iter_mut().enumerate() {
        *byte = byte_at(b"A=1\n", i % 4);
    }
    text
}

// 4: a statement more, though they define one name again and again.
fn many(rt: &impl Print, t: &mut Tally) {
    silent(rt, t, &statements(), 4);
}

// 5: an early end, behind a definition; two statements of three; a name that is too long.
fn statement_faults(rt: &impl Print, t: &mut Tally) {
    faulty(rt, t, b"A=1\nB=", 5, b"\x02\0\x12\0\x02\0\x02\0");
    faulty(
        rt,
        t,
        b"A=#\nB=1\nC=4+2X",
        5,
        b"\x01\0\x0e\0\x01\0\x03\0\x03\0\x10\0\x03\0\x05\0",
    );
    faulty(
        rt,
        t,
        b"* SEVEN\n ABCDEFG=1",
        5,
        b"\x02\0\x0f\0\x02\0\x02\0",
    );
}

// 7: a name defined twice; an undefined name; an initial that is no constant; a loop.
fn model_faults(rt: &impl Print, t: &mut Tally) {
    faulty(rt, t, b"CONST A=1\nA=2", 7, b"\x02\0\x15\0\x02\0\x01\0");
    faulty(rt, t, b"A=1\n\nB=C", 7, b"\x03\0\x16\0\x03\0\x01\0");
    faulty(rt, t, b"X=INTGRL(Y,1)\nY=2", 7, b"\x01\0\x17\0\x01\0\x01\0");
    faulty(
        rt,
        t,
        b"A=B\nB=A\nC=1",
        7,
        b"\x01\0\x18\0\x01\0\x01\0\x02\0\x18\0\x02\0\x01\0",
    );
}

// 7: an unpaired header; an output that is not set inside; a name of the block's own that is used outside, and one that
// is defined again outside.
fn block_faults(rt: &impl Print, t: &mut Tally) {
    faulty(
        rt,
        t,
        b"CONST B=1\nPROCED A=P(B)",
        7,
        b"\x02\0\x19\0\x02\0\x01\0",
    );
    faulty(
        rt,
        t,
        b"PROCED A=P(B)\nC=B\nENDPRO\nB=1",
        7,
        b"\x01\0\x1a\0\x01\0\x01\0",
    );
    faulty(
        rt,
        t,
        b"PROCED A=P(B)\nC=B\nA=C\nENDPRO\nB=1\nD=C",
        7,
        b"\x06\0\x16\0\x06\0\x01\0",
    );
    faulty(
        rt,
        t,
        b"PROCED A=P(B)\nC=B\nA=C\nENDPRO\nB=1\nC=2",
        7,
        b"\x06\0\x15\0\x06\0\x01\0",
    );
}

// All of these.
pub fn all(rt: &impl Print, t: &mut Tally) {
    short_lists(rt, t);
    sizes(rt, t);
    many(rt, t);
    statement_faults(rt, t);
    model_faults(rt, t);
    block_faults(rt, t);
}
