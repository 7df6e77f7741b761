// Texts with comment cards inside statements.
use crate::made::{Rule, fill};
use crate::wanted::{blank, faulty, faulty_front, record, refused, silent, translated};
use tally::Tally;

// 11: the text ends behind dots, or behind comments that follow them. It comes before 12.
fn unfinished(rt: &impl Print, t: &mut Tally) {
    refused(
        rt,
        t,
        5,
        b"1 11 1 6|A=3...\n*2|\
          1 11 1 6|A=3...\n*2\n|\
          2 11 2 6|B=2\nA=1...\n* ONE\n* TWO ...\n*|\
          1 11 5 5|A=1...\n+1...\n+1...\n+1...\n+1...\n*\n|",
    );
}

// Comments between cards are no part of the statement, which keeps its first line; nor do their dots continue it, or
// their lack of dots end it. A star behind a space multiplies.
fn between(rt: &impl Print, t: &mut Tally) {
    let one = 0x3ff0_0000_0000_0000;
    let two = 0x4000_0000_0000_0000;
    let four = 0x4010_0000_0000_0000;
    let mut w = blank();
    record(&mut w, 0, 1, 1, 1, two);
    record(&mut w, 1, 3, 0, 10, one);
    record(&mut w, 2, 13, 3, 10, 0);
    record(&mut w, 3, 4, 3, 3, 0);
    record(&mut w, 4, 4, 1, 3, 0);
    record(&mut w, 5, 3, 0, 3, four);
    record(&mut w, 6, 7, 0, 3, 0);
    record(&mut w, 7, 5, 0, 3, 0);
    record(&mut w, 8, 13, 2, 3, 0);
    translated(
        rt,
        t,
        b"CONST C=2\n* B\nB=A...\n* PLUS\n*\n+C...\n*9 ...\n *4\n* A\nA=1\n",
        9,
        &w,
    );
    faulty(rt, t, b"A=1...\n*\n2", 5, b"1 18 3 1");
}

// Four cards with comments among them are not too many, and five are.
fn cards(rt: &impl Print, t: &mut Tally) {
    let one = 0x3ff0_0000_0000_0000;
    let mut w = blank();
    record(&mut w, 0, 3, 0, 1, one);
    record(&mut w, 1, 3, 0, 1, one);
    record(&mut w, 2, 5, 0, 1, 0);
    record(&mut w, 3, 3, 0, 1, one);
    record(&mut w, 4, 5, 0, 1, 0);
    record(&mut w, 5, 3, 0, 1, one);
    record(&mut w, 6, 5, 0, 1, 0);
    record(&mut w, 7, 13, 1, 1, 0);
    translated(rt, t, b"A=1...\n*\n+1...\n*\n*...\n+1...\n*\n+1", 8, &w);
    faulty(
        rt,
        t,
        b"A=1...\n*\n+1...\n*\n+1...\n*\n+1...\n*\n+1\nB=1",
        5,
        b"1 12 1 1",
    );
}

// A sum of two ones, with a comment of 100 bytes between its cards.
fn long_comment() -> [u8; 110] {
    let mut text = [120u8; 110];
    bits::put_bytes(&mut text, 0, b"A=1...\n*");
    bits::put_bytes(&mut text, 107, b"\n+1");
    text
}

// The same with a comment of one byte, the second card being of 73.
fn long_card() -> [u8; 82] {
    let mut text = [32u8; 82];
    bits::put_bytes(&mut text, 0, b"A=1...\n*\n+1");
    text
}

// The program of that sum.
fn two_ones() -> [u8; 4096] {
    let one = 0x3ff0_0000_0000_0000;
    let mut w = blank();
    record(&mut w, 0, 3, 0, 1, one);
    record(&mut w, 1, 3, 0, 1, one);
    record(&mut w, 2, 5, 0, 1, 0);
    record(&mut w, 3, 13, 1, 1, 0);
    w
}

// A comment inside may have any length, and a card beside it 72 bytes.
fn lengths(rt: &impl Print, t: &mut Tally) {
    translated(rt, t, &long_comment(), 4, &two_ones());
    faulty(rt, t, &long_card(), 5, b"1 13 1 1");
}

// A card that continues, and a comment behind it up to the largest size of a text: it counts for that.
fn largest(rt: &impl Print, t: &mut Tally) {
    let mut text = [42u8; 32769];
    bits::put_bytes(&mut text, 0, b"A=1...\n");
    faulty_front(rt, t, &text, 32768, 5, b"1 11 1 6");
    silent(rt, t, &text, 2);
}

// A card that continues, and 1,024 lines of comments.
fn many_comments() -> [u8; 2056] {
    let mut text = [0u8; 2056];
    fill(&mut text, Rule::Comment, 0, 1);
    bits::put_bytes(&mut text, 0, b"A=1 ...\n");
    text
}

// The same with 1,022 and a card behind them, which ends with this byte.
fn far_card(last: u8) -> [u8; 2054] {
    let mut text = [0u8; 2054];
    fill(&mut text, Rule::Comment, 0, 1);
    bits::put_bytes(&mut text, 0, b"A=1 ...\n");
    text[2052] = b'+';
    text[2053] = last;
    text
}

// That card is line 1,024. Comments inside count as lines, and one line more is too many.
fn most_lines(rt: &impl Print, t: &mut Tally) {
    translated(rt, t, &far_card(b'1'), 4, &two_ones());
    faulty(rt, t, &far_card(b'#'), 5, b"1 14 1024 2");
    silent(rt, t, &many_comments(), 3);
}

// A blank line behind a comment ends the statement, and the next line starts another.
fn blanks(rt: &impl Print, t: &mut Tally) {
    let one = 0x3ff0_0000_0000_0000;
    let two = 0x4000_0000_0000_0000;
    let mut w = blank();
    record(&mut w, 0, 3, 0, 1, one);
    record(&mut w, 1, 13, 1, 1, 0);
    record(&mut w, 2, 3, 0, 4, two);
    record(&mut w, 3, 13, 2, 4, 0);
    translated(rt, t, b"A=1...\n* C\n\nB=2", 4, &w);
    faulty(rt, t, b"A=1...\n* C\n  \n+2", 5, b"4 18 4 1");
}

// Comments inside count as lines of the text; and the header, the end and a setting of a block may have them.
fn numbered(rt: &impl Print, t: &mut Tally) {
    let one = 0x3ff0_0000_0000_0000;
    let mut w = blank();
    record(&mut w, 0, 3, 0, 10, one);
    record(&mut w, 1, 13, 2, 10, 0);
    record(&mut w, 2, 4, 2, 4, 0);
    record(&mut w, 3, 4, 2, 4, 0);
    record(&mut w, 4, 5, 0, 4, 0);
    record(&mut w, 5, 13, 1, 4, 0);
    faulty(rt, t, b"A=1...\n*\n*\n+2\nB=", 5, b"5 18 5 2");
    faulty(rt, t, b"A=1...\n*\n*\n+2\nA=3", 7, b"5 21 5 1");
    translated(
        rt,
        t,
        b"PROCED A...\n* OUT\n=F(C)\nA=C...\n* TWICE\n+C\nENDPRO...\n*\n\nC=1",
        6,
        &w,
    );
}

// All of these.
pub fn all(rt: &impl Print, t: &mut Tally) {
    unfinished(rt, t);
    between(rt, t);
    cards(rt, t);
    lengths(rt, t);
    largest(rt, t);
    most_lines(rt, t);
    blanks(rt, t);
    numbered(rt, t);
}
