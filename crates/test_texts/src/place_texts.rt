// Where faults stand: the line and the column of each. In a row the faults come first, then the text that has them.
ghost use Rattle.std.specs.Prelude.{◌≤◌, length};

use crate::wanted::{faulty_front, refused};
use limits::TEXT_BYTES;
use tally::Tally;

// ---- the token at fault

// 14: the byte itself, at both ends of a card, behind spaces, names and numbers, on later cards, behind comments, which
// may have such bytes.
fn bad_bytes(rt: &impl Print, t: &mut Tally) {
    refused(
        rt,
        t,
        5,
        b"1 14 1 1|#=1|\
          1 14 1 4|A=1#|\
          1 14 1 5|  A=#|\
          1 14 1 3|AB#C=1|\
          1 14 1 4|A=1\t+2|\
          1 14 1 4|A=1\r\nB=2|\
          1 14 1 5|A=1+#...\n2|\
          1 14 2 1|A=1+...\n#|\
          1 14 3 3|A=1+...\n2+...\n  a|\
          1 14 4 2|A=1+...\n* #\n*\n #|",
    );
}

// 15: the name's first byte. A name does not go on behind a card's end: there the next card's first token is one too
// many.
fn long_names(rt: &impl Print, t: &mut Tally) {
    refused(
        rt,
        t,
        5,
        b"1 15 1 3|B=ABCDEFG|\
          1 15 1 3|  LONGNAM=1|\
          1 15 1 3|B=X123456...\n+1|\
          1 15 2 1|B=1+...\nABCDEFG|\
          1 15 3 5|B=(...\n* BRACKET\n  2*ABCDEFG)|\
          1 15 1 1|ABCDEFG=2X|\
          1 18 2 1|B=A+ABCDEF...\nG|",
    );
}

// 16 and 17: the number's first byte, a point too. Of the dots at a card's end three close it.
fn numbers(rt: &impl Print, t: &mut Tally) {
    refused(
        rt,
        t,
        5,
        b"1 16 1 5|A=1+2X|\
          1 16 1 5|A=1+.|\
          1 16 1 3|A=1... +2|\
          1 16 1 5|A=1+....\n2|\
          1 16 2 3|A=1+...\n  2X|\
          1 16 3 1|A=1+...\n* 3X\n1E|\
          1 17 1 5|A=1+1E23|\
          1 17 3 2|A=1+...\n* C\n 1E23|\
          1 17 3 1|A=1+...\n2+...\n1000000000000000|",
    );
}

// 16 comes before 17 in one token; of two tokens the left one is at fault.
fn either_number(rt: &impl Print, t: &mut Tally) {
    refused(
        rt,
        t,
        5,
        b"1 16 1 5|A=1+1E23X|\
          1 17 1 5|A=1+1E23+2X|\
          1 16 1 5|A=1+2X+1E23|\
          1 17 1 3|A=1E23...\n+2X|\
          1 16 2 1|A=2+...\n2X+1E23|\
          1 14 1 3|A=#+2X|",
    );
}

// 18: the first token at which no statement can go on.
fn stops(rt: &impl Print, t: &mut Tally) {
    refused(
        rt,
        t,
        5,
        b"1 18 1 1|=1|\
          1 18 1 4|   =1|\
          1 18 1 4|A=1)|\
          1 18 1 5|A=1+INTGRL(1,2)|\
          1 18 1 10|A=INTGRL(TIME,1)|\
          1 18 1 11|A=INTGRL(-B,1)|\
          1 18 1 11|A=INSW(1,2)|\
          1 18 1 13|A=COMPAR(1,2,3)|\
          1 18 1 11|CONST A=1 B=2|",
    );
}

// The same on later cards: at both ends of them, behind comments, and behind a card of dots alone.
fn later_stops(rt: &impl Print, t: &mut Tally) {
    refused(
        rt,
        t,
        5,
        b"1 18 2 1|A=1...\n2|\
          1 18 2 3|A=1+...\n2 )|\
          1 18 3 3|A=(1...\n* COMMA\n  ,2)|\
          1 18 3 3|A=1...\n...\n+2=3|\
          1 18 3 6|CONST A=1,...\n* C\n   B=C|\
          1 18 2 1|PROCED A=P(...\nTIME)|",
    );
}

// 19: the parenthesis, of a function too. A function's name opens nothing, and what is closed again does not count.
fn openings(rt: &impl Print, t: &mut Tally) {
    refused(
        rt,
        t,
        5,
        b"1 19 1 19|A=(((((((((((((((((|\
          1 19 1 23|A=((((((((((((((((1)+((2|\
          1 19 1 29| X=INTGRL(1,(((((((((((((((((1|\
          1 18 1 24|A=((((((((((((((((INSW 1|\
          1 19 2 1|A=((((((((((((((((...\n(1|\
          1 19 3 3|A=((((((((((((((((...\n* DEEP\n  (1)|\
          1 19 2 9|A=((((((((((((((((...\n COMPAR (1,2)|\
          1 19 3 1|A=((((((((((((((((INSW...\n* C\n(1|",
    );
}

// ---- the statement's end

// 18 at an early end: the last byte of the last card, spaces included; column 1 if that card is empty. Comments behind
// it are no cards.
fn early_ends(rt: &impl Print, t: &mut Tally) {
    refused(
        rt,
        t,
        5,
        b"1 18 1 1|A|\
          1 18 1 5|CONST|\
          1 18 1 4|A=1+\n|\
          1 18 1 7|A=1+   |\
          1 18 1 7| A=(1  \n* C|\
          1 18 2 3|A=1+...\n   |\
          1 18 2 1|A=1+...\n\nB=2|\
          1 18 3 5|A=(2...\n* C\n  *3 \n* D\n|\
          1 18 3 1|A=1+...\n* C\n\n* D|\
          1 18 3 2|A=1+...\n...\n  |",
    );
}

// A statement without tokens, of cards with dots or spaces alone, ends early too.
fn tokenless(rt: &impl Print, t: &mut Tally) {
    refused(
        rt,
        t,
        5,
        b"1 18 2 3|...\n   |\
          1 18 2 1|...\n\n|\
          2 18 3 1|\n...\n\nB=1|\
          1 18 4 4|  ...\n* C\n ...  \n    |\
          1 18 4 1| ... \n...\n...\n\n|",
    );
}

// 11: the last byte of the last card, dots and spaces included. That card has dots, so it is never empty. Bytes are
// counted, and not letters; bad ones come behind 11.
fn unfinished(rt: &impl Print, t: &mut Tally) {
    refused(
        rt,
        t,
        5,
        b"1 11 1 6|A=1...|\
          1 11 1 8|A=1...  |\
          1 11 1 8|  A=1...\n|\
          1 11 1 7|A=1... \n* C\n*|\
          1 11 3 10|A=1...\n* C\n  +2 ...  \n* D\n|\
          2 11 4 5|B=1\nA=1+...\n* C\n2....\n* D ...\n*|\
          1 11 1 3|...\n|\
          1 11 2 4|A=1...\n ...\n* C|\
          1 11 1 4|#...|\
          1 11 1 7|A=\xc3\x84...|",
    );
}

// ---- the statement's first byte

// 12: on the first card, space or not.
fn many_cards(rt: &impl Print, t: &mut Tally) {
    refused(
        rt,
        t,
        5,
        b"1 12 1 1|  A=1...\n+1...\n+1...\n+1...\n+1|\
          3 12 3 1|* C\n\n A=1...\n* C\n+1...\n+1...\n#...\n+1|",
    );
}

// The model's faults, on statements of two cards that begin with a space.
fn models(rt: &impl Print, t: &mut Tally) {
    refused(
        rt,
        t,
        7,
        b"2 21 2 1|A=1\n  A=...\n 2|\
          2 22 2 1|A=1\n  B=...\n Q|\
          1 23 1 1| X=INTGRL(...\n* C\n Y,1)\nY=2|\
          2 24 2 1|C=1\n  A=...\n A|\
          2 25 2 1|A=1\n ENDPRO...\n \n|\
          2 26 2 1|PROCED A=P(B)\n  A=B+...\n* C\n Q\nENDPRO\nB=1|\
          1 26 1 1| PROCED A=...\n P(B)\nENDPRO\nB=1|\
          1 24 1 1, 3 24 3 1|  A=...\nB\n B=A|",
    );
}

// ---- many faults, lines and bytes

// Each fault has its own place.
fn several(rt: &impl Print, t: &mut Tally) {
    refused(
        rt,
        t,
        5,
        b"2 14 3 1, 6 18 8 1|* C\nA=...\n#\n\nB=1\n  C=(2...\n* D\n=3|\
          1 16 2 2, 6 15 6 3, 7 18 7 4|A=1...\n 2X\nB=1...\n* C\n\nD=ABCDEFG\nE=1+|\
          1 18 2 1, 3 18 3 1|A=1*...\n\n+2|",
    );
}

// A text behind so many blank lines, with blank lines behind it.
fn amid_blanks(blanks: usize, text: &[u8]) -> [u8; 1088]
    requires { (blanks ≤ 1024) × (length text.now ≤ 64) }
{
    let mut whole = [10u8; 1088];
    bits::put_bytes(&mut whole, blanks, text);
    whole
}

// A text behind so many blank lines is refused with this number and these faults.
fn behind(
    rt: &impl Print,
    t: &mut Tally,
    blanks: usize,
    text: &[u8],
    number: usize,
    wanted: &[u8],
) {
    if 1024 < blanks {
        t.right(rt, false);
        return;
    }
    if 64 < text.len() {
        t.right(rt, false);
        return;
    }
    let whole = amid_blanks(blanks, text);
    faulty_front(rt, t, &whole, blanks + text.len(), number, wanted);
}

// Lines from 255 on: both bytes of a line.
fn far_lines(rt: &impl Print, t: &mut Tally) {
    behind(rt, t, 254, b"A=1+...\n#", 5, b"255 14 256 1");
    behind(rt, t, 255, b"A=1+...\n* C\n  ", 5, b"256 18 258 2");
    behind(rt, t, 299, b" A=B", 7, b"300 22 300 1");
    behind(rt, t, 509, b" A=1...\n* C\n+2...", 5, b"510 11 512 5");
    behind(rt, t, 511, b"A=1+...\n#", 5, b"512 14 513 1");
    behind(rt, t, 767, b"A=#\nB=#", 5, b"768 14 768 3, 769 14 769 3");
    behind(rt, t, 1021, b" A=1...\n* C\n+2...", 5, b"1022 11 1024 5");
    behind(rt, t, 1022, b"A=1\nA=2", 7, b"1024 21 1024 1");
    behind(rt, t, 1023, b"A=#", 5, b"1024 14 1024 3");
}

// A text with spaces behind it, n bytes in all, has this statement fault.
fn padded(rt: &impl Print, t: &mut Tally, text: &[u8], n: usize, wanted: &[u8]) {
    let mut whole = [32u8; TEXT_BYTES];
    if TEXT_BYTES < text.len() {
        t.right(rt, false);
        return;
    }
    bits::put_bytes(&mut whole, 0, text);
    faulty_front(rt, t, &whole, n, 5, wanted);
}

// 11 on cards of 255 bytes and more, which comes before 13: both bytes of a column.
fn far_columns(rt: &impl Print, t: &mut Tally) {
    padded(rt, t, b"A=1...", 255, b"1 11 1 255");
    padded(rt, t, b"A=1...", 256, b"1 11 1 256");
    padded(rt, t, b"A=1...\n* C\n+2...", 311, b"1 11 3 300");
    padded(rt, t, b"A=1...", 16385, b"1 11 1 16385");
    padded(rt, t, b"A=1...", 32768, b"1 11 1 32768");
}

// Such a card behind 1,023 blank lines.
fn late() -> [u8; 1029] {
    let mut text = [10u8; 1029];
    bits::put_bytes(&mut text, 1023, b"A=1...");
    text
}

// Its last column in the largest text is 32,768 - 1,023 = 31,745.
fn far_corner(rt: &impl Print, t: &mut Tally) {
    padded(rt, t, &late(), 32768, b"1024 11 1024 31745");
}

// An early end on a card of 72 bytes; and 13 on one of 73, which is told at the statement's first byte, space or not.
fn widest(rt: &impl Print, t: &mut Tally) {
    padded(rt, t, b" A=1+", 72, b"1 18 1 72");
    padded(rt, t, b" A=1+...\n* C\n", 85, b"1 18 3 72");
    padded(rt, t, b" A=1", 73, b"1 13 1 1");
    padded(rt, t, b"* C\n\n A=#", 78, b"3 13 3 1");
    padded(rt, t, b" A=1+...\n* C\n2", 86, b"1 13 1 1");
}

// All of these.
pub fn all(rt: &impl Print, t: &mut Tally) {
    bad_bytes(rt, t);
    long_names(rt, t);
    numbers(rt, t);
    either_number(rt, t);
    stops(rt, t);
    later_stops(rt, t);
    openings(rt, t);
    early_ends(rt, t);
    tokenless(rt, t);
    unfinished(rt, t);
    many_cards(rt, t);
    models(rt, t);
    several(rt, t);
    far_lines(rt, t);
    far_columns(rt, t);
    far_corner(rt, t);
    widest(rt, t);
}
