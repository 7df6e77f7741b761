// Texts at each limit and one past it.
ghost use Rattle.std.specs.Prelude.{◌≤◌, ◌<◌};

use crate::made::{Rule, constants_program, fill, links_program, put_each, put_sums, sums_program};
use crate::wanted::{
    blank, exact, faulty, faulty_front, lent, put_faults, record, silent, translated,
};
use limits::{FAULT_ROOM, PROGRAM_ROOM};
use tally::Tally;

// The first n bytes of a text have this program; a text that is shorter counts as one that differs.
fn front(
    rt: &impl Print,
    t: &mut Tally,
    text: &[u8],
    n: usize,
    count: usize,
    wanted: &[u8; PROGRAM_ROOM],
) {
    if text.len() < n {
        t.right(rt, false);
        return;
    }
    exact(rt, t, &text[..n], count, wanted);
}

// The first n bytes of a text are refused with this number, silently.
fn front_silent(rt: &impl Print, t: &mut Tally, text: &[u8], n: usize, number: usize) {
    if text.len() < n {
        t.right(rt, false);
        return;
    }
    silent(rt, t, &text[..n], number);
}

// One number is stored.
fn stored(rt: &impl Print, t: &mut Tally, text: &[u8]) {
    let w = sums_program(2, 2);
    exact(rt, t, text, 2, &w);
}

// ---- lines

// 513, 1,024 and 1,025 lines; a last line without byte 10 counts.
fn lines(rt: &impl Print, t: &mut Tally) {
    let mut text = [10u8; 1025];
    silent(rt, t, &text[..513], 0);
    silent(rt, t, &text[..1024], 0);
    silent(rt, t, &text, 3);
    text[1024] = 42;
    silent(rt, t, &text, 3);
    text[1023] = 42;
    silent(rt, t, &text[..1024], 0);
}

// A statement on line 1,024, without byte 10.
fn late() -> [u8; 1026] {
    let mut text = [10u8; 1026];
    bits::put_bytes(&mut text, 1023, b"A=1");
    text
}

// Both bytes of that line stand in its records.
fn last_line(rt: &impl Print, t: &mut Tally) {
    let mut w = blank();
    record(&mut w, 0, 3, 0, 1024, 0x3ff0_0000_0000_0000);
    record(&mut w, 1, 13, 1, 1024, 0);
    translated(rt, t, &late(), 2, &w);
}

// ---- statements

// 513 statements of one definition each.
fn names() -> [u8; 3591] {
    let mut text = [0u8; 3591];
    fill(&mut text, Rule::Sum, 0, 6);
    text
}

// 512 are translated into 1,024 records, and 257 into 514. 513 are refused.
fn statements(rt: &impl Print, t: &mut Tally) {
    let text = names();
    front(rt, t, &text, 1799, 514, &sums_program(514, 2));
    front(rt, t, &text, 3584, 1024, &sums_program(1024, 2));
    silent(rt, t, &text, 4);
}

// The same with a bad byte in the 512th.
fn bad_names() -> [u8; 3591] {
    let mut text = names();
    text[3577] = 35;
    text
}

// That is told of 512, and of 513 only that they are too many.
fn bad_statements(rt: &impl Print, t: &mut Tally) {
    let text = bad_names();
    faulty_front(rt, t, &text, 3584, 5, b"512 14 512 1");
    silent(rt, t, &text, 4);
}

// 512 statements, each but the last using the next.
fn links() -> [u8; 5120] {
    let mut text = [0u8; 5120];
    fill(&mut text, Rule::Link, 0, 9);
    bits::put_bytes(&mut text, 5115, b"1   ");
    text
}

// They are put the other way round.
fn chain(rt: &impl Print, t: &mut Tally) {
    exact(rt, t, &links(), 1024, &links_program());
}

// ---- definitions

// 1,024 constants in 128 statements.
fn constants() -> [u8; 7936] {
    let mut text = [0u8; 7936];
    fill(&mut text, Rule::Constants, 0, 61);
    text
}

// The same with another figure at a place.
fn renamed(place: usize, figure: u8) -> [u8; 7936]
    requires { place < 7936 }
{
    let mut text = constants();
    text[place] = figure;
    text
}

// 1,023 of them are translated, and so are 256. The last, B023, is one too many, also if it is B022 like the one before
// it. Of 1,023 the last may not be B021.
fn definitions(rt: &impl Print, t: &mut Tally) {
    let text = constants();
    front(rt, t, &text, 1984, 256, &constants_program(256));
    front(rt, t, &text, 7928, 1023, &constants_program(1023));
    silent(rt, t, &text, 6);
    silent(rt, t, &renamed(7932, b'2'), 6);
    faulty_front(rt, t, &renamed(7925, b'1'), 7928, 7, b"128 21 128 1");
}

// 129 such statements, the first with a bad byte.
fn bad_constants() -> [u8; 7998] {
    let mut text = [0u8; 7998];
    fill(&mut text, Rule::Constants, 0, 61);
    text[0] = 35;
    text
}

// That is told, though the others have 1,024 definitions.
fn bad_definitions(rt: &impl Print, t: &mut Tally) {
    faulty(rt, t, &bad_constants(), 5, b"1 14 1 1");
}

// 73 statements of eight constants, and 440 of one definition: 513 statements, and 1,024 definitions.
fn mixture() -> [u8; 7606] {
    let mut text = [0u8; 7606];
    fill(&mut text, Rule::Constants, 0, 61);
    fill(&mut text[4526..], Rule::Sum, 584, 6);
    text
}

// The program of all but the last.
fn mixture_program() -> [u8; PROGRAM_ROOM] {
    let mut program = constants_program(584);
    put_sums(&mut program, 584, 878, 2, 585, 74);
    program
}

// The mixture with one statement of 14 bytes in the place of its last two.
fn with_last(last: &[u8]) -> [u8; 7606] {
    let mut text = mixture();
    if last.len() == 14 {
        bits::put_bytes(&mut text, 7592, last);
    }
    text
}

// 512 statements with 1,023 definitions. A statement more is refused first; 1,024 definitions in 512 statements are too
// many, and doubles count.
fn both(rt: &impl Print, t: &mut Tally) {
    let text = mixture();
    front(rt, t, &text, 7599, 1462, &mixture_program());
    silent(rt, t, &text, 4);
    silent(rt, t, &with_last(b"CONST B=1,C=1\n"), 6);
    silent(rt, t, &with_last(b"CONST B=1,B=1\n"), 6);
}

// ---- slots of two bytes

// 127 statements of eight constants, which have the slots 1 to 1,016.
fn many_constants() -> [u8; 8000] {
    let mut text = [10u8; 8000];
    fill(&mut text[..7874], Rule::Constants, 0, 61);
    text
}

// Others stand behind them.
fn behind_constants(tail: &[u8]) -> [u8; 8000] {
    let mut text = many_constants();
    if tail.len() <= 126 {
        bits::put_bytes(&mut text, 7874, tail);
    }
    text
}

// Y is slot 1,022, the state X slot 1,023 and A255 slot 256.
fn last_slots_program() -> [u8; PROGRAM_ROOM] {
    let mut w = constants_program(1021);
    record(&mut w, 1021, 2, 1023, 130, 0x4000_0000_0000_0000);
    record(&mut w, 1022, 4, 1023, 129, 0);
    record(&mut w, 1023, 4, 256, 129, 0);
    record(&mut w, 1024, 5, 0, 129, 0);
    record(&mut w, 1025, 13, 1022, 129, 0);
    record(&mut w, 1026, 4, 1022, 130, 0);
    record(&mut w, 1027, 14, 1023, 130, 0);
    w
}

// Five constants more, and these two.
fn last_slots(rt: &impl Print, t: &mut Tally) {
    let text = behind_constants(b"CONST U=1,V=1,W=1,S=1,T=1\nY=X+A255\nX=INTGRL(2,Y)\n");
    exact(rt, t, &text, 1028, &last_slots_program());
}

// P of the block is slot 1,017, R is 1,018 and the state X is 1,019. A254, A255 and A256 are the slots 255 to 257.
fn block_slots_program() -> [u8; PROGRAM_ROOM] {
    let mut w = constants_program(1016);
    record(&mut w, 1016, 2, 1019, 133, 0x3ff0_0000_0000_0000);
    record(&mut w, 1017, 4, 256, 132, 0);
    record(&mut w, 1018, 4, 257, 132, 0);
    record(&mut w, 1019, 7, 0, 132, 0);
    record(&mut w, 1020, 13, 1018, 132, 0);
    record(&mut w, 1021, 4, 1018, 129, 0);
    record(&mut w, 1022, 13, 1017, 129, 0);
    record(&mut w, 1023, 4, 1017, 130, 0);
    record(&mut w, 1024, 4, 255, 130, 0);
    record(&mut w, 1025, 6, 0, 130, 0);
    record(&mut w, 1026, 15, 1017, 130, 0);
    record(&mut w, 1027, 4, 1017, 133, 0);
    record(&mut w, 1028, 14, 1019, 133, 0);
    w
}

// The block, which sets P twice, stands behind R and before X.
fn block_slots(rt: &impl Print, t: &mut Tally) {
    let text = behind_constants(
        b"PROCED P=Q(R)\nP=R\nP=P-A254\nENDPRO\nR=A255*A256\nX=INTGRL(B015,P)\n",
    );
    exact(rt, t, &text, 1029, &block_slots_program());
}

// Each setting in a block counts: with seven there are 1,023, and with eight one too many.
fn settings(rt: &impl Print, t: &mut Tally) {
    let seven = behind_constants(b"PROCED P=Q(B015)\nP=1\nP=1\nP=1\nP=1\nP=1\nP=1\nP=Z\nENDPRO\n");
    faulty(rt, t, &seven, 7, b"135 26 135 1");
    let eight = behind_constants(
        b"PROCED P=Q(B015)\nP=1\nP=1\nP=1\nP=1\nP=1\nP=1\nP=1\nP=Z\nENDPRO\n",
    );
    silent(rt, t, &eight, 6);
}

// ---- a statement

// 72 and 73 bytes, spaces counted.
fn bytes(rt: &impl Print, t: &mut Tally) {
    let mut text = [32u8; 73];
    bits::put_bytes(&mut text, 0, b"A=1");
    stored(rt, t, &text[..72]);
    faulty(rt, t, &text, 5, b"1 13 1 1");
}

// 4 and 5 lines, 6 and 7 letters.
fn runs_and_names(rt: &impl Print, t: &mut Tally) {
    let w = sums_program(8, 8);
    exact(rt, t, b"A=1...\n+1...\n+1...\n+1", 8, &w);
    faulty(rt, t, b"A=1...\n+1...\n+1...\n+1...\n+1", 5, b"1 12 1 1");
    stored(rt, t, b"ABCDEF=1");
    faulty(rt, t, b"ABCDEFG=1", 5, b"1 15 1 1");
}

// 16 and 17 levels, of parentheses and of calls; those of INTGRL are not counted.
fn levels(rt: &impl Print, t: &mut Tally) {
    let one = 0x3ff0_0000_0000_0000;
    let two = 0x4000_0000_0000_0000;
    let mut w = blank();
    record(&mut w, 0, 2, 1, 1, one);
    record(&mut w, 1, 3, 0, 1, one);
    record(&mut w, 2, 14, 1, 1, 0);
    let mut x = blank();
    record(&mut x, 0, 3, 0, 1, one);
    record(&mut x, 1, 3, 0, 1, two);
    record(&mut x, 2, 12, 0, 1, 0);
    record(&mut x, 3, 13, 1, 1, 0);
    stored(rt, t, b"A=((((((((((((((((1))))))))))))))))");
    faulty(
        rt,
        t,
        b"A=(((((((((((((((((1)))))))))))))))))",
        5,
        b"1 19 1 19",
    );
    translated(
        rt,
        t,
        b"A=INTGRL(1,((((((((((((((((1)))))))))))))))))",
        3,
        &w,
    );
    translated(rt, t, b"A=(((((((((((((((COMPAR(1,2))))))))))))))))", 4, &x);
    faulty(
        rt,
        t,
        b"A=((((((((((((((((COMPAR(1,2)))))))))))))))))",
        5,
        b"1 19 1 25",
    );
}

// ---- bytes and records

// 16,385, 32,768 and 32,769 bytes, of a comment.
fn size(rt: &impl Print, t: &mut Tally) {
    let text = [42u8; 32769];
    silent(rt, t, &text[..16385], 0);
    silent(rt, t, &text[..32768], 0);
    silent(rt, t, &text, 2);
}

// 449 sums, the last of which ends with byte 32,768.
fn crowd() -> [u8; 32769] {
    let mut text = [0u8; 32769];
    fill(&mut text, Rule::Sum, 0, 72);
    text
}

// They have too many records. A byte more is refused first.
fn crowded(rt: &impl Print, t: &mut Tally) {
    let text = crowd();
    front_silent(rt, t, &text, 32768, 8);
    silent(rt, t, &text, 2);
}

// 60 sums of 34 ones have 68 records each. A comment fills the largest text.
fn sixty() -> [u8; 32768] {
    let mut text = [42u8; 32768];
    fill(&mut text[..4380], Rule::Sum, 0, 72);
    text
}

// One of 8 ones has 16.
fn sums() -> [u8; 32768] {
    let mut text = sixty();
    bits::put_bytes(&mut text, 4380, b"B=1+1+1+1+1+1+1+1\n");
    text
}

// A constant has one more.
fn sums_and_one() -> [u8; 32768] {
    let mut text = sums();
    bits::put_bytes(&mut text, 4398, b"CONST C=1\n");
    text
}

// The program of the sums.
fn fullest() -> [u8; PROGRAM_ROOM] {
    let mut program = sums_program(4080, 68);
    put_sums(&mut program, 4080, 16, 16, 61, 61);
    program
}

// 4,096 records are the most.
fn records(rt: &impl Print, t: &mut Tally) {
    exact(rt, t, &sums(), 4096, &fullest());
    silent(rt, t, &sums_and_one(), 8);
}

// ---- lent room

// Each of 512 lines has a fault of this code and at this column, and they fill 4,096 bytes.
fn full_list(rt: &impl Print, t: &mut Tally, text: &[u8], number: usize, code: u64, column: u64) {
    let mut faults = [170u8; 4096];
    let mut program = [170u8; 64];
    let mut list = [170u8; 4096];
    put_each(&mut list, code, column);
    let kept = [170u8; 64];
    lent(
        rt,
        t,
        text,
        &mut faults,
        &mut program,
        number,
        512,
        &list,
        &kept,
    );
}

// 512 statements end behind their equals sign; 512 headers have no end; 512 statements are a loop.
fn full_lists(rt: &impl Print, t: &mut Tally) {
    let mut ends = [0u8; 3072];
    fill(&mut ends, Rule::Sum, 0, 5);
    full_list(rt, t, &ends, 5, 18, 5);
    let mut headers = [0u8; 7168];
    fill(&mut headers, Rule::Header, 0, 13);
    full_list(rt, t, &headers, 7, 25, 1);
    let mut links = [0u8; 5120];
    fill(&mut links, Rule::Link, 0, 9);
    full_list(rt, t, &links, 7, 24, 1);
}

// With n bytes lent for faults, a text with one has this number and count, and those bytes then hold what is wanted.
fn with_room(rt: &impl Print, t: &mut Tally, n: usize, number: usize, count: usize, list: &[u8])
    requires { n ≤ 4104 }
{
    if list.len() < n {
        t.right(rt, false);
        return;
    }
    let mut faults = [170u8; 4104];
    let mut program = [170u8; 64];
    let kept = [170u8; 64];
    lent(
        rt,
        t,
        b"A=#",
        &mut faults[..n],
        &mut program,
        number,
        count,
        &list[..n],
        &kept,
    );
}

// Fewer than 4,096 bytes are too few, and nothing is written.
fn fault_room(rt: &impl Print, t: &mut Tally, n: usize)
    requires { n ≤ 4104 }
{
    let mut list = [170u8; 4104];
    if n < 4096 {
        with_room(rt, t, n, 1, 0, &list);
        return;
    }
    put_faults(b"1 14 1 3", &mut list);
    with_room(rt, t, n, 5, 1, &list);
}

// Half of that, and every room from a fault less to a fault more.
fn fault_rooms(rt: &impl Print, t: &mut Tally) {
    fault_room(rt, t, 2048);
    for n in 4088..4105 {
        fault_room(rt, t, n);
    }
}

// 4,095 bytes for faults are too few for a text without fault too, and so are 63 for four records.
fn short_rooms(rt: &impl Print, t: &mut Tally) {
    let mut faults = [170u8; 4095];
    let mut program = [170u8; 63];
    let mut list = [170u8; FAULT_ROOM];
    let short = [170u8; 4095];
    let kept = [170u8; 63];
    let whole = [170u8; FAULT_ROOM];
    lent(
        rt,
        t,
        b"A=1\nB=2",
        &mut faults,
        &mut program,
        1,
        0,
        &short,
        &kept,
    );
    lent(
        rt,
        t,
        b"A=1\nB=2",
        &mut list,
        &mut program,
        8,
        0,
        &whole,
        &kept,
    );
}

// 64 bytes hold four records, and so do 79, but not five.
fn rooms(rt: &impl Print, t: &mut Tally) {
    let one = 0x3ff0_0000_0000_0000;
    let two = 0x4000_0000_0000_0000;
    let mut faults = [170u8; FAULT_ROOM];
    let whole = [170u8; FAULT_ROOM];
    let mut program = [170u8; 64];
    let mut wanted = [170u8; 64];
    record(&mut wanted, 0, 3, 0, 1, one);
    record(&mut wanted, 1, 13, 1, 1, 0);
    record(&mut wanted, 2, 3, 0, 2, two);
    record(&mut wanted, 3, 13, 2, 2, 0);
    lent(
        rt,
        t,
        b"A=1\nB=2",
        &mut faults,
        &mut program,
        0,
        4,
        &whole,
        &wanted,
    );
    let mut more = [170u8; 79];
    let kept = [170u8; 79];
    lent(
        rt,
        t,
        b"A=1\nB=2\nCONST C=3",
        &mut faults,
        &mut more,
        8,
        0,
        &whole,
        &kept,
    );
}

// All of these.
pub fn all(rt: &impl Print, t: &mut Tally) {
    lines(rt, t);
    last_line(rt, t);
    statements(rt, t);
    bad_statements(rt, t);
    chain(rt, t);
    definitions(rt, t);
    bad_definitions(rt, t);
    both(rt, t);
    last_slots(rt, t);
    block_slots(rt, t);
    settings(rt, t);
    bytes(rt, t);
    runs_and_names(rt, t);
    levels(rt, t);
    size(rt, t);
    crowded(rt, t);
    records(rt, t);
    full_lists(rt, t);
    fault_rooms(rt, t);
    short_rooms(rt, t);
    rooms(rt, t);
}
