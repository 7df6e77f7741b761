// Fault 25: an unpaired header or end, or a header inside a pair.
ghost use Rattle.std.specs.Prelude.{◌≡◌, ◌≤◌, ◌<◌, length, map};
ghost use Rattle.limits.specs.Limits.{most_statements};
ghost use Rattle.blocks.specs.Pairing.{pairs};
ghost use Rattle.blocks.specs.Places.{bracket_kind, brackets_in, faults25_in};
ghost use Rattle.blocks.specs.Working.{Reported, AllStand, Stack, Paired, mate_in, mates_noted, unmated, unmated_in};

use super::brackets::leading_kind;
use super::report::add_fault;
use bits::put;
use bits::reads::{index, short_at};
use drafts::{ENDING, OUTPUT};
use faults::Fault;
use limits::STATEMENTS;
use sheet::Sheet;

// Takes statement j, whose first draft is of this kind: a header is stacked, an end is paired with the header on top.
// How many are on the stack then.
fn note_mate(
    kind: u8,
    j: usize,
    depth: usize,
    stack: &mut [u16],
    mates: &mut [Option<u16>],
) -> usize
    requires { (j < most_statements) × Stack stack.old depth j }
    ensures { Paired (bracket_kind kind) j depth result stack.old stack.new
        (map mate_in mates.old) (map mate_in mates.new) }
{
    match kind {
        OUTPUT => {
            put(stack, depth, j as u16);
            depth + 1
        }
        ENDING => {
            if depth == 0 {
                return 0;
            }
            let head = short_at(stack, depth - 1);
            put(&mut *mates, head, Some(j as u16));
            put(mates, j, Some(head as u16));
            depth - 1
        }
        _ => depth,
    }
}

// Notes the mates of the statements: for a paired header the number of its end, for a paired end that of its header.
fn note_mates(s: &Sheet, mates: &mut [Option<u16>])
    requires { (length s.now.lines.now ≤ most_statements)
        × AllStand (length s.now.lines.now) s.now.bounds.now s.now.kinds.now }
    ensures { map mate_in mates.new
        ≡ mates_noted (pairs (brackets_in (length s.now.lines.now) s.now.bounds.now s.now.kinds.now))
        (map mate_in mates.old) }
{
    let mut stack = [0u16; STATEMENTS];
    let mut depth = 0;
    for j in 0..s.lines.len() {
        depth = note_mate(leading_kind(s, j), j, depth, &mut stack, &mut *mates);
    }
}

// Whether a 25 stands at statement j, by its mate and by how far the mates before it reach: the furthest is the
// statement before this number.
fn is_unmated(kind: u8, j: usize, mate: Option<u16>, reach: usize) -> bool
    requires { j ≤ most_statements }
    ensures { result ≡ unmated (bracket_kind kind) j (mate_in mate) reach }
{
    match kind {
        OUTPUT => mate.is_none() || j + 1 < reach,
        ENDING => mate.is_none(),
        _ => false,
    }
}

// Writes the faults 25 by the mates; how many there are.
fn report_unmated(s: &Sheet, mates: &[Option<u16>], faults: &mut [u8]) -> usize
    requires { (length s.now.lines.now ≤ most_statements) × (length s.now.lines.now ≤ length mates.now)
        × AllStand (length s.now.lines.now) s.now.bounds.now s.now.kinds.now }
    ensures { Reported (unmated_in s.now.lines.now s.now.bounds.now s.now.kinds.now
        (map mate_in mates.now)) 0 result faults.old faults.new }
{
    let mut reach = 0;
    let mut count = 0;
    for (j, &line) in s.lines.iter().enumerate() {
        let mate = mates[j];
        let fault = is_unmated(leading_kind(s, j), j, mate, reach).then_some(Fault::Unpaired);
        count = add_fault(fault, index(line), &mut *faults, count);
        if let Some(place) = mate {
            reach = reach.max(index(place) + 1);
        }
    }
    count
}

// Writes the faults 25 to the front of the list; how many there are.
pub(crate) fn report_unpaired(s: &Sheet, faults: &mut [u8]) -> usize
    requires { (length s.now.lines.now ≤ most_statements)
        × AllStand (length s.now.lines.now) s.now.bounds.now s.now.kinds.now }
    ensures { Reported (faults25_in s.now.lines.now s.now.bounds.now s.now.kinds.now) 0 result
        faults.old faults.new }
{
    let mut mates = [None; STATEMENTS];
    note_mates(s, &mut mates);
    report_unmated(s, &mates, faults)
}
