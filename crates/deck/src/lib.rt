// Lines and statements of a text; the faults 11, 12 and 13; a statement's joined text.
#![tactic(auto)]

mod counts;
mod joining;
mod lines;
mod spots;
mod statements;

ghost use Rattle.deck.specs.Contract.{FindsNext, CountsLines, FaultsSize, Joins, FindsSpot};

use counts::count_ends;
use faults::Fault;
use joining::put_card;
use lines::{Lines, is_comment, is_passed, lines_at};
use spots::{byte_spot, last_spot};
use statements::run;

// Where the next line begins, and its number.
#[derive(Clone, Copy)]
pub struct Cursor {
    pub at: usize,
    pub line: usize,
}

// The next statement: its first line's number, where it starts, how many lines it covers and how many of them are cards
// and no comments, whether a line without dots closed it, whether a card has too many bytes, and the cursor behind it.
#[derive(Clone, Copy)]
pub struct Statement {
    pub first: usize,
    pub start: usize,
    pub lines: usize,
    pub cards: usize,
    pub closed: bool,
    pub long: bool,
    pub next: Cursor,
}

// The next statement from a cursor at which reading is fresh; none where the cursor's number is too large to be its
// line's.
pub fn next_statement(text: &[u8], c: Cursor) -> Option<Statement>
    ensures { FindsNext text.now c result }
{
    if c.at.saturating_add(1) < c.line {
        return None;
    }
    let mut ahead = Lines { text, at: c.at };
    let mut first = c.line;
    loop {
        let start = ahead.at;
        let line = ahead.next()?;
        if !is_passed(line) {
            return Some(run(text, start, first, line));
        }
        first += 1;
    }
}

// How many lines a text has.
pub fn line_count(text: &[u8]) -> usize
    ensures { CountsLines text.now result }
{
    let n = count_ends(text);
    match text.last() {
        None | Some(b'\n') => n,
        Some(_) => n + 1,
    }
}

// A statement's fault for its size, if it has one: still open, too many cards, a card too long; in this order.
pub fn size_fault(cards: usize, closed: bool, long: bool) -> Option<Fault>
    ensures { FaultsSize cards closed long result }
{
    if !closed {
        return Some(Fault::Unended);
    }
    if limits::CARDS < cards {
        return Some(Fault::ManyCards);
    }
    if long {
        return Some(Fault::LongCard);
    }
    None
}

// The most bytes of a joined text where no fault 11, 12 or 13 stands.
pub const JOINED_BYTES: usize = limits::CARDS * (limits::CARD_BYTES + 1) - 1;

// Writes the joined text of the cards among so many lines from a place on, those of its bytes for which there is a
// place; its length.
pub fn join(text: &[u8], start: usize, lines: usize, out: &mut [u8]) -> usize
    ensures { Joins text.now start lines out.old result out.new }
{
    let mut w: usize = 0;
    let mut apart = false;
    for line in lines_at(text, start, lines) {
        if !is_comment(line) {
            w = put_card(line, &mut *out, w, apart);
            apart = true;
        }
    }
    w
}

// A place of a statement: its first byte; the token whose first byte has this place in the joined text; its end.
#[derive(Drop)]
pub enum Place {
    AtStart,
    AtToken(usize),
    AtEnd,
}

// Where a place stands: so many lines below the statement's first, at a column from 1.
#[derive(Drop)]
pub struct Spot {
    pub down: usize,
    pub column: usize,
}

// Where a place of the statement of so many lines from a start on stands.
pub fn find_spot(text: &[u8], start: usize, lines: usize, place: Place) -> Spot
    ensures { FindsSpot text.now start lines place result }
{
    match place {
        Place::AtStart => Spot { down: 0, column: 1 },
        Place::AtToken(n) => byte_spot(text, start, lines, n),
        Place::AtEnd => last_spot(text, start, lines),
    }
}
