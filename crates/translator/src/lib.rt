// The translator: from a text to a verdict, with the fault list or the program.
#![tactic(auto)]

ghost use Rattle.std.specs.Prelude.{◌≡◌, cond, ltb, length, Err};
ghost use Rattle.tokens.specs.Held.{held_row};
ghost use Rattle.tokens.specs.Row.{symbols, row_of};
ghost use Rattle.tokens.specs.Skips.{place_behind};
ghost use Rattle.grammar.specs.Parser.{read_row};
ghost use Rattle.deck.specs.Joined.{joined};
ghost use Rattle.deck.specs.declared.Place.TheVariants.{AtStart, AtToken, AtEnd};
ghost use Rattle.deck.specs.Next.{lines_at, cards_at};
ghost use Rattle.sheet.specs.Reader.{parsed, tokened, cards_told, told};
ghost use Rattle.translator.specs.Working.{Tells, RowRoom, JoinedRoom, Before};
ghost use Rattle.translator.specs.Working.{Able, Adds, Room, LacksRoom, ReadFar, asks_names, Answers};
ghost use Rattle.translator.specs.Contract.{TellsNumber, TellsCount, Translates, TranslatesInOrder, NamesSlots};

mod finish;
mod room;

use deck::{Cursor, JOINED_BYTES, Place, Statement};
use faults::Fault;
use grammar::ParseError;
use limits::{FAULT_ROOM, STATEMENTS, TEXT_BYTES, TEXT_LINES};
use tokens::RowError;

// Why a text is not translated, in the order in which it is asked. Of faults it says how many there are.
#[derive(Clone, Copy, PartialEq, Eq)]
pub enum Refusal {
    // The lent fault list is too short.
    ShortFaultList,
    // The text has too many bytes,
    LongText,
    // too many lines,
    ManyLines,
    // or too many statements.
    ManyStatements,
    // Some statement has a fault; so many are listed.
    StatementFaults(usize),
    // There are too many definitions.
    ManyDefinitions,
    // The model has faults; so many are listed.
    ModelFaults(usize),
    // The records are too many, or too many for the lent bytes.
    NoRoom,
    // The entries are too many for the lent bytes, where names are asked for.
    NoRosterRoom,
}

impl Refusal {
    // Its number.
    pub fn number(&self) -> u8
        ensures { TellsNumber self.now result }
    {
        match *self {
            Refusal::ShortFaultList => 1,
            Refusal::LongText => 2,
            Refusal::ManyLines => 3,
            Refusal::ManyStatements => 4,
            Refusal::StatementFaults(_) => 5,
            Refusal::ManyDefinitions => 6,
            Refusal::ModelFaults(_) => 7,
            Refusal::NoRoom => 8,
            Refusal::NoRosterRoom => 10,
        }
    }

    // Its count: how many faults are listed.
    pub fn count(&self) -> usize
        ensures { TellsCount self.now result }
    {
        match *self {
            Refusal::StatementFaults(n) | Refusal::ModelFaults(n) => n,
            _ => 0,
        }
    }
}

// Of a translated text how many records it has, or entries where names are asked for; and how many units are ordered:
// single statements and blocks.
#[derive(Clone, Copy)]
pub struct Ordered {
    pub records: usize,
    pub units: usize,
}

// A statement's fault, and where it is.
#[derive(Drop)]
struct Flawed {
    fault: Fault,
    place: Place,
}

// The tokens of a joined text: the kind and the argument of each.
#[derive(Drop)]
struct TokenRow {
    kinds: [u8; JOINED_BYTES],
    args: [u64; JOINED_BYTES],
}

// How many statements without fault, drafts and faults there are so far.
#[derive(Drop)]
struct SoFar {
    statements: usize,
    drafts: usize,
    faults: usize,
}

// Why reading a text came short of its end: there is no room for the drafts of a statement; or there is one more than
// there may be.
#[derive(Clone, Copy, PartialEq, Eq)]
enum Short {
    NoRoom,
    TooMany,
}

// ---- one statement

// Where token i of a joined text of so many tokens is: those before it are gone over again. Behind the last, the end.
fn place_of(body: &[u8], count: usize, i: usize) -> Place
    ensures { result ≡ cond (ltb i count) (AtToken (place_behind i body.now 0)) AtEnd }
{
    if i < count {
        return Place::AtToken(tokens::token_place(body, i));
    }
    Place::AtEnd
}

// What a joined text says, or its fault; its row of tokens is given by their kinds and their arguments.
fn parse(
    body: &[u8],
    row: &[u8],
    values: &[u64],
    kinds: &mut [u8],
    args: &mut [u64],
    place: usize,
) -> Result<usize, Flawed>
    requires { RowRoom row.now values.now place kinds.old args.old }
    ensures { let ps = (row_of body.now).tokens in
        held_row row.now values.now ≡ symbols ps → length ps ≡ length row.now
        → Tells (parsed ps (read_row (symbols ps))) place kinds.old args.old result kinds.new
        args.new }
{
    match grammar::parse_row(row, values, kinds, args, place) {
        Ok(next) => Ok(next),
        Err(ParseError::Misread(misread)) => Err(Flawed {
            fault: misread.fault,
            place: place_of(body, row.len(), misread.at),
        }),
        Err(ParseError::NoRoom) => unreachable!(),
    }
}

// What a joined text says, or its fault; its tokens are held in a lent row.
fn read_joined(
    body: &[u8],
    row: &mut TokenRow,
    kinds: &mut [u8],
    args: &mut [u64],
    place: usize,
) -> Result<usize, Flawed>
    requires { JoinedRoom body.now place kinds.old args.old }
    ensures { Tells (tokened (row_of body.now)) place kinds.old args.old
        result kinds.new args.new }
{
    match tokens::row(body, &mut row.kinds, &mut row.args) {
        Ok(n) => parse(body, &row.kinds[..n], &row.args[..n], kinds, args, place),
        Err(
            RowError::Bad {
                fault,
                count: _,
                at,
            },
        ) => Err(Flawed {
            fault,
            place: Place::AtToken(at),
        }),
        Err(RowError::NoRoom) => unreachable!(),
    }
}

// What the cards of a statement say, or their fault.
fn read_cards(
    text: &[u8],
    s: Statement,
    row: &mut TokenRow,
    kinds: &mut [u8],
    args: &mut [u64],
    place: usize,
) -> Result<usize, Flawed>
    requires { JoinedRoom (joined (cards_at text.now s.start s.lines)) place kinds.old args.old }
    ensures { Tells (tokened (row_of (joined (cards_at text.now s.start s.lines)))) place
        kinds.old args.old
        result kinds.new args.new }
{
    let mut body = [0u8; JOINED_BYTES];
    let n = deck::join(text, s.start, s.lines, &mut body);
    read_joined(&body[..n], row, kinds, args, place)
}

// Where a fault for size is: of a statement that is closed its first byte, else its end.
fn size_place(closed: bool) -> Place
    ensures { result ≡ cond closed AtStart AtEnd }
{
    if closed {
        return Place::AtStart;
    }
    Place::AtEnd
}

// What a statement says, or its fault. The text of one line is its joined text.
fn read_statement(
    text: &[u8],
    s: Statement,
    row: &mut TokenRow,
    kinds: &mut [u8],
    args: &mut [u64],
    place: usize,
) -> Result<usize, Flawed>
    requires { Before text.now s place kinds.old args.old }
    ensures { Tells (cards_told (cards_at text.now s.start s.lines) s.closed) place
        kinds.old args.old result kinds.new args.new }
{
    if let Some(fault) = deck::size_fault(s.cards, s.closed, s.long) {
        return Err(Flawed {
            fault,
            place: size_place(s.closed),
        });
    }
    if s.lines == 1 {
        let end = s.next.at - 1;
        return read_joined(&text[s.start..end], row, kinds, args, place);
    }
    read_cards(text, s, row, kinds, args, place)
}

// ---- all statements

// One statement more: its drafts, its number and where its drafts end; or its fault at its place.
fn read_one(
    text: &[u8],
    s: Statement,
    n: SoFar,
    row: &mut TokenRow,
    kinds: &mut [u8],
    args: &mut [u64],
    lines: &mut [u16],
    bounds: &mut [u16],
    list: &mut [u8],
) -> SoFar
    requires { Able text.now s n kinds.old args.old lines.old bounds.old }
    ensures { Adds (told (lines_at text.now s.start s.lines) s.closed) s.first n
        kinds.old args.old lines.old bounds.old list.old
        result kinds.new args.new lines.new bounds.new list.new }
{
    let statements = n.statements;
    let drafts = n.drafts;
    let faults = n.faults;
    match read_statement(text, s, row, kinds, args, drafts) {
        Ok(end) => {
            lines[statements] = s.first as u16;
            bounds[statements + 1] = end as u16;
            SoFar {
                statements: statements + 1,
                drafts: end,
                faults,
            }
        }
        Err(Flawed { fault, place }) => {
            let at = deck::find_spot(text, s.start, s.lines, place);
            let code = u8::from(fault);
            sheet::put_fault(list, faults, s.first, code, s.first + at.down, at.column);
            SoFar {
                statements,
                drafts,
                faults: faults + 1,
            }
        }
    }
}

// Whether among so many places, of which d are taken, there are none for the drafts of a statement that stands from a
// start to one byte before the next.
fn lacks_room(places: usize, d: usize, start: usize, next: usize) -> bool
    ensures { LacksRoom places d start next result }
{
    if places < d {
        return true;
    }
    if next <= start {
        return false;
    }
    places - d < next - 1 - start
}

// Reads the statements of a text, as long as they are not too many and there is room for their drafts.
fn read_all(
    text: &[u8],
    kinds: &mut [u8],
    args: &mut [u64],
    lines: &mut [u16],
    bounds: &mut [u16],
    list: &mut [u8],
) -> Result<SoFar, Short>
    requires { Room text.now list.old kinds.old args.old lines.old bounds.old }
    ensures { ReadFar text.now list.old result
        kinds.new args.new lines.new bounds.new list.new }
{
    let mut row = TokenRow {
        kinds: [0u8; JOINED_BYTES],
        args: [0u64; JOINED_BYTES],
    };
    let mut n = SoFar {
        statements: 0,
        drafts: 0,
        faults: 0,
    };
    let mut c = Cursor { at: 0, line: 1 };
    while let Some(s) = deck::next_statement(text, c) {
        if STATEMENTS <= n.statements + n.faults {
            return Err(Short::TooMany);
        }
        if lacks_room(kinds.len(), n.drafts, s.start, s.next.at) {
            return Err(Short::NoRoom);
        }
        n = read_one(
            text,
            s,
            n,
            &mut row,
            &mut *kinds,
            &mut *args,
            &mut *lines,
            &mut *bounds,
            &mut *list,
        );
        c = s.next;
    }
    Ok(n)
}

// ---- the entries

// The verdict on a text, with the fault list written to the front of what is lent. For 0 the program is written, and
// the order of its units handed out by their first lines; or, where names are asked for by lending rows for them, the
// roster. Few bytes have few lines, which are not counted then.
#[tactic(auto, using(crate::proofs::Verdicts::says_one))]
fn answer(
    rows: &mut [u8],
    text: &[u8],
    faults: &mut [u8],
    out: &mut [u8],
    ordered: &mut [u16],
) -> Result<Ordered, Refusal>
    ensures { Answers (asks_names (length rows.old)) text.now faults.old
        out.old ordered.old
        result faults.new out.new ordered.new }
{
    if faults.len() < FAULT_ROOM {
        return Err(Refusal::ShortFaultList);
    }
    if TEXT_BYTES < text.len() {
        return Err(Refusal::LongText);
    }
    if text.len() <= room::SMALL {
        return room::in_small_room(rows, text, faults, out, ordered);
    }
    if text.len() <= TEXT_LINES {
        return room::in_large_room(rows, text, faults, out, ordered);
    }
    if TEXT_LINES < deck::line_count(text) {
        return Err(Refusal::ManyLines);
    }
    room::in_large_room(rows, text, faults, out, ordered)
}

// The verdict on a text: its number, the count, and the fault list or the program written to the front of what is lent;
// and the order of its units, handed out by their first lines.
pub fn translate_in_order(
    text: &[u8],
    faults: &mut [u8],
    program: &mut [u8],
    ordered: &mut [u16],
) -> Result<Ordered, Refusal>
    ensures { TranslatesInOrder text.now faults.old program.old
        ordered.old result faults.new program.new ordered.new }
{
    let mut no_rows = [0u8; 0];
    answer(&mut no_rows, text, faults, program, ordered)
}

// The verdict alone: no place is lent for the order.
pub fn translate(text: &[u8], faults: &mut [u8], program: &mut [u8]) -> Result<usize, Refusal>
    ensures { Translates text.now faults.old program.old result
        faults.new program.new }
{
    let mut none = [0u16; 0];
    let done = translate_in_order(text, faults, program, &mut none)?;
    Ok(done.records)
}

// A name for every slot: the verdict of translating, with the fault list; for 0, if there is room, an entry for each
// definition, written to the front of what is lent, and how many there are.
pub fn names(text: &[u8], faults: &mut [u8], out: &mut [u8]) -> Result<usize, Refusal>
    ensures { NamesSlots text.now faults.old out.old result faults.new
        out.new }
{
    let mut none = [0u16; 0];
    let mut rows = [0u8; finish::ROSTER_ROOM];
    let done = answer(&mut rows, text, faults, out, &mut none)?;
    Ok(done.records)
}
