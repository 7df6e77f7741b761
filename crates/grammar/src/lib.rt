// The grammar of statements: a row of tokens is read, and its drafts are written.
#![tactic(auto)]

ghost use Rattle.std.specs.Prelude.{◌≡◌, ◌+◌, length, ltb};
ghost use Rattle.grammar.specs.declared.ParseError.TheVariants.{Misread as Misreads};
ghost use Rattle.grammar.specs.Contract.{ParsesRow};

mod expressions;
mod faces;
mod forms;
mod output;
mod row;

use faults::Fault;
use forms::any_statement;
use output::Output;
use row::Row;

// Why a row is not parsed: a buffer is too short; or a fault, and its token's place.
#[derive(Clone, Copy)]
pub enum ParseError {
    NoRoom,
    Misread(Misread),
}

// A fault of the grammar, and its token's place.
#[derive(Clone, Copy)]
pub struct Misread {
    pub fault: Fault,
    pub at: usize,
}

impl From<Misread> for ParseError {
    ghost from_gives = { λ m e. e ≡ Misreads m };

    fn from(m: Misread) -> ParseError {
        ParseError::Misread(m)
    }
}

// Whether a buffer has no room for n drafts from a place on.
fn lacks(length: usize, place: usize, n: usize) -> bool
    ensures { result ≡ ltb length (place + n) }
{
    length < place || length - place < n
}

// Reads the row that kinds and arguments hold, and writes its drafts from a place on; the place behind them.
pub fn parse_row(
    kinds: &[u8],
    args: &[u64],
    out_kinds: &mut [u8],
    out_args: &mut [u64],
    place: usize,
) -> Result<usize, ParseError>
    ensures { ParsesRow kinds.now args.now out_kinds.old
        out_args.old place
        result out_kinds.new out_args.new }
{
    let n = kinds.len();
    if args.len() != n || lacks(out_kinds.len(), place, n) || lacks(out_args.len(), place, n) {
        return Err(ParseError::NoRoom);
    }
    let row = Row { kinds, args };
    let mut out = Output {
        kinds: out_kinds,
        args: out_args,
        place,
    };
    let next = any_statement(&row, &mut out)?;
    if next != n {
        return Err(ParseError::Misread(Misread {
            fault: Fault::Ungrammatical,
            at: next,
        }));
    }
    Ok(out.place)
}
