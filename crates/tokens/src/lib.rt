// Tokens: a name, a mark, or a number with its float value.
#![tactic(auto)]

mod bytes;
mod name;
mod number;
mod places;
mod step;
mod word;

ghost use Rattle.std.specs.Prelude.{◌≡◌};
ghost use Rattle.tokens.specs.Token.{bad_at};
ghost use Rattle.tokens.specs.Contract.{TakesCut, WritesRow, PlacesToken};

use bytes::{is_figure, is_mark, past_spaces};
use faults::Fault;
use name::read_name;
use number::read_number;
use places::past_token;
use step::take_step;

// A name's place and length, a mark's byte, a number's value; the end of the text; what is wrong with a bad token.
#[derive(Clone, Copy)]
pub enum Token {
    Name(usize, usize),
    Mark(u8),
    Number(f64),
    End,
    Bad(Fault),
}

// One cut: the token, the place of its first byte, and the place where the next one begins.
#[derive(Clone, Copy)]
pub struct Cut {
    pub token: Token,
    pub at: usize,
    pub next: usize,
}

// A bad token; behind it nothing is read.
fn bad(fault: Fault, at: usize) -> Cut
    ensures { result ≡ bad_at fault at }
{
    Cut {
        token: Token::Bad(fault),
        at,
        next: at,
    }
}

// The next token from a place on.
pub fn take_cut(body: &[u8], from: usize) -> Cut
    ensures { TakesCut body.now from result }
{
    let at = past_spaces(body, from);
    let Some(&b) = body.get(at) else {
        return Cut {
            token: Token::End,
            at,
            next: at,
        };
    };
    if b.is_ascii_uppercase() {
        read_name(body, at)
    } else if is_mark(b) {
        Cut {
            token: Token::Mark(b),
            at,
            next: at + 1,
        }
    } else if is_figure(b) {
        read_number(body, at)
    } else {
        bad(Fault::StrayByte, at)
    }
}

// The kinds: of a number, of a name, of each role of reserved words. A mark's is its byte.
pub const NUMBER: u8 = 1;

pub const NAME: u8 = 2;

pub const CONSTANTS: u8 = 3;

pub const INTGRL: u8 = 4;

pub const TIME: u8 = 5;

pub const INSW: u8 = 6;

pub const LIMIT: u8 = 7;

pub const COMPAR: u8 = 8;

pub const PROCED: u8 = 9;

pub const ENDPRO: u8 = 10;

// Why a text has no whole row: no room for it; or the first bad token's fault and place, behind so many good ones.
#[derive(Clone, Copy)]
pub enum RowError {
    NoRoom,
    Bad {
        fault: Fault,
        count: usize,
        at: usize,
    },
}

// Writes the kind and the argument of each token of a text, up to the end or the first bad one, and says how many there
// are. It takes room for a token for each byte.
pub fn row(body: &[u8], kinds: &mut [u8], args: &mut [u64]) -> Result<usize, RowError>
    ensures { WritesRow body.now kinds.old args.old result kinds.new args.new }
{
    if kinds.len() < body.len() || args.len() < body.len() {
        return Err(RowError::NoRoom);
    }
    let mut from = 0;
    let mut n = 0;
    while let Some(step) = take_step(body, from, n)? {
        kinds[n] = step.held.kind;
        args[n] = step.held.arg;
        n += 1;
        from = step.next;
    }
    Ok(n)
}

// Where token i of a text begins, if those before it are good: they are skipped.
pub fn token_place(body: &[u8], i: usize) -> usize
    ensures { PlacesToken body.now i result }
{
    let mut from = 0;
    for _k in 0..i {
        let at = past_spaces(body, from);
        from = past_token(body, at);
    }
    past_spaces(body, from)
}
