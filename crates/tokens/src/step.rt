// What one cut gives a row: the token as two numbers, its kind and its argument.
ghost use Rattle.std.specs.Prelude.{◌≡◌, ◌≤◌, length};
ghost use Rattle.limits.specs.Limits.{name_bytes};
ghost use Rattle.tokens.specs.Symbol.{symbol_named};
ghost use Rattle.tokens.specs.Steps.{held_as, row_step_at};

use super::name::key_of;
use super::word::kind_of;
use crate::{NAME, NUMBER, RowError, Token, take_cut};

// A token's kind and argument.
#[derive(Clone, Copy)]
pub struct Held {
    pub kind: u8,
    pub arg: u64,
}

// A name or a reserved word as it is held.
fn held_name(name: &[u8]) -> Held
    requires { length name.now ≤ name_bytes }
    ensures { result ≡ held_as (symbol_named name.now) }
{
    let kind = kind_of(name);
    let arg = if kind == NAME { key_of(name) } else { 0 };
    Held { kind, arg }
}

// A token as it is held, and the place where the next one begins.
#[derive(Clone, Copy)]
pub struct Step {
    pub held: Held,
    pub next: usize,
}

// The next step from a place on, or none at the text's end; a bad token is told with the count of those before it.
pub fn take_step(body: &[u8], from: usize, count: usize) -> Result<Option<Step>, RowError>
    ensures { result ≡ row_step_at body.now from count }
{
    let cut = take_cut(body, from);
    let held = match cut.token {
        Token::Name(at, n) => held_name(&body[at..at + n]),
        Token::Mark(b) => Held { kind: b, arg: 0 },
        Token::Number(x) => Held {
            kind: NUMBER,
            arg: bits::bits_of(x),
        },
        Token::End => return Ok(None),
        Token::Bad(fault) => {
            return Err(RowError::Bad {
                fault,
                count,
                at: cut.at,
            });
        }
    };
    Ok(Some(Step {
        held,
        next: cut.next,
    }))
}
