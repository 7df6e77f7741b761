// What a token is to the grammar, by its kind.
ghost use Rattle.std.specs.Prelude.{◌≡◌, ℕ};
ghost use Rattle.tokens.specs.Symbol.{mark};
ghost use Rattle.tokens.specs.Held.{symbol_of};
ghost use Rattle.grammar.specs.Look.{add_op, mul_op, factor_start};
ghost use Rattle.grammar.specs.Parser.{sign_drafts};
ghost use Rattle.grammar.specs.Codes.{kind_op, skip_of, leaf_arg, face_of};
ghost use Rattle.grammar.specs.Contract.{op_drafts};

use drafts::{CLOCK, FETCH, MINUS, NEGATE, OVER, PLUS, PUSH, TIMES};
use tokens::{COMPAR, INSW, LIMIT, NAME, NUMBER, TIME};

// The kind of the draft of + or -, none of any other token.
pub(crate) fn add_op(k: u8) -> Option<u8>
    ensures { result ≡ kind_op (add_op (mark k)) }
{
    match k {
        b'+' => Some(PLUS),
        b'-' => Some(MINUS),
        _ => None,
    }
}

// The kind of the draft of * or /, none of any other token.
pub(crate) fn mul_op(k: u8) -> Option<u8>
    ensures { result ≡ kind_op (mul_op (mark k)) }
{
    match k {
        b'*' => Some(TIMES),
        b'/' => Some(OVER),
        _ => None,
    }
}

// The kind of the draft that a sign writes behind the first term: a negation of a minus, none of any other token.
pub(crate) fn sign_op(k: u8) -> Option<u8>
    ensures { op_drafts result ≡ sign_drafts (add_op (mark k)) }
{
    match k {
        b'-' => Some(NEGATE),
        _ => None,
    }
}

// The tokens that a sign takes.
pub(crate) fn skip_of(k: u8) -> usize
    ensures { result ≡ skip_of (add_op (mark k)) }
{
    match k {
        b'+' | b'-' => 1,
        _ => 0,
    }
}

// What begins a factor: a token that is one draft; parentheses; a function of so many expressions, with its draft
// behind them.
#[derive(Clone, Copy)]
pub enum Face {
    One { kind: u8 },
    Group,
    Function { count: usize, kind: u8 },
}

// What a token begins as a factor, if it begins one.
pub(crate) fn face_of(k: u8) -> Option<Face>
    ensures { (a : ℕ) → result ≡ face_of (factor_start (symbol_of k a)) }
{
    match k {
        NUMBER => Some(Face::One { kind: PUSH }),
        NAME => Some(Face::One { kind: FETCH }),
        TIME => Some(Face::One { kind: CLOCK }),
        b'(' => Some(Face::Group),
        INSW => Some(Face::Function {
            count: 3,
            kind: drafts::INSW,
        }),
        LIMIT => Some(Face::Function {
            count: 3,
            kind: drafts::LIMIT,
        }),
        COMPAR => Some(Face::Function {
            count: 2,
            kind: drafts::COMPAR,
        }),
        _ => None,
    }
}

// The argument of a draft of one token, by the token's.
pub(crate) fn leaf_arg(kind: u8, a: u64) -> u64
    ensures { result ≡ leaf_arg kind a }
{
    match kind {
        PUSH => bits::bits_of(bits::float_of(a)),
        FETCH => a,
        _ => 0,
    }
}
