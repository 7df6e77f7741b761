// Expressions: expression, term and factor call one another in a cycle; tokens left and levels allowed fall.
ghost use Rattle.std.specs.Prelude.{◌≡◌, get_or};
ghost use Rattle.grammar.specs.Look.{Opening};
ghost use Rattle.grammar.specs.Grammar.{expr, term, factor, opened, list};
ghost use Rattle.grammar.specs.Codes.{want_of, kind_opening};
ghost use Rattle.grammar.specs.Contract.{ReadyAt, SameBuffers, ReadsPart};

use super::Misread;
use super::faces::{Face, add_op, face_of, leaf_arg, mul_op, sign_op, skip_of};
use super::output::Output;
use super::row::Row;
use faults::Fault;

// An expression: a sign or none, a term, and more terms, each behind + or -. Behind each term stands the draft of what
// stands before it. The answer here and below: the place of the next token.
#[cycle(expression_factor_items_opened_term)]
pub(crate) fn expression(
    row: &Row,
    at: usize,
    allowed: usize,
    out: &mut Output,
) -> Result<usize, Misread>
    requires { ReadyAt row.now at out.old }
    ensures same { SameBuffers out.old out.new }
    ensures reads { ReadsPart row.now expr allowed at out.old result out.new }
{
    let k = row.kind(at);
    let mut op = sign_op(k);
    let mut i = at + skip_of(k);
    loop {
        let next = term(row, i, allowed, out)?;
        out.emit_op(op);
        let Some(kind) = add_op(row.kind(next)) else {
            return Ok(next);
        };
        op = Some(kind);
        i = next + 1;
    }
}

// A term: factors, each but the first behind * or /, with its draft behind the factor.
#[cycle(expression_factor_items_opened_term)]
pub(crate) fn term(row: &Row, at: usize, allowed: usize, out: &mut Output) -> Result<usize, Misread>
    requires { ReadyAt row.now at out.old }
    ensures same { SameBuffers out.old out.new }
    ensures reads { ReadsPart row.now term allowed at out.old result out.new }
{
    let mut op = None;
    let mut i = at;
    loop {
        let next = factor(row, i, allowed, out)?;
        out.emit_op(op);
        let Some(kind) = mul_op(row.kind(next)) else {
            return Ok(next);
        };
        op = Some(kind);
        i = next + 1;
    }
}

// A factor, by what its token begins.
#[cycle(expression_factor_items_opened_term)]
pub(crate) fn factor(
    row: &Row,
    at: usize,
    allowed: usize,
    out: &mut Output,
) -> Result<usize, Misread>
    requires { ReadyAt row.now at out.old }
    ensures same { SameBuffers out.old out.new }
    ensures reads { ReadsPart row.now factor allowed at out.old result out.new }
{
    match face_of(row.kind(at)) {
        Some(Face::One { kind }) => {
            out.emit(kind, leaf_arg(kind, row.args[at]));
            Ok(at + 1)
        }
        Some(Face::Group) => opened(row, at, allowed, 1, None, out),
        Some(Face::Function { count, kind }) => {
            row.need(at + 1, b'(')?;
            opened(row, at + 1, allowed, count, Some(kind), out)
        }
        None => Err(Misread {
            fault: Fault::Ungrammatical,
            at,
        }),
    }
}

// An opening, if a level more is allowed, and what it wants.
#[cycle(expression_factor_items_opened_term)]
pub(crate) fn opened(
    row: &Row,
    at: usize,
    allowed: usize,
    count: usize,
    kind: Option<u8>,
    out: &mut Output,
) -> Result<usize, Misread>
    requires { (get_or row.now.kinds.now at 0 ≡ 40) × ReadyAt row.now at out.old }
    ensures same { SameBuffers out.old out.new }
    ensures reads { (o : Opening) → want_of o ≡ count → kind_opening o ≡ kind
        → ReadsPart row.now (opened o) allowed at out.old result out.new }
{
    if allowed == 0 {
        return Err(Misread {
            fault: Fault::TooDeep,
            at,
        });
    }
    items(row, at + 1, allowed - 1, count, kind, out)
}

// So many expressions with commas between and a closing parenthesis, and the draft behind them.
#[cycle(expression_factor_items_opened_term)]
pub(crate) fn items(
    row: &Row,
    at: usize,
    allowed: usize,
    count: usize,
    kind: Option<u8>,
    out: &mut Output,
) -> Result<usize, Misread>
    requires { ReadyAt row.now at out.old }
    ensures same { SameBuffers out.old out.new }
    ensures reads { (o : Opening) → want_of o ≡ count → kind_opening o ≡ kind
        → ReadsPart row.now (list o) allowed at out.old result out.new }
{
    let mut i = at;
    for _i in 1..count {
        let next = expression(row, i, allowed, out)?;
        i = row.need(next, b',')?;
    }
    let last = expression(row, i, allowed, out)?;
    let behind = row.need(last, b')')?;
    out.emit_op(kind);
    Ok(behind)
}
