// Statements: constants, assignments, states, and the header and the end of a block, by their first tokens.
ghost use Rattle.std.specs.Prelude.{◌≡◌, ℕ, ◌+◌, List};
ghost use Rattle.limits.specs.Limits.{levels};
ghost use Rattle.tokens.specs.Symbol.{mark};
ghost use Rattle.drafts.specs.Tree.{Initial};
ghost use Rattle.grammar.specs.Look.{add_op};
ghost use Rattle.grammar.specs.Parser.{assigned, rated, integrated, with_inputs, headed, statement};
ghost use Rattle.grammar.specs.Parser.{signed_value};
ghost use Rattle.grammar.specs.Contract.{Ready, ReadyAt, Within, SameBuffers, Reads, ReadsMany, ReadsNames};
ghost use Rattle.grammar.specs.Contract.{calls_for, number_at, initial_at, ended_value_in};

use super::Misread;
use super::expressions::expression;
use super::faces::skip_of;
use super::output::Output;
use super::row::Row;
use faults::Fault;

// A constant's or an initial's value as a draft, and the place of the next token.
#[derive(Clone, Copy)]
pub struct Value {
    pub kind: u8,
    pub arg: u64,
    pub next: usize,
}

// A value behind its sign: a minus negates it.
fn signed(k: u8, x: f64) -> f64
    ensures { result ≡ signed_value (add_op (mark k)) x }
{
    if k == b'-' { -x } else { x }
}

// A number with or without a sign; a minus negates it.
pub(crate) fn signed_number(row: &Row, at: usize) -> Result<Value, Misread>
    requires { Within row.now.kinds.now row.now.args.now at }
    ensures { ended_value_in result ≡ number_at row.now.kinds.now row.now.args.now at }
{
    let k = row.kind(at);
    let start = at + skip_of(k);
    let next = row.need(start, tokens::NUMBER)?;
    let x = signed(k, bits::float_of(row.args[start]));
    Ok(Value {
        kind: drafts::NUMBER,
        arg: bits::bits_of(x),
        next,
    })
}

// An initial: a name, or a number with or without a sign.
pub(crate) fn initial(row: &Row, at: usize) -> Result<Value, Misread>
    requires { Within row.now.kinds.now row.now.args.now at }
    ensures { ended_value_in result ≡ initial_at row.now.kinds.now row.now.args.now at }
{
    if row.kind(at) == tokens::NAME {
        Ok(Value {
            kind: drafts::FROM,
            arg: row.args[at],
            next: at + 1,
        })
    } else {
        signed_number(row, at)
    }
}

// Constants: a name, = and a number with or without a sign, with commas between.
pub(crate) fn constants(row: &Row, at: usize, out: &mut Output) -> Result<usize, Misread>
    requires { ReadyAt row.now at out.old }
    ensures same { SameBuffers out.old out.new }
    ensures reads { ReadsMany row.now at out.old result out.new }
{
    let mut i = at;
    loop {
        let equals = row.need(i, tokens::NAME)?;
        let start = row.need(equals, b'=')?;
        let value = signed_number(row, start)?;
        out.emit(drafts::CONSTANT, row.args[i]);
        out.emit(value.kind, value.arg);
        if row.kind(value.next) != b',' {
            return Ok(value.next);
        }
        i = value.next + 1;
    }
}

// Behind name =: an expression, and the draft that stores it.
pub(crate) fn assignment(row: &Row, at: usize, key: u64, out: &mut Output) -> Result<usize, Misread>
    requires { Ready row.now.kinds.now row.now.args.now at (out.old.place + 1) out.old.kinds.now out.old.args.now }
    ensures same { SameBuffers out.old out.new }
    ensures reads { Reads row.now (assigned (calls_for row.now) levels key) at out.old result out.new }
{
    let next = expression(row, at, limits::LEVELS, out)?;
    out.emit(drafts::STORE, key);
    Ok(next)
}

// Behind the initial of a state: the expression of its rate, a closing parenthesis, and the draft that sets it.
pub(crate) fn rate(row: &Row, at: usize, key: u64, out: &mut Output) -> Result<usize, Misread>
    requires { ReadyAt row.now at out.old }
    ensures same { SameBuffers out.old out.new }
    ensures reads { (i : Initial) → Reads row.now (rated (calls_for row.now) levels key i) at out.old result out.new }
{
    let behind = expression(row, at, limits::LEVELS, out)?;
    let next = row.need(behind, b')')?;
    out.emit(drafts::RATE, key);
    Ok(next)
}

// Behind name = INTGRL: an initial in parentheses with the expression of the rate.
pub(crate) fn state(row: &Row, at: usize, key: u64, out: &mut Output) -> Result<usize, Misread>
    requires { ReadyAt row.now at out.old }
    ensures same { SameBuffers out.old out.new }
    ensures reads { Reads row.now (integrated (calls_for row.now) levels key) at out.old result out.new }
{
    let start = row.need(at, b'(')?;
    let value = initial(row, start)?;
    out.emit(drafts::INITIAL, key);
    out.emit(value.kind, value.arg);
    let second = row.need(value.next, b',')?;
    rate(row, second, key, out)
}

// Names with commas between, each with a draft of this kind.
pub(crate) fn names(row: &Row, at: usize, kind: u8, out: &mut Output) -> Result<usize, Misread>
    requires { ReadyAt row.now at out.old }
    ensures same { SameBuffers out.old out.new }
    ensures reads { ReadsNames row.now kind at out.old result out.new }
{
    let mut i = at;
    loop {
        let next = row.need(i, tokens::NAME)?;
        out.emit(kind, row.args[i]);
        if row.kind(next) != b',' {
            return Ok(next);
        }
        i = next + 1;
    }
}

// Behind the opening parenthesis of a header: the inputs, and a closing parenthesis.
pub(crate) fn inputs(row: &Row, at: usize, out: &mut Output) -> Result<usize, Misread>
    requires { ReadyAt row.now at out.old }
    ensures same { SameBuffers out.old out.new }
    ensures reads { (os : List ℕ) → Reads row.now (with_inputs (calls_for row.now) os) at out.old result out.new }
{
    let behind = names(row, at, drafts::INPUT, out)?;
    row.need(behind, b')')
}

// Behind PROCED: the outputs, =, the block's name, and the inputs in parentheses.
pub(crate) fn header(row: &Row, at: usize, out: &mut Output) -> Result<usize, Misread>
    requires { ReadyAt row.now at out.old }
    ensures same { SameBuffers out.old out.new }
    ensures reads { Reads row.now (headed (calls_for row.now)) at out.old result out.new }
{
    let behind = names(row, at, drafts::OUTPUT, out)?;
    let name = row.need(behind, b'=')?;
    let open = row.need(name, tokens::NAME)?;
    let start = row.need(open, b'(')?;
    inputs(row, start, out)
}

// A statement, by its first token.
pub(crate) fn any_statement(row: &Row, out: &mut Output) -> Result<usize, Misread>
    requires { ReadyAt row.now 0 out.old }
    ensures same { SameBuffers out.old out.new }
    ensures reads { Reads row.now (statement (calls_for row.now) levels) 0 out.old result out.new }
{
    match row.kind(0) {
        tokens::NAME => {
            row.need(1, b'=')?;
            if row.kind(2) == tokens::INTGRL {
                state(row, 3, row.args[0], out)
            } else {
                assignment(row, 2, row.args[0], out)
            }
        }
        tokens::PROCED => header(row, 1, out),
        tokens::ENDPRO => {
            out.emit(drafts::ENDING, 0);
            Ok(1)
        }
        tokens::CONSTANTS => constants(row, 1, out),
        _ => Err(Misread {
            fault: Fault::Ungrammatical,
            at: 0,
        }),
    }
}
