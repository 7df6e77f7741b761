// The run of a program that the judge has accepted.
ghost use Rattle.std.specs.Prelude.{◌≡◌};
ghost use Rattle.records.specs.Shape.{insw_of, limit_of, compar_of};
ghost use Rattle.evaluator.specs.Evaluate.{ran};
ghost use Rattle.evaluator.specs.Sound.{Granted};
ghost use Rattle.evaluator.specs.Stack.{machine, emptied, FindsRoom, OneStep, Ran};

use crate::stack::{Stack, empty, peek, put};
use limits::{RECORD_BYTES, STACK};
use records::{Instr, read};

// INSW(P,A,B): A if P < 0, else B.
fn insw(p: f64, a: f64, b: f64) -> f64
    ensures { result ≡ insw_of p a b }
{
    if p < 0.0 { a } else { b }
}

// LIMIT(L,U,X): L if X < L, else U if X > U, else X.
fn limit(l: f64, u: f64, x: f64) -> f64
    ensures { result ≡ limit_of l u x }
{
    if x < l {
        l
    } else if x > u {
        u
    } else {
        x
    }
}

// COMPAR(A,B): 1 if A >= B, else 0.
fn compar(a: f64, b: f64) -> f64
    ensures { result ≡ compar_of a b }
{
    if a >= b { 1.0 } else { 0.0 }
}

// One instruction on the stack s of n values; the operand written last is topmost. The new count of values is returned.
fn run_step(
    s: &mut [f64; STACK],
    n: usize,
    values: &mut [f64],
    derivs: &mut [f64],
    ins: Instr,
) -> usize
    requires { FindsRoom ins s.old n values.old derivs.old }
    ensures { OneStep ins s.old n values.old derivs.old s.new result
        values.new derivs.new }
{
    match ins {
        Instr::Constant(at, x) => {
            values[at as usize] = x;
            n
        }
        Instr::Initial(_, _) => n,
        Instr::Value(x) => put(s, n, 0, x),
        Instr::Slot(at) => put(s, n, 0, values[at as usize]),
        Instr::Add => put(s, n, 2, peek(s, n, 1) + peek(s, n, 0)),
        Instr::Sub => put(s, n, 2, peek(s, n, 1) - peek(s, n, 0)),
        Instr::Mul => put(s, n, 2, peek(s, n, 1) * peek(s, n, 0)),
        Instr::Div => put(s, n, 2, peek(s, n, 1) / peek(s, n, 0)),
        Instr::Neg => put(s, n, 1, -peek(s, n, 0)),
        Instr::Insw => put(s, n, 3, insw(peek(s, n, 2), peek(s, n, 1), peek(s, n, 0))),
        Instr::Limit => put(s, n, 3, limit(peek(s, n, 2), peek(s, n, 1), peek(s, n, 0))),
        Instr::Compar => put(s, n, 2, compar(peek(s, n, 1), peek(s, n, 0))),
        Instr::Store(at) => {
            values[at as usize] = peek(s, n, 0);
            n - 1
        }
        Instr::Deriv(at) => {
            derivs[at as usize] = peek(s, n, 0);
            n - 1
        }
        Instr::StoreAgain(at) => {
            values[at as usize] = peek(s, n, 0);
            n - 1
        }
        Instr::Bad => n,
    }
}

// Runs all records, on a stack that goes in and comes back.
fn run(mut s: Stack, program: &[u8], values: &mut [f64], derivs: &mut [f64]) -> Stack
    requires { (s ≡ emptied) × Granted program.now values.old derivs.old }
    ensures { machine result.items result.count values.new derivs.new
        ≡ ran program.now values.old derivs.old }
{
    let mut count = s.count;
    for i in 0..program.len() / RECORD_BYTES {
        let ins = read(program, i);
        count = run_step(&mut s.items, count, values, derivs, ins);
    }
    s.count = count;
    s
}

// Evaluates: constants, stored slots and derivatives are written.
pub fn run_all(program: &[u8], values: &mut [f64], derivs: &mut [f64])
    requires { Granted program.now values.old derivs.old }
    ensures { Ran (ran program.now values.old derivs.old) values.new
        derivs.new }
{
    run(empty(), program, values, derivs);
}
