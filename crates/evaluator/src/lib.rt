// Evaluating a program on lent values and derivatives, starting it, and one Euler step.
#![tactic(auto)]

mod judge;
mod run;
mod stack;
mod states;

ghost use Rattle.std.specs.Prelude.{◌≡◌};
ghost use Rattle.evaluator.specs.Evaluate.{refusal};
ghost use Rattle.evaluator.specs.Contract.{answer_in, AnswersNumber, AnswersPlace, Evaluated, Started, Stepped};

use judge::Finding;
use limits::{RECORD_BYTES, RECORDS, SLOTS};

// Why a program is not evaluated: a buffer is too short; its size; the first bad record; a value left on the stack, or
// a state without derivative.
#[derive(Clone, Copy, PartialEq, Eq)]
pub enum Refusal {
    ShortRoom,
    WrongSize,
    BadRecord(usize),
    Unfinished,
}

impl Refusal {
    // Its number, from 1 on.
    pub fn number(&self) -> usize
        ensures { AnswersNumber self.now result }
    {
        match self {
            Refusal::ShortRoom => 1,
            Refusal::WrongSize => 2,
            Refusal::BadRecord(_) => 3,
            Refusal::Unfinished => 4,
        }
    }

    // The number of the first bad record, or 0.
    pub fn place(&self) -> usize
        ensures { AnswersPlace self.now result }
    {
        match self {
            Refusal::BadRecord(i) => *i,
            Refusal::ShortRoom | Refusal::WrongSize | Refusal::Unfinished => 0,
        }
    }
}

// The refusals in their order: a buffer that is too short, the program's size, then what the judge finds.
#[tactic(auto, unfolding(crate::specs::Evaluate::refusal_within))]
fn refuse(program: &[u8], values: &[f64], derivs: &[f64]) -> Result<(), Refusal>
    ensures { answer_in result ≡ refusal program.now values.now derivs.now }
{
    if values.len() < SLOTS || derivs.len() < SLOTS {
        return Err(Refusal::ShortRoom);
    }
    if program.len() % RECORD_BYTES != 0 || RECORDS < program.len() / RECORD_BYTES {
        return Err(Refusal::WrongSize);
    }
    match judge::judge(program) {
        Finding::Sound => Ok(()),
        Finding::BadRecord(i) => Err(Refusal::BadRecord(i)),
        Finding::Unfinished => Err(Refusal::Unfinished),
    }
}

// Evaluates a program: writes its constants, its stored slots and the derivatives of its states.
pub fn evaluate(program: &[u8], values: &mut [f64], derivs: &mut [f64]) -> Result<(), Refusal>
    ensures { Evaluated program.now values.old derivs.old result values.new
        derivs.new }
{
    refuse(program, values, derivs)?;
    run::run_all(program, values, derivs);
    Ok(())
}

// Starts a program: slot 0 is 0, and each state has its initial value.
pub fn start(program: &[u8], values: &mut [f64], derivs: &mut [f64]) -> Result<(), Refusal>
    ensures { Started program.now values.old derivs.old result values.new
        derivs.new }
{
    refuse(program, values, derivs)?;
    values[0] = 0.0;
    states::each_state(program, values, |_, _, x| x);
    Ok(())
}

// One Euler step of h: evaluates, then moves each state and slot 0.
pub fn step(program: &[u8], h: f64, values: &mut [f64], derivs: &mut [f64]) -> Result<(), Refusal>
    ensures { Stepped program.now h values.old derivs.old result values.new
        derivs.new }
{
    refuse(program, values, derivs)?;
    run::run_all(program, values, derivs);
    states::each_state(program, values, |value, s, _| value + h * derivs[s]);
    values[0] += h;
    Ok(())
}
