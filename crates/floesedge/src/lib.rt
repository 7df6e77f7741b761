// What other languages call: the translator and the evaluator with answers of fixed layout. floesedge_c exports it.
#![tactic(auto)]

ghost use Rattle.std.specs.Prelude.{◌≡◌, ◌≤◌};
ghost use Rattle.limits.specs.Limits.{most_records};
ghost use Rattle.translator.specs.Contract.{number_in, count_in};
ghost use Rattle.evaluator.specs.Contract.{answer_in};
ghost use Rattle.floesedge.specs.Contract.{TranslatesFixed, NamesFixed, EvaluatesFixed, StartsFixed, StepsFixed};

use translator::Refusal;

// The verdict's number, and its count: records for 0, faults for 5 and 7, else 0.
#[repr(C)]
#[derive(Drop)]
pub struct CVerdict {
    pub number: u32,
    pub count: u32,
}

// The answer's number, 0 without refusal, and a record number, 0 but for 3.
#[repr(C)]
#[derive(Drop)]
pub struct CAnswer {
    pub number: u32,
    pub record: u32,
}

// A number and a count in their fixed layout.
fn fixed(number: u8, count: usize) -> CVerdict
    requires { count ≤ most_records }
    ensures { (result.number ≡ number) × (result.count ≡ count) }
{
    CVerdict {
        number: u32::from(number),
        count: count as u32,
    }
}

// A verdict in its fixed layout; where names are asked for, the count for 0 is that of definitions.
fn fixed_verdict(answer: Result<usize, Refusal>) -> CVerdict
    requires { count_in answer ≤ most_records }
    ensures { (result.number ≡ number_in answer) × (result.count ≡ count_in answer) }
{
    match answer {
        Ok(count) => fixed(0, count),
        Err(refusal) => fixed(refusal.number(), refusal.count()),
    }
}

// Translates a text; the fault list or the program is written to the front of what is lent.
pub fn floesedge_translate(text: &[u8], faults: &mut [u8], program: &mut [u8]) -> CVerdict
    ensures { TranslatesFixed text.now faults.old program.old result
        faults.new program.new }
{
    fixed_verdict(translator::translate(text, faults, program))
}

// Names the slots of a text; the fault list or the roster is written to the front of what is lent.
pub fn floesedge_names(text: &[u8], faults: &mut [u8], names: &mut [u8]) -> CVerdict
    ensures { NamesFixed text.now faults.old names.old result
        faults.new names.new }
{
    fixed_verdict(translator::names(text, faults, names))
}

// An answer of the evaluator in its fixed layout.
fn fixed_answer(answer: Result<(), evaluator::Refusal>) -> CAnswer
    requires { ((answer_in answer).number ≤ 4) × ((answer_in answer).place ≤ most_records) }
    ensures { (result.number ≡ (answer_in answer).number) × (result.record ≡ (answer_in answer).place) }
{
    match answer {
        Ok(()) => CAnswer {
            number: 0,
            record: 0,
        },
        Err(refusal) => CAnswer {
            number: refusal.number() as u32,
            record: refusal.place() as u32,
        },
    }
}

// Evaluates a program: writes its constants, its stored slots and the derivatives of its states.
pub fn floesedge_evaluate(program: &[u8], values: &mut [f64], derivs: &mut [f64]) -> CAnswer
    ensures { EvaluatesFixed program.now values.old derivs.old result
        values.new derivs.new }
{
    fixed_answer(evaluator::evaluate(program, values, derivs))
}

// Starts a program: slot 0 is 0, and each state has its initial value.
pub fn floesedge_start(program: &[u8], values: &mut [f64], derivs: &mut [f64]) -> CAnswer
    ensures { StartsFixed program.now values.old derivs.old result
        values.new derivs.new }
{
    fixed_answer(evaluator::start(program, values, derivs))
}

// One Euler step of h: evaluates, then moves each state and slot 0.
pub fn floesedge_step(program: &[u8], h: f64, values: &mut [f64], derivs: &mut [f64]) -> CAnswer
    ensures { StepsFixed program.now h values.old derivs.old result
        values.new derivs.new }
{
    fixed_answer(evaluator::step(program, h, values, derivs))
}
