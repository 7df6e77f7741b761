// What C links: each function of the library floesedge under its own name, with its clauses.
#![tactic(auto)]

ghost use Rattle.floesedge.specs.Contract.{TranslatesFixed, NamesFixed, EvaluatesFixed, StartsFixed, StepsFixed};

use floesedge::{CAnswer, CVerdict};

// Translates a text; the fault list or the program is written to the front of what is lent.
#[unsafe(no_mangle)]
pub extern "C" fn floesedge_translate(
    text: &[u8],
    faults: &mut [u8],
    program: &mut [u8],
) -> CVerdict
    ensures { TranslatesFixed text.now faults.old program.old result
        faults.new program.new }
{
    floesedge::floesedge_translate(text, faults, program)
}

// Names the slots of a text; the fault list or the roster is written to the front of what is lent.
#[unsafe(no_mangle)]
pub extern "C" fn floesedge_names(text: &[u8], faults: &mut [u8], names: &mut [u8]) -> CVerdict
    ensures { NamesFixed text.now faults.old names.old result
        faults.new names.new }
{
    floesedge::floesedge_names(text, faults, names)
}

// Evaluates a program: writes its constants, its stored slots and the derivatives of its states.
#[unsafe(no_mangle)]
pub extern "C" fn floesedge_evaluate(
    program: &[u8],
    values: &mut [f64],
    derivs: &mut [f64],
) -> CAnswer
    ensures { EvaluatesFixed program.now values.old derivs.old result
        values.new derivs.new }
{
    floesedge::floesedge_evaluate(program, values, derivs)
}

// Starts a program: slot 0 is 0, and each state has its initial value.
#[unsafe(no_mangle)]
pub extern "C" fn floesedge_start(program: &[u8], values: &mut [f64], derivs: &mut [f64]) -> CAnswer
    ensures { StartsFixed program.now values.old derivs.old result
        values.new derivs.new }
{
    floesedge::floesedge_start(program, values, derivs)
}

// One Euler step of h: evaluates, then moves each state and slot 0.
#[unsafe(no_mangle)]
pub extern "C" fn floesedge_step(
    program: &[u8],
    h: f64,
    values: &mut [f64],
    derivs: &mut [f64],
) -> CAnswer
    ensures { StepsFixed program.now h values.old derivs.old result
        values.new derivs.new }
{
    floesedge::floesedge_step(program, h, values, derivs)
}
