// What starting and stepping do to the states. Their records stand before all but constants.
ghost use Rattle.std.specs.Prelude.{◌≡◌, ◌≤◌, ◌<◌, ℕ, length, Float};
ghost use Rattle.limits.specs.Limits.{slots};
ghost use Rattle.records.specs.Record.{decoded};
ghost use Rattle.evaluator.specs.Evaluate.{each_state};
ghost use Rattle.evaluator.specs.Sound.{Sound};
ghost use Rattle.evaluator.specs.States.{MayBeAsked, AnsweredBy, remade};

use limits::RECORD_BYTES;
use records::{Instr, read};

// Each state becomes what f gives for its value, its slot and its initial value, one after the other. The pass ends
// with the first record that no initial value can follow.
pub fn each_state<F: Fn(f64, usize, f64) -> f64>(program: &[u8], values: &mut [f64], f: F)
    requires sound { Sound 1 0 (decoded program.now) }
    requires room { slots ≤ length values.old }
    requires callable { MayBeAsked (F.pre f) }
    ensures { (g : Float → ℕ → Float → Float) → AnsweredBy (F.post f) g
        → values.new ≡ each_state (remade g) values.old (decoded program.now) }
{
    for i in 0..program.len() / RECORD_BYTES {
        match read(program, i) {
            Instr::Constant(_, _) => {}
            Instr::Initial(s, x) => {
                let at = s as usize;
                values[at] = f(values[at], at, x);
            }
            _ => return,
        }
    }
}
