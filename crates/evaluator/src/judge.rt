// The judge: the first bad record, then what the end finds.
ghost use Rattle.std.specs.Prelude.{◌≡◌, ◌<◌, ◌≤◌, eqb, slice_index};
ghost use Rattle.limits.specs.Limits.{slots, stack_places};
ghost use Rattle.laws.specs.Counts.{count};
ghost use Rattle.records.specs.Record.{decoded};
ghost use Rattle.evaluator.specs.Marks.{mark_in, marks_in};
ghost use Rattle.evaluator.specs.Judge.{state_mark, judge};
ghost use Rattle.evaluator.specs.Finding.{finding_in};

use limits::{RECORD_BYTES, SLOTS, STACK};
use records::{Instr, decode};

// What is known of a slot: it is not set; it is a constant, or slot 0; it is a state, without its derivative or with
// it; a kind 13 stored it.
#[derive(Clone, Copy, PartialEq, Eq)]
pub enum Mark {
    Unset,
    Given,
    State,
    Derived,
    Stored,
}

// What is known between two records: the phase reached, the count of values on the stack, the count of states without
// derivative, and the marks of the slots.
#[derive(Drop)]
pub struct Reached {
    pub phase: usize,
    pub height: usize,
    pub owed: usize,
    pub marks: [Mark; SLOTS],
    ghost early: { phase ≤ 3 },
    ghost low: { height ≤ stack_places },
    ghost owes: { owed ≡ count state_mark (marks_in marks) },
}

impl Reached {
    ghost use Rattle.records.specs.Fields.{operand_of};
    ghost use Rattle.records.specs.Shape.{shape_of};
    ghost use Rattle.evaluator.specs.Judge.{given_mark, judge₀, set_rule, read_rule, fold_rule, store_rule};
    ghost use Rattle.evaluator.specs.Judge.{derivative_rule, again_rule, rule_of};
    ghost use Rattle.evaluator.specs.Reached.{known, Judges};

    // Slot 0 is set, and no record stood.
    fn begun() -> Reached
        ensures { known result ≡ judge₀ }
    {
        let mut marks = [Mark::Unset; SLOTS];
        marks[0] = Mark::Given;
        Reached {
            phase: 1,
            height: 0,
            owed: 0,
            marks,
        }
    }

    // Whether a slot has this mark.
    fn has(&self, s: u16, mark: Mark) -> bool
        requires { s < slots }
        ensures { result ≡ eqb (slice_index (marks_in self.now.marks) s) (mark_in mark) }
    {
        self.marks[s as usize] == mark
    }

    // k values give way to one; or a value is pushed, for none, if there is a place.
    fn fold(&mut self, k: usize) -> Option<()>
        ensures { Judges self.old (fold_rule k) result self.new }
    {
        if self.height < k || k == 0 && self.height == STACK {
            return None;
        }
        self.phase = 3;
        self.height = self.height - k + 1;
        Some(())
    }

    // Kind 1: its slot is not set yet, and no other kind stood before.
    fn constant(&mut self, s: u16) -> Option<()>
        requires { s < slots }
        ensures { Judges self.old (set_rule 1 s given_mark) result self.new }
    {
        if 1 < self.phase || !self.has(s, Mark::Unset) {
            return None;
        }
        self.phase = 1;
        self.marks[s as usize] = Mark::Given;
        Some(())
    }

    // Kind 2: its slot is not set yet, and kinds 3 to 15 did not stand before.
    fn initial(&mut self, s: u16) -> Option<()>
        requires { s < slots }
        ensures { Judges self.old (set_rule 2 s state_mark) result self.new }
    {
        if 2 < self.phase || !self.has(s, Mark::Unset) {
            return None;
        }
        self.phase = 2;
        self.owed += 1;
        self.marks[s as usize] = Mark::State;
        Some(())
    }

    // Kind 4: its slot is set.
    fn slot(&mut self, s: u16) -> Option<()>
        requires { s < slots }
        ensures { Judges self.old (read_rule s) result self.new }
    {
        if self.has(s, Mark::Unset) {
            return None;
        }
        self.fold(0)
    }

    // Kind 13: there is one value, and the slot is not set yet.
    fn store(&mut self, s: u16) -> Option<()>
        requires { s < slots }
        ensures { Judges self.old (store_rule s) result self.new }
    {
        if self.height != 1 || !self.has(s, Mark::Unset) {
            return None;
        }
        self.phase = 3;
        self.height = 0;
        self.marks[s as usize] = Mark::Stored;
        Some(())
    }

    // Kind 14: there is one value, and the slot is a state without derivative.
    fn deriv(&mut self, s: u16) -> Option<()>
        requires { s < slots }
        ensures { Judges self.old (derivative_rule s) result self.new }
    {
        if self.height != 1 || !self.has(s, Mark::State) {
            return None;
        }
        self.phase = 3;
        self.height = 0;
        self.owed -= 1;
        self.marks[s as usize] = Mark::Derived;
        Some(())
    }

    // Kind 15: there is one value, and a kind 13 set the slot.
    fn store_again(&mut self, s: u16) -> Option<()>
        requires { s < slots }
        ensures { Judges self.old (again_rule s) result self.new }
    {
        if self.height != 1 || !self.has(s, Mark::Stored) {
            return None;
        }
        self.phase = 3;
        self.height = 0;
        Some(())
    }

    // One record; or nothing, where it is bad.
    fn step(&mut self, ins: Instr) -> Option<()>
        requires { operand_of ins < slots }
        ensures { Judges self.old (rule_of (shape_of ins)) result self.new }
    {
        match ins {
            Instr::Constant(s, _) => self.constant(s),
            Instr::Initial(s, _) => self.initial(s),
            Instr::Slot(s) => self.slot(s),
            Instr::Value(_) => self.fold(0),
            Instr::Neg => self.fold(1),
            Instr::Add | Instr::Sub | Instr::Mul | Instr::Div | Instr::Compar => self.fold(2),
            Instr::Insw | Instr::Limit => self.fold(3),
            Instr::Store(s) => self.store(s),
            Instr::Deriv(s) => self.deriv(s),
            Instr::StoreAgain(s) => self.store_again(s),
            Instr::Bad => None,
        }
    }
}

// What the judge finds: all is well; the first bad record; a value left on the stack, or a state without derivative.
#[derive(Clone, Copy, PartialEq, Eq)]
pub enum Finding {
    Sound,
    BadRecord(usize),
    Unfinished,
}

// Judges all records of a program. It only reads, and answers in two words, so that a compiler can judge once before a
// caller's loop of steps.
#[inline(never)]
pub fn judge(program: &[u8]) -> Finding
    ensures { finding_in result ≡ judge (decoded program.now) }
{
    let mut t = Reached::begun();
    for i in 0..program.len() / RECORD_BYTES {
        if t.step(decode(program, i)).is_none() {
            return Finding::BadRecord(i);
        }
    }
    if t.height != 0 || t.owed != 0 {
        return Finding::Unfinished;
    }
    Finding::Sound
}
