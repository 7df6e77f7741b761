// Counting comparisons: how many were tried and how many differ, with a line printed for each that does. That a line
// can't be written changes no count.
#![tactic(auto)]

ghost use Rattle.tally.specs.Contract.{CountsNone, CountsOne, CountsNumber, Finishes};

// How many comparisons were tried, and how many of them differ.
#[derive(Clone, Copy)]
pub struct Tally {
    pub tried: usize,
    pub differ: usize,
}

impl Tally {
    // None so far.
    pub fn none() -> Tally
        ensures { CountsNone result }
    {
        Tally {
            tried: 0,
            differ: 0,
        }
    }

    // One comparison more. If it differs its number is printed.
    pub fn right(&mut self, rt: &impl Print, same: bool)
        ensures { CountsOne self.old same self.new }
    {
        if 10000 < self.tried {
            return;
        }
        if 10000 < self.differ {
            return;
        }
        if !same {
            let _ = println!(rt; "comparison {} differs", self.tried);
            self.differ += 1;
        }
        self.tried += 1;
    }

    // A number is as wanted.
    pub fn number(&mut self, rt: &impl Print, got: usize, wanted: usize)
        ensures { CountsNumber self.old got wanted self.new }
    {
        self.right(rt, got == wanted);
    }

    // Prints the summary.
    pub fn finish(&self, rt: &impl Print)
        ensures { Finishes self.now result }
    {
        let _ = println!(rt; "{} tried, {} differ", self.tried, self.differ);
    }
}
