// Evaluates, starts and steps small programs, compares the bits with values worked out by hand, and prints a line for
// each that differs.
#![tactic(auto)]

mod accepted;
mod lent;
mod refused;
mod tank;

use tally::Tally;

// All groups, and the summary.
fn main(rt: HostRuntime) {
    let mut t = Tally::none();
    tank::all(&rt, &mut t);
    accepted::all(&rt, &mut t);
    refused::all(&rt, &mut t);
    t.finish(&rt);
}
