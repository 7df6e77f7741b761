// Fault 24: a unit that the order lacks.
ghost use Rattle.std.specs.Prelude.{◌≡◌, ◌≤◌, length, replicate};
ghost use Rattle.limits.specs.Limits.{most_statements};
ghost use Rattle.model.specs.Places.{loops};
ghost use Rattle.blocks.specs.Working.{Reported};
ghost use Rattle.model.specs.Working.{Marked, unmarked};

use bits::put;
use bits::reads::{byte_at, short_at};
use blocks::report::add_fault;
use faults::Fault;
use limits::STATEMENTS;

// Marks the units that are placed.
fn mark(placed: &[u16], marks: &mut [u8])
    requires { marks.old ≡ replicate most_statements 0 }
    ensures { Marked placed.now marks.new }
{
    for &unit in placed {
        put(&mut *marks, unit as usize, 1);
    }
}

// Writes a fault 24 for each unit that is not marked; how many there are.
fn report_unmarked(marks: &[u8], equated: &[u16], lines: &[u16], faults: &mut [u8]) -> usize
    requires { length equated.now ≤ most_statements }
    ensures { Reported (unmarked marks.now equated.now lines.now) 0 result
        faults.old faults.new }
{
    let mut count = 0;
    for (r, &unit) in equated.iter().enumerate() {
        let fault = (byte_at(marks, r) == 0).then_some(Fault::Unsortable);
        count = add_fault(fault, short_at(lines, unit as usize), &mut *faults, count);
    }
    count
}

// Writes the faults 24 to the front of the list; how many there are.
pub(crate) fn report_loops(
    placed: &[u16],
    equated: &[u16],
    lines: &[u16],
    faults: &mut [u8],
) -> usize
    requires { length equated.now ≤ most_statements }
    ensures { Reported (loops placed.now equated.now lines.now) 0 result
        faults.old faults.new }
{
    let mut marks = [0u8; STATEMENTS];
    mark(placed, &mut marks);
    report_unmarked(&marks, equated, lines, faults)
}
