// Units: single statements, and procedural blocks with the statements inside; the faults 25 and 26.
#![tactic(auto)]

ghost use Rattle.blocks.specs.Grouped.{unit_arrays};
ghost use Rattle.blocks.specs.Contract.{Groups};

pub mod answer;
mod brackets;
mod definitions;
pub mod fitting;
mod free;
pub mod hints;
mod inside;
mod names;
mod pairing;
pub mod report;
mod rewrite;
mod stages;
mod units;

use answer::Refusal;
use sheet::Sheet;
use units::Units;

// Groups the statements of a sheet to units. Lines and bounds are the statements, kinds and args the drafts. The faults
// 25 or 26 are written to the list; without them the lines, bounds and first statements of the units to the front of
// the last three, and the kinds are made those of drafts inside blocks.
pub fn group(
    lines: &[u16],
    bounds: &[u16],
    kinds: &mut [u8],
    args: &[u64],
    faults: &mut [u8],
    ulines: &mut [u16],
    ubounds: &mut [u16],
    firsts: &mut [u16],
) -> Result<usize, Refusal>
    ensures { Groups lines.now bounds.now kinds.old args.now
        faults.old (unit_arrays ulines.old ubounds.old firsts.old) result
        kinds.new faults.new
        (unit_arrays ulines.new ubounds.new firsts.new) }
{
    let s = Sheet {
        lines,
        bounds,
        kinds: &*kinds,
        args,
    };
    if !fitting::fits(&s, faults.len(), ulines.len(), ubounds.len(), firsts.len()) {
        return Err(Refusal::Unfit);
    }
    let mut units = Units {
        lines: ulines,
        bounds: ubounds,
        firsts,
    };
    stages::run(lines, bounds, kinds, args, faults, &mut units)
}
