// The stages of a grouping, one after the other: it ends where one finds a fault. Without header and end each statement
// is a unit, and nothing else is asked.
ghost use Rattle.std.specs.Prelude.{◌≡◌, ◌≤◌, length};
ghost use Rattle.limits.specs.Limits.{most_definitions};
ghost use Rattle.blocks.specs.Places.{defining_in};
ghost use Rattle.blocks.specs.Contract.{grouping_in};
ghost use Rattle.blocks.specs.Grouped.{unit_arrays, group_outcome, paired, limited};
ghost use Rattle.blocks.specs.Working.{SheetFollows, SameLent};

use super::answer::Refusal;
use super::brackets::has_bracket;
use super::definitions::count_defining;
use super::inside::report_inside;
use super::pairing::report_unpaired;
use super::rewrite::rewrite;
use super::units::{Units, list_units};
use limits::DEFINITIONS;
use sheet::Sheet;

// Those of a sheet with a header or an end: 25; 26; the units, and the kinds inside.
fn run_blocks(
    lines: &[u16],
    bounds: &[u16],
    kinds: &mut [u8],
    args: &[u64],
    faults: &mut [u8],
    units: &mut Units,
) -> Result<usize, Refusal>
    requires { SheetFollows lines.now bounds.now kinds.old
        × (length (defining_in kinds.old) ≤ most_definitions) }
    ensures same { SameLent units.old units.new }
    ensures grouped { group_outcome (grouping_in result) kinds.new faults.new
        (unit_arrays units.new.lines.now units.new.bounds.now units.new.firsts.now)
        ≡ paired lines.now bounds.now kinds.old args.now
        faults.old (unit_arrays units.old.lines.now units.old.bounds.now units.old.firsts.now) }
{
    let s = Sheet {
        lines,
        bounds,
        kinds: &*kinds,
        args,
    };
    let unpaired = report_unpaired(&s, &mut *faults);
    if 0 < unpaired {
        return Err(Refusal::Faults(unpaired));
    }
    let wrong = report_inside(&s, &mut *faults);
    if 0 < wrong {
        return Err(Refusal::Faults(wrong));
    }
    let count = list_units(&s, units);
    rewrite(lines, bounds, kinds, args);
    Ok(count)
}

// All stages: 6; then those of blocks, or the statements as units.
pub(crate) fn run(
    lines: &[u16],
    bounds: &[u16],
    kinds: &mut [u8],
    args: &[u64],
    faults: &mut [u8],
    units: &mut Units,
) -> Result<usize, Refusal>
    requires { SheetFollows lines.now bounds.now kinds.old }
    ensures same { SameLent units.old units.new }
    ensures grouped { group_outcome (grouping_in result) kinds.new faults.new
        (unit_arrays units.new.lines.now units.new.bounds.now units.new.firsts.now)
        ≡ limited lines.now bounds.now kinds.old args.now
        faults.old (unit_arrays units.old.lines.now units.old.bounds.now units.old.firsts.now) }
{
    if DEFINITIONS < count_defining(kinds) {
        return Err(Refusal::ManyDefinitions);
    }
    let s = Sheet {
        lines,
        bounds,
        kinds: &*kinds,
        args,
    };
    if has_bracket(&s) {
        return run_blocks(lines, bounds, kinds, args, faults, units);
    }
    Ok(list_units(&s, units))
}
