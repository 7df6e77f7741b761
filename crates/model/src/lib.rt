// The model: what the statements of units define, the faults 21 to 24, and the order of the units.
#![tactic(auto)]

ghost use Rattle.model.specs.Plan.{lent};
ghost use Rattle.model.specs.Contract.{Plans};

pub mod answer;
mod collect;
mod doubles;
mod fitting;
mod hints;
mod loops;
mod names;
mod stages;
mod units;

use answer::Counts;
use blocks::answer::Refusal;
use sheet::Sheet;

// Plans units: lines and bounds are the statements', ulines and ubounds the units', kinds and args the drafts. The
// table of uses is written to used, model faults to the list, the places of the definitions, the units of the order and
// their order to the front of the last three, which have room for every definition and every statement; the names of
// args are resolved, unless one is defined twice.
pub fn plan(
    lines: &[u16],
    bounds: &[u16],
    ulines: &[u16],
    ubounds: &[u16],
    kinds: &[u8],
    args: &mut [u64],
    used: &mut [u16],
    faults: &mut [u8],
    places: &mut [u16],
    equated: &mut [u16],
    order: &mut [u16],
) -> Result<Counts, Refusal>
    ensures { Plans lines.now bounds.now ulines.now ubounds.now
        kinds.now args.old used.old faults.old
        (lent places.old equated.old order.old) result
        args.new used.new faults.new
        (lent places.new equated.new order.new) }
{
    let sheet = Sheet {
        lines,
        bounds,
        kinds,
        args: &*args,
    };
    let fits = fitting::fits(
        &sheet,
        ulines,
        ubounds,
        used.len(),
        faults.len(),
        places.len(),
        equated.len(),
        order.len(),
    );
    if !fits {
        return Err(Refusal::Unfit);
    }
    stages::run(
        lines, bounds, ulines, ubounds, kinds, args, used, faults, places, equated, order,
    )
}
