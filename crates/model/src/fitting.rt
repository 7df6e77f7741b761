// Whether the arrays hold units, with enough room.
ghost use Rattle.std.specs.Prelude.{◌≡◌, length};
ghost use Rattle.model.specs.Plan.{roomy, fit};

use blocks::fitting::is_in_turn;
use limits::{DEFINITIONS, FAULT_BYTES, STATEMENTS, TEXT_BYTES};
use sheet::Sheet;

// Whether three arrays of these lengths have room: for every definition, for every statement, and again.
fn has_room(places: usize, equated: usize, order: usize) -> bool
    ensures { result ≡ roomy places equated order }
{
    DEFINITIONS <= places && STATEMENTS <= equated && STATEMENTS <= order
}

// Whether the arrays fit, the sheet's and those of the units; the last five are the lengths of the table of uses, the
// fault list, and the arrays for places, units and order.
pub(crate) fn fits(
    sheet: &Sheet,
    ulines: &[u16],
    ubounds: &[u16],
    used: usize,
    faults: usize,
    places: usize,
    equated: usize,
    order: usize,
) -> bool
    ensures { result ≡ fit sheet.now.lines.now sheet.now.bounds.now ulines.now ubounds.now
        sheet.now.kinds.now (length sheet.now.args.now) used faults places equated order }
{
    let n = sheet.lines.len();
    let units = ulines.len();
    let drafts = sheet.kinds.len();
    n <= STATEMENTS
        && sheet.bounds.len() == n + 1
        && units <= n
        && ubounds.len() == units + 1
        && drafts <= TEXT_BYTES
        && drafts <= sheet.args.len()
        && drafts <= used
        && FAULT_BYTES * n <= faults
        && has_room(places, equated, order)
        && is_in_turn(sheet.bounds, n, drafts)
        && is_in_turn(ubounds, units, drafts)
}
