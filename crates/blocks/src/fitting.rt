// Whether the arrays are those of a sheet, with enough room.
ghost use Rattle.std.specs.Prelude.{◌≡◌, not, ◌≤◌, length};
ghost use Rattle.limits.specs.Limits.{most_statements};
ghost use Rattle.laws.specs.Places.{any_in};
ghost use Rattle.blocks.specs.Contract.{WhetherInTurn};
ghost use Rattle.blocks.specs.Grouped.{falls, group_roomy, group_fit};

use bits::reads::short_at;
use limits::{FAULT_BYTES, STATEMENTS, TEXT_BYTES};
use sheet::Sheet;

// Whether none of n statements ends before it begins.
fn is_rising(bounds: &[u16], n: usize) -> bool
    ensures { result ≡ not (any_in (falls bounds.now) n 0) }
{
    !(0..n).any(|j| short_at(bounds, j + 1) < short_at(bounds, j))
}

// Whether n statements follow each other from draft 0 to the last.
pub fn is_in_turn(bounds: &[u16], n: usize, size: usize) -> bool
    ensures { WhetherInTurn bounds.now n size result }
{
    short_at(bounds, 0) == 0 && short_at(bounds, n) == size && is_rising(bounds, n)
}

// Whether three arrays of these lengths have room for n statements and one more.
fn has_room(n: usize, ulines: usize, ubounds: usize, firsts: usize) -> bool
    requires { n ≤ most_statements }
    ensures { result ≡ group_roomy n ulines ubounds firsts }
{
    n < ulines && n < ubounds && n < firsts
}

// Whether the arrays fit; the last four are the lengths of the fault list and of the arrays for the units.
pub(crate) fn fits(s: &Sheet, faults: usize, ulines: usize, ubounds: usize, firsts: usize) -> bool
    ensures { result ≡ group_fit s.now.lines.now s.now.bounds.now s.now.kinds.now
        (length s.now.args.now) faults ulines ubounds firsts }
{
    let n = s.lines.len();
    n <= STATEMENTS
        && s.bounds.len() == n + 1
        && s.kinds.len() <= TEXT_BYTES
        && s.kinds.len() <= s.args.len()
        && FAULT_BYTES * n <= faults
        && has_room(n, ulines, ubounds, firsts)
        && is_in_turn(s.bounds, n, s.kinds.len())
}
