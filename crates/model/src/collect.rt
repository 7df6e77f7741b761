// The definitions of a sheet: the keys of their names, and their places.
ghost use Rattle.std.specs.Prelude.{◌≤◌, length};
ghost use Rattle.limits.specs.Limits.{text_bytes};
ghost use Rattle.model.specs.Working.{Collected};

use bits::put;
use drafts::is_defining;

// Stores the keys of all definitions and their places, as far as there is room; how many there are, doubles counted.
pub(crate) fn collect(kinds: &[u8], args: &[u64], keys: &mut [u64], places: &mut [u16]) -> usize
    requires { (length kinds.now ≤ text_bytes) × (length kinds.now ≤ length args.now) }
    ensures { Collected kinds.now args.now result keys.old keys.new
        places.old
        places.new }
{
    let mut d: usize = 0;
    for (i, &kind) in kinds.iter().enumerate() {
        if is_defining(kind) {
            put(&mut *keys, d, args[i]);
            put(&mut *places, d, i as u16);
            d += 1;
        }
    }
    d
}
