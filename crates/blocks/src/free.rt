// The constants and the states of the whole text.
ghost use Rattle.std.specs.Prelude.{◌≡◌};
ghost use Rattle.laws.specs.Put.{Put};
ghost use Rattle.blocks.specs.InsidePlaces.{is_free, free_args};

use bits::put;
use bits::reads::word_at;
use drafts::{CONSTANT, INITIAL};
use sheet::Sheet;

// Whether a draft of this kind names a constant or a state.
fn is_free(kind: u8) -> bool
    ensures { result ≡ is_free kind }
{
    matches!(kind, CONSTANT | INITIAL)
}

// Stores the keys of all constants and states, as far as there is room; how many there are.
pub(crate) fn collect_free(s: &Sheet, free: &mut [u64]) -> usize
    ensures { Put (free_args s.now.kinds.now s.now.args.now) 0 result free.old free.new }
{
    let mut f = 0;
    for (i, &kind) in s.kinds.iter().enumerate() {
        if is_free(kind) {
            put(&mut *free, f, word_at(s.args, i));
            f += 1;
        }
    }
    f
}
