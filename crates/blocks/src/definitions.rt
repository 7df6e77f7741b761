// How many drafts define a name, for verdict 6.
ghost use Rattle.std.specs.Prelude.{◌≡◌, ◌<◌, length};
ghost use Rattle.blocks.specs.Places.{defining_in};

use drafts::is_defining;

// How many drafts are counted at once: fewer than a byte can count.
const PART: usize = 192;

// How many drafts of a short part define a name.
fn defining_in(part: &[u8]) -> u8
    requires { length part.now < 256 }
    ensures { result ≡ length (defining_in part.now) }
{
    part.iter().map(|&kind| u8::from(is_defining(kind))).sum()
}

// How many drafts define a name, each setting counted, part by part.
pub(crate) fn count_defining(kinds: &[u8]) -> usize
    ensures { result ≡ length (defining_in kinds.now) }
{
    let mut n = 0;
    for part in kinds.chunks(PART) {
        n += usize::from(defining_in(part));
    }
    n
}
