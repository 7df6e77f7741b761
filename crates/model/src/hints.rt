// The table by which a name's definition is found: a hint for each remainder, and a link from each key to the next with
// the same.
ghost use Rattle.std.specs.Prelude.{◌≡◌, ◌%◌, ◌≤◌, ◌<◌, length, replicate};
ghost use Rattle.limits.specs.Limits.{most_definitions};
ghost use Rattle.model.specs.Definitions.{place_in};
ghost use Rattle.model.specs.Working.{buckets, Hinted};

use bits::reads::short_at;
use blocks::hints::BUCKETS;

// The place of a key's hint.
fn bucket(key: u64) -> usize
    ensures { (result ≡ key % buckets) × (result < buckets) }
{
    key as usize % BUCKETS
}

// Notes hint and link for each key, from the last to the first, so that each leads to the first behind it.
pub(crate) fn note_hints(keys: &[u64], hints: &mut [u16], links: &mut [u16])
    requires { (length keys.now ≤ most_definitions) × (hints.old ≡ replicate buckets 0)
        × (length keys.now ≤ length links.old) }
    ensures { Hinted keys.now hints.new links.new }
{
    for d in (0..keys.len()).rev() {
        let b = bucket(keys[d]);
        links[d] = hints[b];
        hints[b] = d as u16 + 1;
    }
}

// The names of the definitions: their keys, no more than there may be, and the table by which each is found.
#[derive(Clone, Copy)]
pub(crate) struct Names<'a> {
    pub keys: &'a [u64],
    pub hints: &'a [u16],
    pub links: &'a [u16],
    ghost few: { length keys.now ≤ most_definitions },
    ghost hinted: { Hinted keys.now hints.now links.now },
}

impl Names<'_> {
    // The place of a key, the count of keys where it does not stand there.
    pub(crate) fn find(&self, key: u64) -> usize
        ensures { result ≡ place_in key self.now.keys.now }
    {
        let mut h = short_at(self.hints, bucket(key));
        while 0 < h {
            if self.keys[h - 1] == key {
                return h - 1;
            }
            h = short_at(self.links, h - 1);
        }
        self.keys.len()
    }
}
