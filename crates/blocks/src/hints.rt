// Where a name is looked for first among the keys of a row: for each remainder of a key a place of the row. A hint may
// be wrong, so the key at that place is compared.
ghost use Rattle.std.specs.Prelude.{◌≡◌, true, ◌≤◌, length};
ghost use Rattle.limits.specs.Limits.{most_definitions};
ghost use Rattle.laws.specs.Counts.{has};

use bits::put;
use bits::reads::short_at;

// A prime, near twice as large as there may be names: the keys of two seldom have the same remainder. The table is
// zeroed for each text, so it is no larger.
pub const BUCKETS: usize = 2039;

// The keys of a row with their hints.
#[derive(Clone, Copy)]
pub(crate) struct Hinted<'a> {
    pub(crate) keys: &'a [u64],
    pub(crate) hints: &'a [u16],
}

// Notes the place of each key; where two have the same remainder, the last one's stays.
pub(crate) fn note_places(keys: &[u64], hints: &mut [u16])
    requires { length keys.now ≤ most_definitions }
{
    for (i, &key) in keys.iter().enumerate() {
        put(&mut *hints, key as usize % BUCKETS, i as u16);
    }
}

// Whether this name is the key at the place that its hint names.
pub(crate) fn is_hinted(row: &Hinted, key: u64) -> bool
    ensures { result ≡ true → has key row.now.keys.now ≡ true }
{
    let i = short_at(row.hints, key as usize % BUCKETS);
    i < row.keys.len() && key == row.keys[i]
}
