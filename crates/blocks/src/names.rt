// The names of statements, by place.
ghost use Rattle.std.specs.Prelude.{◌≡◌, ◌-◌, ◌≤◌};
ghost use Rattle.limits.specs.Limits.{most_statements};
ghost use Rattle.laws.specs.Counts.{has};
ghost use Rattle.laws.specs.Places.{gather};
ghost use Rattle.blocks.specs.Places.{bracket_at};
ghost use Rattle.blocks.specs.InsidePlaces.{standing_behind, key_at, keys_at, is_setting, set_at, set_above};
ghost use Rattle.blocks.specs.Working.{Stands};
ghost use Rattle.blocks.specs.InsideWorking.{standing_in};

use super::brackets::leading_kind;
use bits::reads::{byte_at, short_at, word_at};
use drafts::{ENDING, OUTPUT, STORE, last_of};
use sheet::Sheet;

// Where the statement behind statement j stands, which stands at c: outside, or in the block of this header.
pub(crate) fn standing_behind(s: &Sheet, j: usize, c: Option<usize>) -> Option<usize>
    requires { Stands s.now.bounds.now s.now.kinds.now j }
    ensures { standing_in result
        ≡ standing_behind (bracket_at s.now.bounds.now s.now.kinds.now j) j (standing_in c) }
{
    match leading_kind(s, j) {
        OUTPUT => Some(j),
        ENDING => None,
        _ => c,
    }
}

// Whether statement j ends with a store.
pub(crate) fn is_setting(s: &Sheet, j: usize) -> bool
    requires { j ≤ most_statements }
    ensures { result ≡ is_setting s.now.bounds.now s.now.kinds.now j }
{
    short_at(s.bounds, j) < short_at(s.bounds, j + 1)
        && byte_at(s.kinds, last_of(s.bounds, j)) == STORE
}

// Whether statement j sets this name.
pub(crate) fn sets_name(s: &Sheet, j: usize, key: u64) -> bool
    requires { j ≤ most_statements }
    ensures { result ≡ has key (set_at s.now.bounds.now s.now.kinds.now s.now.args.now j) }
{
    is_setting(s, j) && key == word_at(s.args, last_of(s.bounds, j))
}

// Whether one of the statements from c on, before j, sets this name.
pub(crate) fn is_set_above(s: &Sheet, c: usize, j: usize, key: u64) -> bool
    requires { j ≤ most_statements }
    ensures { result ≡ has key (set_above s.now.bounds.now s.now.kinds.now s.now.args.now c j) }
{
    (c..j).any(|i| sets_name(s, i, key))
}

// Whether place i has this name in a draft of this kind.
fn has_name(s: &Sheet, kind: u8, i: usize, key: u64) -> bool
    ensures { result ≡ has key (key_at s.now.kinds.now s.now.args.now kind i) }
{
    byte_at(s.kinds, i) == kind && key == word_at(s.args, i)
}

// Whether one of the places from a place on, before an end, does.
pub(crate) fn is_named_in(s: &Sheet, kind: u8, from: usize, end: usize, key: u64) -> bool
    ensures { result ≡ has key (gather (key_at s.now.kinds.now s.now.args.now kind) (end - from) from) }
{
    (from..end).any(|i| has_name(s, kind, i, key))
}

// Whether statement j has this name in a draft of this kind.
pub(crate) fn is_named_by(s: &Sheet, kind: u8, j: usize, key: u64) -> bool
    requires { j ≤ most_statements }
    ensures { result ≡ has key (keys_at s.now.bounds.now s.now.kinds.now s.now.args.now kind j) }
{
    is_named_in(
        s,
        kind,
        short_at(s.bounds, j),
        short_at(s.bounds, j + 1),
        key,
    )
}
