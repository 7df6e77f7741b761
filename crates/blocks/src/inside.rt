// Fault 26: a statement inside a block that may not stand there, and a header with an output that is not set or named
// twice.
ghost use Rattle.std.specs.Prelude.{◌≡◌, ◌+◌, ◌-◌, ◌≤◌, ◌<◌, length};
ghost use Rattle.limits.specs.Limits.{most_statements, most_definitions};
ghost use Rattle.laws.specs.Counts.{has};
ghost use Rattle.laws.specs.Places.{any_in};
ghost use Rattle.drafts.specs.Kinds.{kind_fetch};
ghost use Rattle.drafts.specs.Places.{begins, ends};
ghost use Rattle.blocks.specs.Places.{bracket_at};
ghost use Rattle.blocks.specs.InsidePlaces.{set_below, head_wrong_at, right_at, wrong_at};
ghost use Rattle.blocks.specs.InsidePlaces.{faults26_in};
ghost use Rattle.blocks.specs.Working.{Reported, AllStand};
ghost use Rattle.blocks.specs.InsideWorking.{standing_in, outside_at, bad_output_at, allowed_at, Small, faults26_with};

use super::brackets::leading_kind;
use super::free::collect_free;
use super::hints::{BUCKETS, Hinted, is_hinted, note_places};
use super::names::{
    is_named_by, is_named_in, is_set_above, is_setting, sets_name, standing_behind,
};
use super::report::add_fault;
use bits::reads::{byte_at, index, short_at, word_at};
use drafts::{ENDING, FETCH, INPUT, OUTPUT, last_of};
use faults::Fault;
use limits::DEFINITIONS;
use sheet::Sheet;

// Whether a statement from i on, before the next end, sets this name.
fn is_set_below(s: &Sheet, i: usize, key: u64) -> bool
    requires { (length s.now.lines.now ≤ most_statements)
        × AllStand (length s.now.lines.now) s.now.bounds.now s.now.kinds.now }
    ensures { result ≡ has key
        (set_below s.now.bounds.now s.now.kinds.now s.now.args.now (length s.now.lines.now - i) i) }
{
    for k in i..s.lines.len() {
        if leading_kind(s, k) == ENDING {
            return false;
        }
        if sets_name(s, k, key) {
            return true;
        }
    }
    false
}

// Whether place i of header j has an output that is not set below, or named earlier.
fn is_bad_output(s: &Sheet, j: usize, i: usize) -> bool
    requires { (length s.now.lines.now ≤ most_statements) × (j < length s.now.lines.now)
        × AllStand (length s.now.lines.now) s.now.bounds.now s.now.kinds.now }
    ensures { result ≡ bad_output_at s.now.kinds.now s.now.args.now
        (set_below s.now.bounds.now s.now.kinds.now s.now.args.now (length s.now.lines.now - (j + 1)) (j + 1))
        (begins s.now.bounds.now j) i }
{
    if byte_at(s.kinds, i) != OUTPUT {
        return false;
    }
    let key = word_at(s.args, i);
    !is_set_below(s, j + 1, key) || is_named_in(s, OUTPUT, short_at(s.bounds, j), i, key)
}

// Whether header j has one.
fn is_wrong_header(s: &Sheet, j: usize) -> bool
    requires { (length s.now.lines.now ≤ most_statements) × (j < length s.now.lines.now)
        × AllStand (length s.now.lines.now) s.now.bounds.now s.now.kinds.now }
    ensures { result
        ≡ head_wrong_at (length s.now.lines.now) s.now.bounds.now s.now.kinds.now s.now.args.now j }
{
    let end = short_at(s.bounds, j + 1);
    (short_at(s.bounds, j)..end).any(|i| is_bad_output(s, j, i))
}

// Whether statement j may use this name in the block of a header. Most are names of constants and states: a hint comes
// first.
fn is_allowed(free: &Hinted, s: &Sheet, head: usize, j: usize, key: u64) -> bool
    requires { (head < j) × (j ≤ most_statements) }
    ensures { result ≡ has key (allowed_at free.now.keys.now s.now.bounds.now s.now.kinds.now
        s.now.args.now (head + 1) j) }
{
    is_hinted(free, key)
        || is_named_by(s, INPUT, head, key)
        || is_set_above(s, head + 1, j, key)
        || free.keys.contains(&key)
}

// Whether place i of statement j uses another name.
fn is_stranger(free: &Hinted, s: &Sheet, head: usize, j: usize, i: usize) -> bool
    requires { (head < j) × (j ≤ most_statements) }
    ensures { result ≡ outside_at s.now.kinds.now s.now.args.now kind_fetch
        (allowed_at free.now.keys.now s.now.bounds.now s.now.kinds.now s.now.args.now (head + 1) j) i }
{
    byte_at(s.kinds, i) == FETCH && !is_allowed(free, s, head, j, word_at(s.args, i))
}

// Whether statement j does.
fn has_stranger(free: &Hinted, s: &Sheet, head: usize, j: usize) -> bool
    requires { (head < j) × (j ≤ most_statements) }
    ensures { result ≡ any_in (outside_at s.now.kinds.now s.now.args.now kind_fetch
        (allowed_at free.now.keys.now s.now.bounds.now s.now.kinds.now s.now.args.now (head + 1) j))
        (ends s.now.bounds.now j - begins s.now.bounds.now j) (begins s.now.bounds.now j) }
{
    let end = short_at(s.bounds, j + 1);
    (short_at(s.bounds, j)..end).any(|i| is_stranger(free, s, head, j, i))
}

// Whether statement j may stand in the block of a header.
fn is_right(free: &Hinted, s: &Sheet, head: usize, j: usize) -> bool
    requires { (head < j) × (j ≤ most_statements) }
    ensures { result ≡ right_at free.now.keys.now s.now.bounds.now s.now.kinds.now s.now.args.now (head + 1) j }
{
    if !is_setting(s, j) {
        return false;
    }
    let key = word_at(s.args, last_of(s.bounds, j));
    !is_named_by(s, INPUT, head, key) && !has_stranger(free, s, head, j)
}

// Whether statement j has a fault, which stands at c.
fn is_wrong(free: &Hinted, s: &Sheet, c: Option<usize>, j: usize) -> bool
    requires { (length s.now.lines.now ≤ most_statements) × (j < length s.now.lines.now) × (standing_in c ≤ j)
        × AllStand (length s.now.lines.now) s.now.bounds.now s.now.kinds.now }
    ensures { result ≡ wrong_at (length s.now.lines.now) free.now.keys.now s.now.bounds.now s.now.kinds.now
        s.now.args.now (bracket_at s.now.bounds.now s.now.kinds.now j) (standing_in c) j }
{
    match leading_kind(s, j) {
        OUTPUT => is_wrong_header(s, j),
        ENDING => false,
        _ => match c {
            Some(head) => !is_right(free, s, head, j),
            None => false,
        },
    }
}

// Writes the faults 26, statement by statement, where the constants and states are known and where to look for them
// first; how many there are.
fn report_each(free: &Hinted, s: &Sheet, faults: &mut [u8]) -> usize
    requires { (length s.now.lines.now ≤ most_statements)
        × AllStand (length s.now.lines.now) s.now.bounds.now s.now.kinds.now }
    ensures { Reported (faults26_with free.now.keys.now s.now.lines.now s.now.bounds.now
        s.now.kinds.now s.now.args.now) 0 result faults.old faults.new }
{
    let mut count = 0;
    let mut c = None;
    for (j, &line) in s.lines.iter().enumerate() {
        let fault = is_wrong(free, s, c, j).then_some(Fault::Misplaced);
        count = add_fault(fault, index(line), &mut *faults, count);
        c = standing_behind(s, j, c);
    }
    count
}

// Writes the faults 26, where the constants and states are known; how many there are.
fn report_wrong(keys: &[u64], s: &Sheet, faults: &mut [u8]) -> usize
    requires { (length s.now.lines.now ≤ most_statements) × (length keys.now ≤ most_definitions)
        × AllStand (length s.now.lines.now) s.now.bounds.now s.now.kinds.now }
    ensures { Reported (faults26_with keys.now s.now.lines.now s.now.bounds.now
        s.now.kinds.now s.now.args.now) 0 result faults.old faults.new }
{
    let mut hints = [0u16; BUCKETS];
    note_places(keys, &mut hints);
    let free = Hinted {
        keys,
        hints: &hints,
    };
    report_each(&free, s, faults)
}

// Writes the faults 26 to the front of the list; how many there are.
pub(crate) fn report_inside(s: &Sheet, faults: &mut [u8]) -> usize
    requires { Small (length s.now.lines.now) s.now.kinds.now
        × AllStand (length s.now.lines.now) s.now.bounds.now s.now.kinds.now }
    ensures { Reported (faults26_in s.now.lines.now s.now.bounds.now s.now.kinds.now
        s.now.args.now) 0 result faults.old faults.new }
{
    let mut free = [0u64; DEFINITIONS];
    let f = collect_free(s, &mut free);
    report_wrong(&free[..f], s, faults)
}
