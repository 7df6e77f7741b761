// The units of the order: those that end with a store, a derivative or a block's end, and what each of them uses.
ghost use Rattle.std.specs.Prelude.{◌≡◌, ◌+◌, ◌-◌, ◌≤◌, ◌<◌, length, replicate};
ghost use Rattle.limits.specs.Limits.{most_statements};
ghost use Rattle.laws.specs.Places.{only_if};
ghost use Rattle.laws.specs.Put.{Put};
ghost use Rattle.model.specs.Places.{resolved, is_ordered, ordered_in, output_slots, assigned_by, assigned_slots};
ghost use Rattle.model.specs.Working.{Owned, noted, used_here};

use super::hints::Names;
use bits::put;
use bits::reads::{byte_at, short_at, word_at};
use drafts::{OUTPUT, STORE, is_closing, is_use, last_of};
use sheet::Sheet;

// Whether unit j is one of the order.
pub(crate) fn is_ordered(bounds: &[u16], kinds: &[u8], j: usize) -> bool
    requires { j < 65536 }
    ensures { result ≡ is_ordered bounds.now kinds.now j }
{
    short_at(bounds, j) < short_at(bounds, j + 1) && is_closing(byte_at(kinds, last_of(bounds, j)))
}

// Stores a number at place w, if a test holds; the place behind.
pub(crate) fn put_if(stands: bool, v: usize, buf: &mut [u16], w: usize) -> usize
    requires { (v < 65536) × (w < 65536) }
    ensures { Put (only_if stands v) w result buf.old buf.new }
{
    if stands {
        put(buf, w, v as u16);
        return w + 1;
    }
    w
}

// Stores the numbers of those of the order among n units; how many there are.
pub(crate) fn collect_ordered(n: usize, bounds: &[u16], kinds: &[u8], equated: &mut [u16]) -> usize
    requires { n ≤ most_statements }
    ensures { Put (ordered_in n bounds.now kinds.now) 0 result equated.old
        equated.new }
{
    let mut count = 0;
    for j in 0..n {
        count = put_if(is_ordered(bounds, kinds, j), j, &mut *equated, count);
    }
    count
}

// Notes v as the owner of each output in front of the drafts from a place on, before an end. Names are not resolved
// yet.
fn note_outputs(sheet: &Sheet, names: &Names, from: usize, end: usize, v: usize, owners: &mut [u16])
    requires { (v < 65536) × (length sheet.now.kinds.now ≤ length sheet.now.args.now) }
    ensures { owners.new ≡ noted (output_slots sheet.now.kinds.now
        (resolved names.now.keys.now sheet.now.kinds.now sheet.now.args.now) (end - from) from) v
        owners.old }
{
    for i in from..end {
        if byte_at(sheet.kinds, i) != OUTPUT {
            return;
        }
        let slot = names.find(word_at(sheet.args, i)) + 1;
        put(&mut *owners, slot, v as u16);
    }
}

// Notes v as the owner of each slot that unit j assigns.
fn note_assigned(sheet: &Sheet, names: &Names, j: usize, v: usize, owners: &mut [u16])
    requires { (j < 65536) × (v < 65536) × (length sheet.now.kinds.now ≤ length sheet.now.args.now) }
    ensures { owners.new ≡ noted (assigned_by sheet.now.bounds.now sheet.now.kinds.now
        (resolved names.now.keys.now sheet.now.kinds.now sheet.now.args.now) j) v owners.old }
{
    let first = short_at(sheet.bounds, j);
    let end = short_at(sheet.bounds, j + 1);
    note_outputs(sheet, names, first, end, v, &mut *owners);
    let last = last_of(sheet.bounds, j);
    let stores = byte_at(sheet.kinds, last) == STORE;
    if stores {
        let slot = names.find(word_at(sheet.args, last)) + 1;
        put(owners, slot, v as u16);
    }
}

// Notes for each slot the unit that assigns it, from the last to the first, so that the first stays.
pub(crate) fn note_owners(equated: &[u16], sheet: &Sheet, names: &Names, owners: &mut [u16])
    requires { (length equated.now ≤ most_statements) × (owners.old ≡ replicate (length owners.old) 0)
        × (length sheet.now.kinds.now ≤ length sheet.now.args.now) }
    ensures { Owned (assigned_slots equated.now sheet.now.bounds.now sheet.now.kinds.now
        (resolved names.now.keys.now sheet.now.kinds.now sheet.now.args.now)) owners.new }
{
    for r in (0..equated.len()).rev() {
        let j = equated[r] as usize;
        note_assigned(sheet, names, j, r + 1, &mut *owners);
    }
}

// Stores the unit that a draft uses, if it uses one; the place behind.
pub(crate) fn put_use(owners: &[u16], kind: u8, slot: u64, used: &mut [u16], w: usize) -> usize
    requires { w < 4294967296 }
    ensures { Put (used_here owners.now kind slot) w result used.old used.new }
{
    if !is_use(kind) {
        return w;
    }
    let owner = short_at(owners, slot as usize);
    if owner == 0 {
        return w;
    }
    put(used, w, owner as u16 - 1);
    w + 1
}
