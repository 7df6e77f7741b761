// Names resolved to slots, and the faults 22 and 23.
ghost use Rattle.std.specs.Prelude.{◌≡◌, not, cond, ◌&&◌, List, ℕ, ◌-◌, ◌≤◌, eqb, length, get_or};
ghost use Rattle.limits.specs.Limits.{most_statements};
ghost use Rattle.laws.specs.Places.{any_in};
ghost use Rattle.drafts.specs.Kinds.{kind_constant, kind_from, asks};
ghost use Rattle.drafts.specs.Places.{home_of};
ghost use Rattle.model.specs.Places.{unknown, undefined_at, unfit_at, nameless};
ghost use Rattle.blocks.specs.Working.{Reported};
ghost use Rattle.model.specs.Working.{flawed_by, Walked, Resolving, Linking, Linkable, Linked};
ghost use Rattle.model.specs.Working.{name_flaw, Searched};

use super::hints::Names;
use super::units::{is_ordered, put_if, put_use};
use bits::put;
use bits::reads::{byte_at, short_at, word_at};
use blocks::report::add_fault;
use drafts::{CONSTANT, FROM, OWN, home_of, is_asking, is_named};
use faults::Fault;
use sheet::Sheet;

// Whether nothing outside a block defines a slot's name.
fn is_unknown(places: &[u16], kinds: &[u8], slot: u64) -> bool
    ensures { result ≡ unknown places.now kinds.now slot }
{
    (places.len() as u64) < slot || byte_at(kinds, home_of(places, slot)) == OWN
}

// Whether a draft asks for such a name.
fn is_undefined(places: &[u16], kinds: &[u8], kind: u8, slot: u64) -> bool
    ensures { result ≡ (asks kind && unknown places.now kinds.now slot) }
{
    is_asking(kind) && is_unknown(places, kinds, slot)
}

// Whether a draft is an initial's name that is no constant.
fn is_unfit(places: &[u16], kinds: &[u8], kind: u8, slot: u64) -> bool
    ensures { result ≡ (eqb kind kind_from && not
        (eqb (get_or kinds.now (home_of places.now slot) 0) kind_constant)) }
{
    kind == FROM && byte_at(kinds, home_of(places, slot)) != CONSTANT
}

// Whether one of the two holds of a draft.
fn is_flawed(places: &[u16], kinds: &[u8], kind: u8, slot: u64) -> bool
    ensures { result ≡ flawed_by places.now kinds.now kind slot }
{
    is_undefined(places, kinds, kind, slot) || is_unfit(places, kinds, kind, slot)
}

// How much is used so far, and whether a name so far is flawed.
#[derive(Clone, Copy)]
pub(crate) struct Usage {
    pub count: usize,
    pub flawed: bool,
}

// Resolves the names of the drafts from a place on, before an end, and stores what they use.
fn resolve_in(
    kinds: &[u8],
    names: &Names,
    places: &[u16],
    owners: &[u16],
    from: usize,
    end: usize,
    usage: Usage,
    args: &mut [u64],
    used: &mut [u16],
) -> Usage
    requires { Walked names.now.keys.now kinds.now args.old from end usage.count }
    ensures { (result.count ≤ end) × ((args₀ : List ℕ)
        → Resolving names.now.keys.now kinds.now places.now args₀ usage.flawed from
        args.old
        → Linking names.now.keys.now kinds.now places.now owners.now args₀
        used.old
        from usage.count end result args.new used.new) }
{
    let mut w = usage.count;
    let mut flawed = usage.flawed;
    for i in from..end {
        let kind = kinds[i];
        if is_named(kind) {
            let slot = names.find(args[i]) as u64 + 1;
            args[i] = slot;
            w = put_use(owners, kind, slot, &mut *used, w);
            flawed |= is_flawed(places, kinds, kind, slot);
        }
    }
    Usage { count: w, flawed }
}

// How many owners are looked at in a unit: all in one of the order, else none.
fn all_or_none(ordered: bool, n: usize) -> usize
    ensures { (result ≡ cond ordered n 0) × (result ≤ n) }
{
    if ordered { n } else { 0 }
}

// Resolves the names of all drafts. What all units of the order use is stored, one after the other, and where each
// begins; how much that is, and whether a name is flawed.
pub(crate) fn resolve(
    lines: &[u16],
    bounds: &[u16],
    kinds: &[u8],
    names: &Names,
    places: &[u16],
    owners: &[u16],
    args: &mut [u64],
    starts: &mut [u16],
    used: &mut [u16],
) -> Usage
    requires { Linkable lines.now bounds.now kinds.now names.now.keys.now owners.now args.old used.old }
    ensures { Linked lines.now bounds.now kinds.now names.now.keys.now
        places.now result
        args.old args.new starts.old starts.new used.old
        used.new }
{
    let mut usage = Usage {
        count: 0,
        flawed: false,
    };
    let mut r = 0;
    for j in 0..lines.len() {
        let ordered = is_ordered(bounds, kinds, j);
        r = put_if(ordered, usage.count, &mut *starts, r);
        let known = all_or_none(ordered, owners.len());
        usage = resolve_in(
            kinds,
            names,
            places,
            &owners[..known],
            short_at(bounds, j),
            short_at(bounds, j + 1),
            usage,
            &mut *args,
            &mut *used,
        );
    }
    put(starts, r, usage.count as u16);
    usage
}

// 22 if a name of the drafts from a place on, before an end, is undefined, else 23 if an initial is unfit, else none.
fn flaw_in(sheet: &Sheet, places: &[u16], from: usize, end: usize) -> Option<Fault>
    ensures { result ≡ name_flaw
        (any_in (undefined_at places.now sheet.now.kinds.now sheet.now.args.now) (end - from) from)
        (any_in (unfit_at places.now sheet.now.kinds.now sheet.now.args.now) (end - from) from) }
{
    let mut flaw = None;
    for i in from..end {
        let kind = byte_at(sheet.kinds, i);
        let slot = word_at(sheet.args, i);
        if is_undefined(places, sheet.kinds, kind, slot) {
            return Some(Fault::Undefined);
        }
        if is_unfit(places, sheet.kinds, kind, slot) {
            flaw = Some(Fault::NoConstant);
        }
    }
    flaw
}

// Writes the faults 22 and 23, unit by unit; how many there are.
fn report_nameless(sheet: &Sheet, places: &[u16], faults: &mut [u8]) -> usize
    requires { length sheet.now.lines.now ≤ most_statements }
    ensures { Reported (nameless places.now sheet.now.lines.now sheet.now.bounds.now
        sheet.now.kinds.now sheet.now.args.now) 0
        result faults.old faults.new }
{
    let mut count = 0;
    for (j, &line) in sheet.lines.iter().enumerate() {
        let from = short_at(sheet.bounds, j);
        let end = short_at(sheet.bounds, j + 1);
        let flaw = flaw_in(sheet, places, from, end);
        count = add_fault(flaw, line as usize, &mut *faults, count);
    }
    count
}

// Writes the faults 22 and 23 to the front of the list; how many there are. Where no name is flawed, no unit is.
pub(crate) fn report_names(flawed: bool, sheet: &Sheet, places: &[u16], faults: &mut [u8]) -> usize
    requires { Searched sheet.now.lines.now sheet.now.bounds.now sheet.now.kinds.now sheet.now.args.now
        places.now flawed }
    ensures { Reported (nameless places.now sheet.now.lines.now sheet.now.bounds.now
        sheet.now.kinds.now sheet.now.args.now) 0
        result faults.old faults.new }
{
    if flawed {
        return report_nameless(sheet, places, faults);
    }
    0
}
