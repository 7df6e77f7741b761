// The stages of a plan, one after the other: each returns what it found, and a plan ends where one finds a fault.
ghost use Rattle.std.specs.Prelude.{◌≡◌, List, ℕ, ◌+◌, ◌<◌, ◌≤◌, MatchResult, min, length, replicate};
ghost use Rattle.limits.specs.Limits.{most_statements, most_definitions};
ghost use Rattle.order.specs.Greedy.{order};
ghost use Rattle.order.specs.Table.{Fit, uses_by_table};
ghost use Rattle.model.specs.Places.{keys_in, places_in, resolved};
ghost use Rattle.model.specs.Plan.{lent, plan_outcome, ordered_plan, linked_plan, sheeted};
ghost use Rattle.model.specs.Contract.{plan_in};
ghost use Rattle.model.specs.Working.{Follows, Wide, Keyed, Links, Unowned};

use super::answer::Counts;
use super::collect::collect;
use super::doubles::report_doubles;
use super::hints::{Names, note_hints};
use super::loops::report_loops;
use super::names::{Usage, report_names, resolve};
use super::units::{collect_ordered, note_owners};
use blocks::answer::Refusal;
use blocks::hints::BUCKETS;
use limits::{DEFINITIONS, SLOTS, STATEMENTS};
use sheet::Sheet;

// Goes on where there are no faults; so many are refused.
fn none_of(faults: usize) -> Result<(), Refusal>
    ensures { MatchResult result (λ _. faults ≡ 0) (λ e. (e ≡ Refusal.Faults faults) × (0 < faults)) }
{
    if 0 < faults {
        return Err(Refusal::Faults(faults));
    }
    Ok(())
}

// What linking gives: how many units are ordered, how much they use and whether a name is flawed.
#[derive(Clone, Copy)]
pub(crate) struct Link {
    pub units: usize,
    pub usage: Usage,
}

// The units of the order, the names resolved to slots, and what each of these units uses. No owner is noted yet.
fn connect(
    lines: &[u16],
    bounds: &[u16],
    kinds: &[u8],
    args: &mut [u64],
    used: &mut [u16],
    names: &Names,
    places: &[u16],
    equated: &mut [u16],
    starts: &mut [u16],
    owners: &mut [u16],
) -> Link
    requires { Keyed lines.now bounds.now kinds.now args.old used.old names.now.keys.now places.now
        × (most_statements ≤ length equated.old) × (starts.old ≡ replicate (most_statements + 1) 0)
        × Unowned (length names.now.keys.now) owners.old }
    ensures { Links lines.now bounds.now kinds.now names.now.keys.now
        places.now result
        args.old args.new used.old used.new equated.old
        equated.new starts.new }
{
    let units = collect_ordered(lines.len(), bounds, kinds, &mut *equated);
    let sheet = Sheet {
        lines,
        bounds,
        kinds,
        args: &*args,
    };
    note_owners(&equated[..units], &sheet, names, &mut *owners);
    let usage = resolve(
        lines, bounds, kinds, names, places, owners, args, starts, used,
    );
    Link { units, usage }
}

// 24: the units are ordered by what they use; there are n definitions.
fn place(
    starts: &[u16],
    used: &[u16],
    n: usize,
    equated: &[u16],
    placed: &mut [u16],
    lines: &[u16],
    faults: &mut [u8],
) -> Result<Counts, Refusal>
    requires { Fit (length equated.now) starts.now used.now × (most_statements ≤ length placed.old) }
    ensures { (slots filled p e : List ℕ) → plan_outcome (plan_in result) slots filled faults.new
        (lent p e placed.new) ≡
        ordered_plan (order (length equated.now) (uses_by_table starts.now used.now)) n equated.now
        lines.now slots filled
        faults.old (lent p e placed.old) }
{
    let Some(k) = order::sort(equated.len(), starts, used, &mut *placed) else {
        return Err(Refusal::Unfit);
    };
    if k < equated.len() {
        let loops = report_loops(&placed[..k], equated, lines, faults);
        return Err(Refusal::Faults(loops));
    }
    Ok(Counts {
        definitions: n,
        units: equated.len(),
    })
}

// The names linked, 22 and 23; the order, 24. The names and places are those of the definitions.
fn linked(
    lines: &[u16],
    bounds: &[u16],
    kinds: &[u8],
    args: &mut [u64],
    used: &mut [u16],
    faults: &mut [u8],
    names: &Names,
    places: &[u16],
    equated: &mut [u16],
    placed: &mut [u16],
    owners: &mut [u16],
) -> Result<Counts, Refusal>
    requires { Keyed lines.now bounds.now kinds.now args.old used.old names.now.keys.now places.now
        × Wide equated.old placed.old × Unowned (length names.now.keys.now) owners.old }
    ensures { (p : List ℕ) → plan_outcome (plan_in result) args.new used.new faults.new
        (lent p equated.new placed.new) ≡
        linked_plan (places_in kinds.now) lines.now bounds.now kinds.now
        (resolved (keys_in kinds.now args.old) kinds.now args.old) used.old
        faults.old (lent p equated.old placed.old) }
{
    let mut starts = [0u16; STATEMENTS + 1];
    let link = connect(
        lines,
        bounds,
        kinds,
        &mut *args,
        &mut *used,
        names,
        places,
        &mut *equated,
        &mut starts,
        owners,
    );
    let sheet = Sheet {
        lines,
        bounds,
        kinds,
        args: &*args,
    };
    let flaws = report_names(link.usage.flawed, &sheet, places, &mut *faults);
    none_of(flaws)?;
    let units = link.units;
    let count = link.usage.count;
    place(
        &starts[..units + 1],
        &used[..count],
        places.len(),
        &equated[..units],
        placed,
        lines,
        faults,
    )
}

// All stages: the definitions, 6; 21; what follows of the units. There is room for K definitions, and for O slots.
fn in_room<const K: usize, const O: usize>(
    lines: &[u16],
    bounds: &[u16],
    ulines: &[u16],
    ubounds: &[u16],
    kinds: &[u8],
    args: &mut [u64],
    used: &mut [u16],
    faults: &mut [u8],
    places: &mut [u16],
    equated: &mut [u16],
    placed: &mut [u16],
) -> Result<Counts, Refusal>
    requires { Follows lines.now bounds.now kinds.now used.old
        × Follows ulines.now ubounds.now kinds.now used.old × (length kinds.now ≤ length args.old) ×
        (most_definitions ≤ length places.old) × Wide equated.old placed.old
        × (min (length kinds.now) most_definitions ≤ K) × (K + 2 ≤ O) × (O ≤ 65536) }
    ensures { plan_outcome (plan_in result) args.new used.new faults.new
        (lent places.new equated.new
        placed.new) ≡ sheeted lines.now bounds.now ulines.now
        ubounds.now kinds.now args.old used.old
        faults.old (lent places.old equated.old placed.old) }
{
    let mut keys = [0u64; K];
    let mut links = [0u16; K];
    let mut owners = [0u16; O];
    let n = collect(kinds, args, &mut keys, &mut *places);
    if DEFINITIONS < n {
        return Err(Refusal::ManyDefinitions);
    }
    let mut hints = [0u16; BUCKETS];
    let keys = &keys[..n];
    let defined = &places[..n];
    note_hints(keys, &mut hints, &mut links);
    let names = Names {
        keys,
        hints: &hints,
        links: &links,
    };
    let doubles = report_doubles(lines, bounds, &names, defined, &mut *faults);
    none_of(doubles)?;
    linked(
        ulines,
        ubounds,
        kinds,
        args,
        used,
        faults,
        &names,
        defined,
        equated,
        placed,
        &mut owners,
    )
}

// ---- the rooms: they are zeroed for each text, and few drafts need few

// The most drafts of a model whose names stand in the smaller arrays, and the slots of these.
const FEW: usize = 128;

const FEW_SLOTS: usize = FEW + 2;

const ALL_SLOTS: usize = SLOTS + 1;

// All stages, in the smaller room if that is large enough: there are no more definitions than drafts.
pub(crate) fn run(
    lines: &[u16],
    bounds: &[u16],
    ulines: &[u16],
    ubounds: &[u16],
    kinds: &[u8],
    args: &mut [u64],
    used: &mut [u16],
    faults: &mut [u8],
    places: &mut [u16],
    equated: &mut [u16],
    placed: &mut [u16],
) -> Result<Counts, Refusal>
    requires { Follows lines.now bounds.now kinds.now used.old
        × Follows ulines.now ubounds.now kinds.now used.old × (length kinds.now ≤ length args.old) ×
        (most_definitions ≤ length places.old) × Wide equated.old placed.old }
    ensures { plan_outcome (plan_in result) args.new used.new faults.new
        (lent places.new equated.new
        placed.new) ≡ sheeted lines.now bounds.now ulines.now
        ubounds.now kinds.now args.old used.old
        faults.old (lent places.old equated.old placed.old) }
{
    if kinds.len() <= FEW {
        return in_room::<FEW, FEW_SLOTS>(
            lines, bounds, ulines, ubounds, kinds, args, used, faults, places, equated, placed,
        );
    }
    in_room::<DEFINITIONS, ALL_SLOTS>(
        lines, bounds, ulines, ubounds, kinds, args, used, faults, places, equated, placed,
    )
}
