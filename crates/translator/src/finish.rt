// From the arrays of a sheet without statement fault to the verdict: its units, the model's plan, then the program.
ghost use Rattle.std.specs.Prelude.{◌≡◌, ◌≢◌, true, ◌||◌, List, ℕ, ◌*◌, ◌≤◌, ltb, length};
ghost use Rattle.std.proofs.lemmas.List.Edits.{sets};
ghost use Rattle.limits.specs.Limits.{most_records, most_definitions, roster_bytes};
ghost use Rattle.program.specs.Written.{record_count};
ghost use Rattle.program.specs.Contract.{PutsRoster};
ghost use Rattle.blocks.specs.declared.answer.Refusal.TheVariants.{Unfit};
ghost use Rattle.translator.specs.Working.{refusal_from};
ghost use Rattle.translator.specs.Working.{asks_names, Planned, UnitsReady, ArraysReady, UnitsConclude};
ghost use Rattle.translator.specs.Working.{NamesWritten, UnitsConcludeFor, ConcludesFor, ordered_lines};

use super::{Ordered, Refusal};
use bits::put_bytes;
use bits::reads::short_at;
use blocks::answer::Refusal as Unready;
use limits::{DEFINITIONS, RECORD_BYTES, RECORDS, ROSTER_BYTES, STATEMENTS};
use model::answer::Counts;
use program::roster::put_roster;
use sheet::Sheet;

// Bytes for an entry of each definition that there may be. Where fewer are lent, no names are asked for.
pub(crate) const ROSTER_ROOM: usize = ROSTER_BYTES * DEFINITIONS;

// Whether the drafts of these kinds write more records than there may be, or than there is room for. Few drafts need no
// count.
fn is_over(kinds: &[u8], room: usize) -> bool
    ensures { result ≡ (ltb most_records (record_count kinds.now) || ltb room
        (record_count kinds.now)) }
{
    if kinds.len() <= RECORDS && kinds.len() <= room {
        return false;
    }
    let n = program::count_records(kinds);
    RECORDS < n || room < n
}

// Writes the first line of each ordered unit, as far as there are places. Order gives places in equated, and these the
// units.
fn put_order(equated: &[u16], lines: &[u16], order: &[u16], ordered: &mut [u16])
    ensures { ordered.new ≡ sets ordered.old 0
        (ordered_lines equated.now lines.now order.now) }
{
    for (i, &place) in order.iter().enumerate() {
        if ordered.len() <= i {
            return;
        }
        ordered[i] = short_at(lines, short_at(equated, place as usize)) as u16;
    }
}

// Writes the program of a sound model, if its records are few enough and there is room for them, and the first lines of
// its ordered units. The places of its definitions, the units of the order and their order stand at the front of
// places, equated and order.
fn write_program(
    plan: Counts,
    places: &[u16],
    equated: &[u16],
    order: &[u16],
    ulines: &[u16],
    firsts: &[u16],
    sheet: &Sheet,
    out: &mut [u8],
    ordered: &mut [u16],
) -> Result<Ordered, Refusal>
    requires { Planned plan places.now equated.now order.now sheet.now.lines.now sheet.now.bounds.now
        ulines.now firsts.now sheet.now.kinds.now sheet.now.args.now }
    ensures { (s : Planned plan places.now equated.now order.now
        sheet.now.lines.now sheet.now.bounds.now ulines.now firsts.now
        sheet.now.kinds.now sheet.now.args.now) (f : List ℕ)
        → UnitsConclude s.units f out.old ordered.old
        result f out.new ordered.new }
{
    if is_over(sheet.kinds, out.len() / RECORD_BYTES) {
        return Err(Refusal::NoRoom);
    }
    let d = plan.definitions;
    let e = plan.units;
    let bytes = program::put_program(&places[..d], &equated[..e], firsts, sheet, &order[..e], out);
    put_order(&equated[..e], ulines, &order[..e], ordered);
    Ok(Ordered {
        records: bytes / RECORD_BYTES,
        units: e,
    })
}

// Enters the names in their room, if they are asked for; how many there are.
fn enter_names(rows: &mut [u8], sheet: &Sheet) -> usize
    ensures { asks_names (length rows.old) ≡ true
        → PutsRoster sheet.now.lines.now sheet.now.bounds.now sheet.now.kinds.now sheet.now.args.now
        rows.old result rows.new }
{
    if rows.len() < ROSTER_ROOM {
        return 0;
    }
    put_roster(sheet, rows)
}

// Writes the names of a sound model, n entries, if its records are few enough and there is room for them.
fn write_names(rows: &[u8], n: usize, kinds: &[u8], out: &mut [u8]) -> Result<Ordered, Refusal>
    requires { (n ≤ most_definitions) × (roster_bytes * n ≤ length rows.now) }
    ensures { NamesWritten rows.now n kinds.now out.old result out.new }
{
    if is_over(kinds, RECORDS) {
        return Err(Refusal::NoRoom);
    }
    let end = ROSTER_BYTES * n;
    if out.len() < end {
        return Err(Refusal::NoRosterRoom);
    }
    put_bytes(out, 0, &rows[..end]);
    Ok(Ordered {
        records: n,
        units: 0,
    })
}

// The refusal of units that are not grouped or not planned, of arrays that fit one another.
fn refused(refusal: Unready) -> Refusal
    requires { refusal ≢ Unfit }
    ensures { result ≡ refusal_from refusal }
{
    match refusal {
        Unready::ManyDefinitions => Refusal::ManyDefinitions,
        Unready::Faults(count) => Refusal::ModelFaults(count),
        Unready::Unfit => unreachable!(),
    }
}

// The verdict on the model of units: 7 with the faults listed, 8, or 0 with the program written and the order handed
// out. Where names are asked for, 10 or 0 with these written; they are entered while arguments are keys.
fn conclude_units(
    rows: &mut [u8],
    lines: &[u16],
    bounds: &[u16],
    ulines: &[u16],
    ubounds: &[u16],
    firsts: &[u16],
    kinds: &[u8],
    args: &mut [u64],
    used: &mut [u16],
    faults: &mut [u8],
    out: &mut [u8],
    ordered: &mut [u16],
) -> Result<Ordered, Refusal>
    requires { UnitsReady lines.now bounds.now ulines.now ubounds.now firsts.now kinds.now args.old
        used.old faults.old }
    ensures { (s : UnitsReady lines.now bounds.now ulines.now
        ubounds.now firsts.now kinds.now args.old used.old
        faults.old)
        → UnitsConcludeFor (asks_names (length rows.old)) s.units faults.old out.old
        ordered.old result faults.new out.new ordered.new }
{
    let mut places = [0u16; DEFINITIONS];
    let mut equated = [0u16; STATEMENTS];
    let mut order = [0u16; STATEMENTS];
    let keyed = Sheet {
        lines,
        bounds,
        kinds,
        args: &*args,
    };
    let n = enter_names(&mut *rows, &keyed);
    let planned = model::plan(
        lines,
        bounds,
        ulines,
        ubounds,
        kinds,
        &mut *args,
        used,
        faults,
        &mut places,
        &mut equated,
        &mut order,
    );
    let plan = match planned {
        Ok(counts) => counts,
        Err(refusal) => return Err(refused(refusal)),
    };
    if rows.len() < ROSTER_ROOM {
        let resolved = Sheet {
            lines,
            bounds,
            kinds,
            args: &*args,
        };
        return write_program(
            plan, &places, &equated, &order, ulines, firsts, &resolved, out, ordered,
        );
    }
    write_names(rows, n, kinds, out)
}

// The verdict on statements without fault: 6, 7 with the faults of blocks listed, or the verdict on the model of units.
pub(crate) fn conclude(
    rows: &mut [u8],
    lines: &[u16],
    bounds: &[u16],
    kinds: &mut [u8],
    args: &mut [u64],
    used: &mut [u16],
    faults: &mut [u8],
    out: &mut [u8],
    ordered: &mut [u16],
) -> Result<Ordered, Refusal>
    requires { ArraysReady lines.now bounds.now kinds.old args.old used.old faults.old }
    ensures { (s : ArraysReady lines.now bounds.now kinds.old
        args.old used.old faults.old)
        → ConcludesFor (asks_names (length rows.old)) s.statements faults.old out.old
        ordered.old
        result faults.new out.new ordered.new }
{
    let mut ulines = [0u16; STATEMENTS + 1];
    let mut ubounds = [0u16; STATEMENTS + 1];
    let mut firsts = [0u16; STATEMENTS + 1];
    let grouped = blocks::group(
        lines,
        bounds,
        &mut *kinds,
        args,
        &mut *faults,
        &mut ulines,
        &mut ubounds,
        &mut firsts,
    );
    let u = match grouped {
        Ok(units) => units,
        Err(refusal) => return Err(refused(refusal)),
    };
    conclude_units(
        rows,
        lines,
        bounds,
        &ulines[..u],
        &ubounds[..u + 1],
        &firsts[..u + 1],
        kinds,
        args,
        used,
        faults,
        out,
        ordered,
    )
}
