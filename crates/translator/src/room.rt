// The working room of a translation: arrays in which what is read of the text stands. They are zeroed for each text,
// so there are rooms of three sizes. A text has no more drafts than bytes, and most have far fewer: one that is longer
// than the smallest room is read in the next, and once more in the largest where its drafts do not fit. Only of a text
// that is read through it is known that its statements are not too many, so a larger room has a fault list of its own.
// Where names are asked for, rows for them are lent from outside; else there are none.
ghost use Rattle.std.specs.Prelude.{◌≤◌, length};
ghost use Rattle.limits.specs.Limits.{text_bytes};
ghost use Rattle.translator.specs.Working.{Taken, AllRead, asks_names, DecidesFor, TriesFor, small};

use super::finish::conclude;
use super::{Ordered, Refusal, Short, SoFar, read_all};
use bits::put_bytes;
use limits::{FAULT_BYTES, FAULT_ROOM, STATEMENTS, TEXT_BYTES};

// The most bytes of a text that is read in the smallest room.
pub(crate) const SMALL: usize = STATEMENTS / 2;

// The places for drafts in the next.
const QUARTER: usize = TEXT_BYTES / 4;

// The verdict on a text that is read through: 5 with the faults listed, or the verdict on its model.
fn decide(
    rows: &mut [u8],
    n: SoFar,
    faults: &mut [u8],
    out: &mut [u8],
    kinds: &mut [u8],
    args: &mut [u64],
    used: &mut [u16],
    lines: &[u16],
    bounds: &[u16],
    ordered: &mut [u16],
) -> Result<Ordered, Refusal>
    requires { AllRead n faults.old kinds.old args.old used.old lines.now bounds.now }
    ensures { (s : AllRead n faults.old kinds.old args.old used.old
        lines.now bounds.now)
        → DecidesFor (asks_names (length rows.old)) s.text s.list₀ out.old
        ordered.old result faults.new
        out.new ordered.new }
{
    if 0 < n.faults {
        return Err(Refusal::StatementFaults(n.faults));
    }
    let s = n.statements;
    let d = n.drafts;
    conclude(
        rows,
        &lines[..s],
        &bounds[..s + 1],
        &mut kinds[..d],
        &mut args[..d],
        used,
        faults,
        out,
        ordered,
    )
}

// ---- the rooms

// A text of a few lines: its statements are not too many and their drafts have room, so it is read through, and its
// faults are listed at once.
pub(crate) fn in_small_room(
    rows: &mut [u8],
    text: &[u8],
    faults: &mut [u8],
    out: &mut [u8],
    ordered: &mut [u16],
) -> Result<Ordered, Refusal>
    requires { (Taken text.now faults.old) × (length text.now ≤ small) }
    ensures { DecidesFor (asks_names (length rows.old)) text.now faults.old
        out.old ordered.old
        result faults.new out.new ordered.new }
{
    let mut kinds = [0u8; SMALL];
    let mut args = [0u64; SMALL];
    let mut used = [0u16; SMALL];
    let mut lines = [0u16; STATEMENTS];
    let mut bounds = [0u16; STATEMENTS + 1];
    let far = read_all(
        text,
        &mut kinds,
        &mut args,
        &mut lines,
        &mut bounds,
        &mut *faults,
    );
    match far {
        Err(_) => Err(Refusal::ManyStatements),
        Ok(n) => decide(
            rows, n, faults, out, &mut kinds, &mut args, &mut used, &lines, &bounds, ordered,
        ),
    }
}

// A longer text in a room with so many places for drafts, if these have room: 4, or the verdict on what is read, with
// the faults in a list of the room's own until then.
fn try_in<const DRAFTS: usize>(
    rows: &mut [u8],
    text: &[u8],
    faults: &mut [u8],
    out: &mut [u8],
    ordered: &mut [u16],
) -> Option<Result<Ordered, Refusal>>
    requires { (Taken text.now faults.old) × (DRAFTS ≤ text_bytes) }
    ensures { TriesFor (asks_names (length rows.old)) text.now DRAFTS faults.old
        out.old
        ordered.old result faults.new out.new ordered.new }
{
    let mut kinds = [0u8; DRAFTS];
    let mut args = [0u64; DRAFTS];
    let mut used = [0u16; DRAFTS];
    let mut lines = [0u16; STATEMENTS];
    let mut bounds = [0u16; STATEMENTS + 1];
    let mut list = [0u8; FAULT_ROOM];
    let far = read_all(
        text,
        &mut kinds,
        &mut args,
        &mut lines,
        &mut bounds,
        &mut list,
    );
    match far {
        Err(Short::NoRoom) => None,
        Err(Short::TooMany) => Some(Err(Refusal::ManyStatements)),
        Ok(n) => {
            let end = FAULT_BYTES * n.faults;
            put_bytes(&mut *faults, 0, &list[..end]);
            Some(decide(
                rows, n, faults, out, &mut kinds, &mut args, &mut used, &lines, &bounds, ordered,
            ))
        }
    }
}

// A longer text, in the smaller of two rooms that has places for its drafts; the larger has one for each byte. Called
// from two places, it keeps a frame of its own, so that a small text touches no page of these rooms.
pub(crate) fn in_large_room(
    rows: &mut [u8],
    text: &[u8],
    faults: &mut [u8],
    out: &mut [u8],
    ordered: &mut [u16],
) -> Result<Ordered, Refusal>
    requires { Taken text.now faults.old }
    ensures { DecidesFor (asks_names (length rows.old)) text.now faults.old
        out.old ordered.old
        result faults.new out.new ordered.new }
{
    let tried = try_in::<QUARTER>(&mut *rows, text, &mut *faults, &mut *out, &mut *ordered);
    match tried {
        Some(answer) => answer,
        None => try_in::<TEXT_BYTES>(rows, text, faults, out, ordered).unwrap(),
    }
}
