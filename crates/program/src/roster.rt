// The roster of a text, written from the arrays of its sheet before names are resolved.
ghost use Rattle.std.specs.Prelude.{◌≡◌, ◌+◌, ◌*◌, ◌≤◌, ◌<◌, length};
ghost use Rattle.std.proofs.lemmas.List.Edits.{sets};
ghost use Rattle.limits.specs.Limits.{roster_bytes};
ghost use Rattle.laws.specs.Places.{only_if};
ghost use Rattle.drafts.specs.Kinds.{defines};
ghost use Rattle.program.specs.Roster.{entry, entry_bytes};
ghost use Rattle.program.specs.Written.{what_kind, entries_of, Enters};
ghost use Rattle.program.specs.Contract.{PutsRoster};

use super::head_of;
use bits::put_eight;
use bits::reads::{byte_at, short_at, word_at};
use drafts::{CONSTANT, INITIAL, OWN, is_defining};
use limits::ROSTER_BYTES;
use sheet::Sheet;

// What a name is, one byte.
const WHAT_CONSTANT: u8 = 1;

const WHAT_STATE: u8 = 2;

const WHAT_ASSIGNED: u8 = 3;

const WHAT_HIDDEN: u8 = 4;

// What a draft of this kind that defines its name says that it is.
fn what_kind(kind: u8) -> u8
    ensures { result ≡ what_kind kind }
{
    match kind {
        CONSTANT => WHAT_CONSTANT,
        INITIAL => WHAT_STATE,
        OWN => WHAT_HIDDEN,
        _ => WHAT_ASSIGNED,
    }
}

// Writes an entry behind n others, eight bytes at a time.
fn put_entry(key: u64, what: u8, line: u64, out: &mut [u8], n: usize)
    requires { roster_bytes * (n + 1) ≤ length out.old }
    ensures { out.new ≡ sets out.old (roster_bytes * n)
        (entry_bytes (n + 1) (entry key what line)) }
{
    let at = ROSTER_BYTES * n;
    let slot = (n + 1) as u64;
    put_eight(&mut *out, at, key);
    put_eight(out, at + 8, head_of(what, slot, line));
}

// Writes the entry of a draft behind n others, if it defines a name and there is room; how many there are then.
fn enter(kind: u8, key: u64, line: u64, out: &mut [u8], n: usize) -> usize
    ensures { Enters (only_if (defines kind) (entry key (what_kind kind) line)) n result out.old
        out.new }
{
    if is_defining(kind) && n < out.len() / ROSTER_BYTES {
        put_entry(key, what_kind(kind), line, out, n);
        return n + 1;
    }
    n
}

// Writes the entries of a statement.
fn enter_statement(sheet: &Sheet, j: usize, out: &mut [u8], mut n: usize) -> usize
    requires { j < length sheet.now.lines.now }
    ensures { Enters (entries_of sheet.now.lines.now sheet.now.bounds.now sheet.now.kinds.now
        sheet.now.args.now j) n result out.old out.new }
{
    let line = short_at(sheet.lines, j) as u64;
    let begin = short_at(sheet.bounds, j);
    let end = short_at(sheet.bounds, j + 1);
    for i in begin..end {
        let kind = byte_at(sheet.kinds, i);
        n = enter(kind, word_at(sheet.args, i), line, &mut *out, n);
    }
    n
}

// Writes the roster to the front of the lent bytes, as many entries as there is room for; how many these are.
pub fn put_roster(sheet: &Sheet, out: &mut [u8]) -> usize
    ensures { PutsRoster sheet.now.lines.now sheet.now.bounds.now sheet.now.kinds.now sheet.now.args.now
        out.old result out.new }
{
    let mut n: usize = 0;
    for j in 0..sheet.lines.len() {
        n = enter_statement(sheet, j, &mut *out, n);
    }
    n
}
