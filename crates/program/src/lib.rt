// The program of a text, written from the arrays of its sheet, and the count of its records.
#![tactic(auto)]

ghost use Rattle.std.specs.Prelude.{◌≡◌, ◌-◌, ◌≤◌, ◌<◌, length};
ghost use Rattle.std.proofs.lemmas.List.Edits.{sets};
ghost use Rattle.laws.specs.Places.{gather};
ghost use Rattle.program.specs.Written.{field_bytes, head_of, value_at, setting_at, reach, settings_of, step_bytes};
ghost use Rattle.program.specs.Written.{steps_of, unit_steps, ordered_steps, Fills};
ghost use Rattle.program.specs.Contract.{CountsRecords, PutsProgram};

pub mod roster;

use bits::put_eight;
use bits::reads::{byte_at, short_at, word_at};
use drafts::{
    AGAIN, CLOCK, CONSTANT, FETCH, FROM, GIVEN, INITIAL, OWN, PUSH, READ, STORE, home_of,
    records_of,
};
use limits::RECORD_BYTES;
use sheet::Sheet;

// How many records the drafts of these kinds write.
pub fn count_records(kinds: &[u8]) -> usize
    ensures { CountsRecords kinds.now result }
{
    let mut n: usize = 0;
    for &kind in kinds {
        n += records_of(kind);
    }
    n
}

// The number that the first eight bytes of a record are: kind, a byte of 0, slot and line.
fn head_of(kind: u8, slot: u64, line: u64) -> u64
    ensures { result ≡ head_of kind slot line }
{
    kind as u64 + 65536 * (slot % 65536) + 4294967296 * (line % 4294967296)
}

// Writes a record to the front of a part, eight bytes at a time, those for which there is a place.
fn put_fields(kind: u8, slot: u64, line: u64, bits: u64, part: &mut [u8])
    ensures { part.new ≡ sets part.old 0 (field_bytes kind slot line bits) }
{
    put_eight(&mut *part, 0, head_of(kind, slot, line));
    put_eight(part, 8, bits);
}

// Writes a record from a place on, if there is room; the place behind it.
fn put_record(kind: u8, slot: u64, line: u64, bits: u64, out: &mut [u8], w: usize) -> usize
    requires { w ≤ length out.old }
    ensures { Fills (field_bytes kind slot line bits) w result out.old out.new }
{
    if out.len() - w < RECORD_BYTES {
        return w;
    }
    let end = w + RECORD_BYTES;
    put_fields(kind, slot, line, bits, &mut out[w..end]);
    end
}

// The bits of the value behind a constant or an initial.
fn value_at(places: &[u16], sheet: &Sheet, i: usize) -> u64
    requires { i < 65536 }
    ensures { result ≡ value_at places.now sheet.now.kinds.now sheet.now.args.now i }
{
    let v = word_at(sheet.args, i + 1);
    if byte_at(sheet.kinds, i + 1) == FROM {
        return word_at(sheet.args, home_of(places, v) + 1);
    }
    v
}

// Writes the constant or initial at a place, if it is one of this phase.
fn put_setting(
    phase: u8,
    places: &[u16],
    sheet: &Sheet,
    line: u64,
    i: usize,
    out: &mut [u8],
    w: usize,
) -> usize
    requires { (i < 65536) × (w ≤ length out.old) }
    ensures { Fills (setting_at phase places.now sheet.now.kinds.now sheet.now.args.now line i) w result
        out.old out.new }
{
    if byte_at(sheet.kinds, i) == phase {
        let slot = word_at(sheet.args, i);
        let bits = value_at(places, sheet, i);
        return put_record(phase, slot, line, bits, out, w);
    }
    w
}

// The place behind the last draft of a statement that can be a setting of the phase.
fn setting_end(phase: u8, from: usize, end: usize) -> usize
    ensures { (result - from ≡ reach phase (end - from)) × (result ≤ end) }
{
    if phase == INITIAL && from < end {
        from + 1
    } else {
        end
    }
}

// Writes the constants or initials of a statement: none where its first draft is not one.
fn put_settings(
    phase: u8,
    places: &[u16],
    sheet: &Sheet,
    j: usize,
    out: &mut [u8],
    mut w: usize,
) -> usize
    requires { (j < length sheet.now.lines.now) × (w ≤ length out.old) }
    ensures { Fills (settings_of phase places.now sheet.now.lines.now sheet.now.bounds.now sheet.now.kinds.now
        sheet.now.args.now j)
        w result out.old out.new }
{
    let begin = short_at(sheet.bounds, j);
    if byte_at(sheet.kinds, begin) != phase {
        return w;
    }
    let line = short_at(sheet.lines, j) as u64;
    let end = setting_end(phase, begin, short_at(sheet.bounds, j + 1));
    for i in begin..end {
        w = put_setting(phase, places, sheet, line, i, &mut *out, w);
    }
    w
}

// Writes all constants or all initials, in text order.
fn put_all_settings(phase: u8, places: &[u16], sheet: &Sheet, out: &mut [u8], mut w: usize) -> usize
    requires { w ≤ length out.old }
    ensures { Fills (gather
        (settings_of phase places.now sheet.now.lines.now sheet.now.bounds.now sheet.now.kinds.now
        sheet.now.args.now)
        (length sheet.now.lines.now) 0)
        w result out.old out.new }
{
    for j in 0..sheet.lines.len() {
        w = put_settings(phase, places, sheet, j, &mut *out, w);
    }
    w
}

// Writes the record of a draft of an expression, or of a store or derivative.
fn put_step(kind: u8, arg: u64, line: u64, out: &mut [u8], w: usize) -> usize
    requires { w ≤ length out.old }
    ensures { Fills (step_bytes kind arg line) w result out.old out.new }
{
    match kind {
        PUSH => put_record(PUSH, 0, line, arg, out, w),
        FETCH..=AGAIN => put_record(kind, arg, line, 0, out, w),
        CLOCK => put_record(FETCH, 0, line, 0, out, w),
        GIVEN..=OWN => put_record(STORE, arg, line, 0, out, w),
        READ => put_record(FETCH, arg, line, 0, out, w),
        _ => w,
    }
}

// Writes the steps of a statement.
fn put_steps(sheet: &Sheet, j: usize, out: &mut [u8], mut w: usize) -> usize
    requires { (j < 65536) × (w ≤ length out.old) }
    ensures { Fills (steps_of sheet.now.lines.now sheet.now.bounds.now sheet.now.kinds.now sheet.now.args.now j)
        w result out.old out.new }
{
    let line = short_at(sheet.lines, j) as u64;
    let begin = short_at(sheet.bounds, j);
    let end = short_at(sheet.bounds, j + 1);
    for i in begin..end {
        let kind = byte_at(sheet.kinds, i);
        w = put_step(kind, word_at(sheet.args, i), line, &mut *out, w);
    }
    w
}

// Writes the steps of the statements of a unit.
fn put_unit(firsts: &[u16], sheet: &Sheet, j: usize, out: &mut [u8], mut w: usize) -> usize
    requires { (j < 65536) × (w ≤ length out.old) }
    ensures { Fills (unit_steps firsts.now sheet.now.lines.now sheet.now.bounds.now sheet.now.kinds.now
        sheet.now.args.now j)
        w result out.old out.new }
{
    let begin = short_at(firsts, j);
    let end = short_at(firsts, j + 1);
    for i in begin..end {
        w = put_steps(sheet, i, &mut *out, w);
    }
    w
}

// Writes the ordered units.
fn put_ordered(
    equated: &[u16],
    firsts: &[u16],
    sheet: &Sheet,
    order: &[u16],
    out: &mut [u8],
    mut w: usize,
) -> usize
    requires { w ≤ length out.old }
    ensures { Fills (ordered_steps equated.now firsts.now sheet.now.lines.now sheet.now.bounds.now
        sheet.now.kinds.now sheet.now.args.now order.now)
        w result out.old out.new }
{
    for &place in order {
        let j = short_at(equated, place as usize);
        w = put_unit(firsts, sheet, j, &mut *out, w);
    }
    w
}

// Writes the program to the front of the lent bytes, as many records as there is room for; how many bytes that is.
pub fn put_program(
    places: &[u16],
    equated: &[u16],
    firsts: &[u16],
    sheet: &Sheet,
    order: &[u16],
    out: &mut [u8],
) -> usize
    ensures { PutsProgram places.now equated.now firsts.now
        sheet.now.lines.now sheet.now.bounds.now sheet.now.kinds.now sheet.now.args.now order.now
        out.old result out.new }
{
    let constants = put_all_settings(CONSTANT, places, sheet, &mut *out, 0);
    let settings = put_all_settings(INITIAL, places, sheet, &mut *out, constants);
    put_ordered(equated, firsts, sheet, order, out, settings)
}
