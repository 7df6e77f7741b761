// The units of the statements: their lines, bounds and first statements.
ghost use Rattle.std.specs.Prelude.{◌≡◌, true, ◌+◌, ◌≤◌, ◌<◌, length};
ghost use Rattle.limits.specs.Limits.{most_statements};
ghost use Rattle.blocks.specs.Places.{bracket_kind, starts_unit, inside_next};
ghost use Rattle.blocks.specs.Working.{AllStand, UnitPut, Listed, SameLent};

use super::brackets::leading_kind;
use bits::put;
use drafts::{ENDING, OUTPUT};
use sheet::Sheet;

// Whether a statement begins a unit, by the kind of its first draft and whether it stands inside a block.
fn starts_unit(kind: u8, inside: bool) -> bool
    ensures { result ≡ starts_unit inside (bracket_kind kind) }
{
    match kind {
        OUTPUT => true,
        ENDING => false,
        _ => !inside,
    }
}

// Whether the next statement stands inside a block.
fn is_inside(kind: u8, inside: bool) -> bool
    ensures { result ≡ inside_next inside (bracket_kind kind) }
{
    match kind {
        OUTPUT => true,
        ENDING => false,
        _ => inside,
    }
}

// The arrays that are lent for the units: their lines, their bounds and their first statements.
#[derive(Drop)]
pub(crate) struct Units<'a> {
    pub(crate) lines: &'a mut [u16],
    pub(crate) bounds: &'a mut [u16],
    pub(crate) firsts: &'a mut [u16],
}

impl Units<'_> {
    // Writes a unit behind the c that stand there.
    fn put(&mut self, c: usize, line: u16, bound: u16, first: u16)
        ensures same { SameLent self.old self.new }
        ensures put { UnitPut true line bound first c (c + 1) self.old.lines.now self.new.lines.now
            self.old.bounds.now self.new.bounds.now self.old.firsts.now self.new.firsts.now }
    {
        put(&mut *self.lines, c, line);
        put(&mut *self.bounds, c, bound);
        put(&mut *self.firsts, c, first);
    }
}

// Writes the lines, the bounds and the first statements of the units, and behind these two where the last one ends; how
// many there are.
pub(crate) fn list_units(s: &Sheet, units: &mut Units) -> usize
    requires { (length s.now.lines.now ≤ most_statements)
        × (length s.now.lines.now < length s.now.bounds.now)
        × AllStand (length s.now.lines.now) s.now.bounds.now s.now.kinds.now }
    ensures same { SameLent units.old units.new }
    ensures listed { Listed s.now.lines.now s.now.bounds.now s.now.kinds.now result
        units.old.lines.now units.new.lines.now units.old.bounds.now units.new.bounds.now
        units.old.firsts.now units.new.firsts.now }
{
    let n = s.lines.len();
    let mut inside = false;
    let mut count = 0;
    for (j, &line) in s.lines.iter().enumerate() {
        let kind = leading_kind(s, j);
        if starts_unit(kind, inside) {
            units.put(count, line, s.bounds[j], j as u16);
            count += 1;
        }
        inside = is_inside(kind, inside);
    }
    put(&mut *units.bounds, count, s.bounds[n]);
    put(&mut *units.firsts, count, n as u16);
    count
}
