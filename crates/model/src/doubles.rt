// Fault 21: a name that is already defined by an earlier statement, or earlier in the same.
ghost use Rattle.std.specs.Prelude.{◌≡◌, ◌≤◌, length};
ghost use Rattle.limits.specs.Limits.{most_statements};
ghost use Rattle.blocks.specs.Working.{Reported};
ghost use Rattle.model.specs.Working.{Rises, before, repeats, repeated};

use super::hints::Names;
use bits::reads::short_at;
use blocks::report::add_fault;
use faults::Fault;

// How many of the places in front stand before an end; those before `from` are known to.
fn passed(places: &[u16], end: usize, from: usize) -> usize
    requires { from ≤ before end places.now }
    ensures { result ≡ before end places.now }
{
    for d in from..places.len() {
        if end <= places[d] as usize {
            return d;
        }
    }
    places.len()
}

// Whether one of the keys from a place on, before an end, stands in an earlier place.
fn is_repeated(names: &Names, from: usize, end: usize) -> bool
    requires { end ≤ length names.now.keys.now }
    ensures { result ≡ repeats names.now.keys.now from end }
{
    for d in from..end {
        if names.find(names.keys[d]) < d {
            return true;
        }
    }
    false
}

// Writes the faults 21 to the front of the list; how many there are. Where no key stands twice, there is none.
pub(crate) fn report_doubles(
    lines: &[u16],
    bounds: &[u16],
    names: &Names,
    places: &[u16],
    faults: &mut [u8],
) -> usize
    requires { (length places.now ≤ length names.now.keys.now) × Rises bounds.now (length lines.now)
        × (length lines.now ≤ most_statements) }
    ensures { Reported (repeated lines.now bounds.now names.now.keys.now
        places.now) 0 result
        faults.old faults.new }
{
    if !is_repeated(names, 0, places.len()) {
        return 0;
    }
    let mut d = passed(places, short_at(bounds, 0), 0);
    let mut count = 0;
    for (j, &line) in lines.iter().enumerate() {
        let end = passed(places, short_at(bounds, j + 1), d);
        let fault = is_repeated(names, d, end).then_some(Fault::Redefined);
        count = add_fault(fault, line as usize, &mut *faults, count);
        d = end;
    }
    count
}
