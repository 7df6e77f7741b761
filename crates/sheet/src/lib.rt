// What the statements of a text say, or their faults, which are listed: line (two bytes, low first), code, 0, the line
// of the place and the column (two bytes each, low first).
#![tactic(auto)]

ghost use Rattle.sheet.specs.Contract.{PutsFault};

use bits::reads::wide;
use limits::FAULT_BYTES;

// What the statements of a text say, as arrays: the line and the bound of each, with a bound more for the end, and the
// kinds and the arguments of their drafts.
#[derive(Clone, Copy)]
pub struct Sheet<'a> {
    pub lines: &'a [u16],
    pub bounds: &'a [u16],
    pub kinds: &'a [u8],
    pub args: &'a [u64],
}

// Writes a fault to the list behind so many others, as far as there is room.
pub fn put_fault(list: &mut [u8], count: usize, line: usize, code: u8, place: usize, column: usize)
    ensures { PutsFault list.old count line code place column list.new }
{
    if list.len() / FAULT_BYTES < count {
        return;
    }
    let first = line as u64 % 65536 + 65536 * wide(code);
    let second = place as u64 % 65536 + 65536 * (column as u64 % 65536);
    bits::put_low(
        list,
        FAULT_BYTES * count,
        FAULT_BYTES,
        first + 4294967296 * second,
    );
}
