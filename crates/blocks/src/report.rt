// The list of the faults 25 and 26.
ghost use Rattle.blocks.specs.Contract.{AddsFault};

use faults::Fault;

// Writes a fault at a statement's first byte behind the c that stand there, if there is one; how many there are then.
pub fn add_fault(fault: Option<Fault>, line: usize, list: &mut [u8], c: usize) -> usize
    ensures { AddsFault fault line list.old c result list.new }
{
    let Some(fault) = fault else {
        return c;
    };
    sheet::put_fault(list, c, line, fault.into(), line, 1);
    c.saturating_add(1)
}
