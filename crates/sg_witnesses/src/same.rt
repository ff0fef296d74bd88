// Two faults with one line.
ghost use Rattle.std.specs.Prelude.{◌≡◌, IfOk, IsTrue, OnOk};
ghost use Rattle.sg_faults.specs.FaultLine.{fault_line as line_of};

use sg_faults::fault_line;
use sg_kinds::fault::SpecFault;
use sg_kinds::memory::NoMemory;
use std::alloc::Global;

// Whether two faults have the same line.
fn is_same(alloc: Global, one: &SpecFault, other: &SpecFault) -> Result<bool, NoMemory>
    ensures { IfOk result (λ same. IsTrue same → line_of one.now ≡ line_of other.now) }
{
    let line = fault_line(alloc, one)?;
    let wanted = fault_line(alloc, other)?;
    Ok(line.as_slice() == wanted.as_slice())
}

/// Ends with an error where two faults have different lines.
pub fn expect_same(alloc: Global, one: &SpecFault, other: &SpecFault) -> Result<(), NoMemory>
    ensures { OnOk result (line_of one.now ≡ line_of other.now) }
{
    let same = is_same(alloc, one, other)?;
    if same { Ok(()) } else { Err(NoMemory) }
}
