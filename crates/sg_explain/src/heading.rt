// What is told of a specification that is refused.
ghost use Rattle.std.specs.Prelude.{◌≡◌, ◌++◌, IfOk, IfSome, OnOk};
ghost use Rattle.sg_explain.specs.Answers.{Explains, heading as heading_text};
ghost use Rattle.sg_place.specs.Places.{IsPlaceIn, place_of};

use crate::advice::write_advice;
use crate::help::help;
use sg_faults::fault_line;
use sg_kinds::fault::SpecFault;
use sg_kinds::memory::NoMemory;
use sg_place::place::place;
use sg_place::shown::{write_shown_place, write_where};
use std::alloc::Global;

// Writes the place of the fault, its line as it is checked, and the text's line with a caret.
fn write_heading(
    alloc: Global,
    out: &mut Vec<u8>,
    file: &[u8],
    bytes: &[u8],
    fault: &SpecFault,
    place: Option<usize>,
) -> Result<(), NoMemory>
    requires there { IfSome place (IsPlaceIn bytes.now) }
    requires place { place ≡ place_of bytes.now fault.now }
    ensures { OnOk result (out.new.items ≡ out.old.items ++ heading_text file.now bytes.now fault.now) }
{
    write_where(alloc, out, file, bytes, place)?;
    out.extend_from_slice(b": ")?;
    out.extend_from_slice(&fault_line(alloc, fault)?)?;
    write_shown_place(alloc, out, bytes, place)
}

/// What is told of a specification that is refused for this fault.
#[tactic(auto, using(crate::proofs::Explained::explains))]
pub fn explained(
    alloc: Global,
    file: &[u8],
    bytes: &[u8],
    fault: &SpecFault,
) -> Result<Vec<u8>, NoMemory>
    ensures { IfOk result (λ v. Explains file.now bytes.now fault.now v.items) }
{
    let place = place(alloc, bytes, fault)?;
    let mut out = Vec::new(alloc);
    write_heading(alloc, &mut out, file, bytes, fault, place)?;
    write_advice(&mut out, fault)?;
    out.extend_from_slice(&help(alloc, bytes, fault, place)?)?;
    Ok(out)
}
