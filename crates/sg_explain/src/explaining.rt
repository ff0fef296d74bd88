// The explanation of a specification.
ghost use Rattle.std.specs.Prelude.{◌≢◌, Bool, IfOk};
ghost use Rattle.sg_load.specs.Only.{IsTheVerdict};
ghost use Rattle.sg_load.specs.Verdict.Verdict.{Accepted, Refused};
ghost use Rattle.sg_explain.specs.Answers.{IsTold};

use crate::Ending;
use crate::accepted::told_with;
use crate::heading::explained;
use sg_kinds::fault::SpecFault;
use sg_kinds::memory::NoMemory;
use sg_kinds::text::Text;
use sg_load::{Loaded, load};
use std::alloc::Global;

/// What is told of a specification, and with which ending.
#[derive(Drop)]
pub struct Explanation {
    pub text: Text,
    pub ending: Ending,
}

#[tactic(auto, using(crate::proofs::Explained::told_refused))]
fn refused(
    alloc: Global,
    file: &[u8],
    bytes: &[u8],
    fault: &SpecFault,
) -> Result<Explanation, NoMemory>
    requires { fault.now ≢ SpecFault.NoMemory → IsTheVerdict bytes.now (Refused fault.now) }
    ensures { IfOk result (λ e. (planned : Bool) → IsTold planned file.now bytes.now e) }
{
    if matches!(fault, SpecFault::NoMemory) {
        return Err(NoMemory);
    }
    Ok(Explanation {
        text: Text::new(explained(alloc, file, bytes, fault)?),
        ending: Ending::SpecFault,
    })
}

#[tactic(auto, using(crate::proofs::Explained::told_accepted))]
fn accepted(
    alloc: Global,
    file: &[u8],
    bytes: &[u8],
    loaded: &Loaded,
    planned: bool,
) -> Result<Explanation, NoMemory>
    requires { IsTheVerdict bytes.now (Accepted loaded.now.spec) }
    ensures { IfOk result (IsTold planned file.now bytes.now) }
{
    Ok(Explanation {
        text: Text::new(told_with(alloc, file, bytes, loaded, planned)?),
        ending: Ending::Done,
    })
}

/// Explains the specification of these bytes, which are those of the file of that name; of one that is accepted tells
/// the plan too, if it is wanted.
pub fn explain(
    alloc: Global,
    file: &[u8],
    bytes: &[u8],
    planned: bool,
) -> Result<Explanation, NoMemory>
    // By the one verdict on the bytes: of a fault its place, the line as which it is checked, the text's line with a
    // caret, and a sentence of what helps; or `ok`, all that is of no use, and the plan if it is wanted.
    ensures told { IfOk result (IsTold planned file.now bytes.now) }
{
    match load(alloc, bytes) {
        Ok(loaded) => accepted(alloc, file, bytes, &loaded, planned),
        Err(fault) => refused(alloc, file, bytes, &fault),
    }
}
