//! The search for a chain. What it finds is tested by its caller, so nothing is claimed of it here.
ghost use Rattle.std.specs.Prelude.{◌≡◌};
ghost use Rattle.sg_unenclosed.specs.Unenclosed.{is_listed as is_listed_in};

use sg_kinds::ids::{OpId, PhylumId};
use sg_kinds::memory::NoMemory;
use sg_kinds::spec::{Far, Operator};
use std::alloc::Global;

/// An operator, and the phylum of the argument at which the next one stands.
#[derive(Clone, Copy, PartialEq, Eq)]
pub struct Step {
    pub op: OpId,
    pub to: PhylumId,
}

// The operator below which a phylum was met first, and the phylum of this operator.
#[derive(Clone, Copy, PartialEq, Eq)]
struct Above {
    op: OpId,
    phylum: PhylumId,
}

/// Whether a list has a phylum.
pub fn is_listed(list: &[Far], phylum: PhylumId) -> bool
    ensures { result ≡ is_listed_in list.now phylum }
{
    list.iter().any(|far| far.phylum == phylum)
}

// Puts a phylum last that was not met yet.
fn meet(
    met: &mut [Option<Above>],
    waiting: &mut Vec<PhylumId>,
    phylum: PhylumId,
    above: Above,
) -> Result<(), NoMemory> {
    let k = phylum.number as usize;
    if k < met.len() && met[k].is_none() {
        met[k] = Some(above);
        waiting.push(phylum)?;
    }
    Ok(())
}

// Puts the arguments of the operators of a phylum last that were not met yet.
fn pass(
    ops: &[Operator],
    met: &mut [Option<Above>],
    waiting: &mut Vec<PhylumId>,
    phylum: PhylumId,
) -> Result<(), NoMemory> {
    let mut number = 0u32;
    for operator in ops {
        if operator.phylum == phylum {
            let op = OpId { number };
            for argument in operator.args.as_slice() {
                meet(met, waiting, *argument, Above { op, phylum })?;
            }
        }
        number = number.saturating_add(1);
    }
    Ok(())
}

// Below which operator each phylum is met first from the root on, past the operators of no listed phylum.
fn met(
    alloc: Global,
    count: usize,
    ops: &[Operator],
    list: &[Far],
    root: PhylumId,
) -> Result<Vec<Option<Above>>, NoMemory> {
    let mut met = vec![in alloc; None; count]?;
    let mut waiting = Vec::new(alloc);
    waiting.push(root)?;
    for turn in 0..count {
        if turn < waiting.len() {
            let phylum = waiting[turn];
            if !is_listed(list, phylum) {
                pass(ops, &mut met, &mut waiting, phylum)?;
            }
        }
    }
    Ok(met)
}

fn operator_above(met: &[Option<Above>], phylum: PhylumId) -> Option<Above> {
    match met.get(phylum.number as usize) {
        Some(found) => *found,
        None => None,
    }
}

/// The steps from the root to a phylum past the operators of no listed phylum, as few as there are.
pub fn steps(
    alloc: Global,
    count: usize,
    ops: &[Operator],
    list: &[Far],
    root: PhylumId,
    phylum: PhylumId,
) -> Result<Vec<Step>, NoMemory> {
    let met = met(alloc, count, ops, list, root)?;
    let mut steps = Vec::new(alloc);
    let mut to = phylum;
    for _turn in 0..count {
        if to != root
            && let Some(above) = operator_above(&met, to)
        {
            steps.push(Step { op: above.op, to })?;
            to = above.phylum;
        }
    }
    steps.reverse();
    Ok(steps)
}
