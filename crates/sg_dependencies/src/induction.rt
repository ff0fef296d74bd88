//! All dependencies, or the first cycle.
ghost use Rattle.std.specs.Prelude.{◌≡◌, ℕ, ◌<◌, ◌^◌, length, map, IfOk, OnOk, IfErr};
ghost use Rattle.sg_kinds.specs.declared.spec.Phylum.{Phylum as IsPhylum};
ghost use Rattle.sg_kinds.specs.Dependencies.{Direct, InOperator};
ghost use Rattle.sg_dependencies.specs.Faults.{AreAcyclic, IsFault};
ghost use Rattle.sg_dependencies.specs.Frames.{frames_of};
ghost use Rattle.sg_dependencies.specs.Induced.{relation_at, AreInduced};
ghost use Rattle.sg_dependencies.specs.Rounds.{no_pairs};
ghost use Rattle.sg_dependencies.specs.Vertices.{AreInRange, AreRowsOf};

use crate::cycles::first_cycle;
use crate::dependencies::Dependencies;
use crate::equations::direct;
use crate::fault::OrderFault;
use crate::frame::Frame;
use crate::rounds::saturate;
use sg_kinds::ids::OpId;
use sg_kinds::memory::NoMemory;
use sg_kinds::spec::Rules;
use sg_sets::Relation;
use std::alloc::Global;

/// Returns the dependencies that the equations induce, or the first operator that has a cycle in what its equations
/// name and define, else the first that has one in its induced dependencies.
///
/// The dependencies are induced by the rules of Kastens, "Ordered attributed grammars" (1980), from the direct ones.
pub fn induce(alloc: Global, rules: &Rules, frames: &[Frame]) -> Result<Dependencies, OrderFault>
    requires range { AreInRange rules.now }
    requires frames { frames.now ≡ frames_of rules.now }
    ensures exact { IfOk result (AreInduced rules.now) }
    ensures acyclic { OnOk result (AreAcyclic rules.now (InOperator rules.now)) }
    ensures fault { IfErr result (IsFault rules.now) }
{
    let operators = direct(alloc, rules, frames)?;
    if let Some(found) = first_cycle(alloc, &operators)? {
        return Err(OrderFault::Direct(operator_id(found.place), found.cycle));
    }
    let induced = closed(alloc, rules, frames, operators)?;
    if let Some(found) = first_cycle(alloc, &induced.operators)? {
        return Err(OrderFault::Induced(operator_id(found.place), found.cycle));
    }
    Ok(induced)
}

/// The operator at a place.
pub fn operator_id(place: usize) -> OpId
    requires { place < 2 ^ 32 }
    ensures { result ≡ place }
{
    OpId {
        number: place as u32,
    }
}

/// The dependencies that the direct ones induce.
fn closed(
    alloc: Global,
    rules: &Rules,
    frames: &[Frame],
    mut operators: Vec<Relation>,
) -> Result<Dependencies, NoMemory>
    requires rules { AreInRange rules.now }
    requires frames { frames.now ≡ frames_of rules.now }
    requires count { length operators.items ≡ length rules.now.ops }
    requires direct { (p : ℕ) → p < length rules.now.ops
        → AreRowsOf rules.now p (Direct rules.now p) (relation_at operators.items p) }
    ensures { IfOk result (AreInduced rules.now) }
{
    let mut phyla = attributes(alloc, rules)?;
    saturate(
        alloc,
        frames,
        operators.as_mut_slice(),
        phyla.as_mut_slice(),
    )?;
    Ok(Dependencies { operators, phyla })
}

/// For each phylum the relation that relates none of its attributes.
fn attributes(alloc: Global, rules: &Rules) -> Result<Vec<Relation>, NoMemory>
    ensures { IfOk result (λ v. v.items ≡ map (λ (x : IsPhylum). no_pairs (length x.attrs)) rules.now.phyla) }
{
    let mut relations = Vec::new(alloc);
    for phylum in rules.phyla.as_slice() {
        relations.push(Relation::new(alloc, phylum.attrs.len())?)?;
    }
    Ok(relations)
}
