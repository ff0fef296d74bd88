//! The ordering test.
ghost use Rattle.std.specs.Prelude.{◌≡◌, IfOk, OnOk, IfErr};
ghost use Rattle.sg_dependencies.specs.Faults.{AreAcyclic, IsFault};
ghost use Rattle.sg_dependencies.specs.Frames.{frames_of};
ghost use Rattle.sg_dependencies.specs.Vertices.{AreInRange};
ghost use Rattle.sg_dependencies.specs.Proper.{AreProper};
ghost use Rattle.sg_dependencies.specs.declared.fault.OrderFault.TheVariants as fault;
ghost use Rattle.sg_kinds.specs.Layers.{Extended};
ghost use Rattle.sg_dependencies.specs.Ordered.{IsOrdered};
ghost use Rattle.sg_kinds.specs.ValidPlans.{AreValid};
ghost use Rattle.sg_orders.specs.Extensions.{IsExtension};
ghost use Rattle.sg_orders.specs.Layerings.{layer_in};

use crate::extension::{all_layers, extend};
use crate::planning::plan;
use crate::timing::time;
use sg_dependencies::{Frame, OrderFault, first_cycle, frames, induce, operator_id};
use sg_kinds::plans::Plans;
use sg_kinds::row::Row;
use sg_kinds::spec::Rules;
use sg_sets::Relation;
use std::alloc::Global;

/// The layers of each phylum's attributes, and the extended dependencies of each operator.
#[derive(Drop)]
pub struct Extension {
    pub layers: Vec<Row<usize>>,
    pub operators: Vec<Relation>,
}

/// Returns plans where the equations are ordered, else the first operator that has a cycle in its direct, else in its
/// induced, else in its extended dependencies, with that cycle.
///
/// The test is that of Kastens, "Ordered attributed grammars" (1980), with layers that are as large as they can be.
pub fn order(alloc: Global, rules: &Rules) -> Result<Plans, OrderFault>
    requires range { AreInRange rules.now }
    requires proper { AreProper rules.now }
    ensures ordered { OnOk result (IsOrdered rules.now) }
    ensures valid { IfOk result (AreValid rules.now) }
    ensures fault { IfErr result (IsFault rules.now) }
    ensures refused { IfErr result (λ e. (e ≡ fault.NoMemory → ⊥) → ¬ (IsOrdered rules.now)) }
{
    let frames = frames(alloc, rules)?;
    let extension = test(alloc, rules, &frames)?;
    let timing = time(alloc, rules, &extension)?;
    let plans = plan(alloc, rules, &frames, timing)?;
    Ok(plans)
}

/// Returns the extended dependencies, or the first operator that has a cycle in the direct, in the induced or in the
/// extended dependencies.
pub fn test(alloc: Global, rules: &Rules, frames: &[Frame]) -> Result<Extension, OrderFault>
    requires range { AreInRange rules.now }
    requires frames { frames.now ≡ frames_of rules.now }
    ensures exact { IfOk result (IsExtension rules.now) }
    ensures acyclic { IfOk result (λ e. AreAcyclic rules.now (Extended rules.now (layer_in e.layers.items))) }
    ensures fault { IfErr result (IsFault rules.now) }
{
    let dependencies = induce(alloc, rules, frames)?;
    let layers = all_layers(alloc, rules, &dependencies)?;
    let mut operators = dependencies.operators;
    extend(alloc, frames, &layers, operators.as_mut_slice())?;
    if let Some(found) = first_cycle(alloc, &operators)? {
        return Err(OrderFault::Ordered(operator_id(found.place), found.cycle));
    }
    Ok(Extension { layers, operators })
}
