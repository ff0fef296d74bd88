// The whole plan.
ghost use Rattle.std.specs.Prelude.{◌≡◌, ◌++◌, OnOk};
ghost use Rattle.sg_plan_text.specs.Plan.{plan_text};

use crate::entries::write_entries;
use crate::steps::write_operators;
use crate::visits::write_phyla;
use sg_kinds::decimal::write_number;
use sg_kinds::memory::NoMemory;
use sg_kinds::plans::Plans;
use sg_kinds::spec::Spec;
use std::alloc::Global;

/// Writes how a specification with these plans is evaluated, and how it is parsed by so many states: a line for each
/// visit of each phylum with operators, and of each operator with its steps, for each entry, and for the states.
#[tactic(auto, unfolding(crate::specs::Plan::plan_text))]
pub fn write_plan(
    alloc: Global,
    out: &mut Vec<u8>,
    spec: &Spec,
    plans: &Plans,
    states: usize,
) -> Result<(), NoMemory>
    ensures { OnOk result (out.new.items ≡ out.old.items ++ plan_text spec.now plans.now states) }
{
    write_phyla(alloc, out, plans, spec.phyla.as_slice())?;
    write_operators(alloc, out, spec, plans)?;
    write_entries(out, spec)?;
    write_number(alloc, out, states as u64)?;
    out.extend_from_slice(b" states\n")?;
    Ok(())
}
