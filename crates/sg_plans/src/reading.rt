//! What plans say of an operator, read where it stands.
ghost use Rattle.std.specs.Prelude.{◌≡◌, ◌-◌, ◌<◌, ◌≤◌, length, slice_index, MatchOption};
ghost use Rattle.sg_kinds.specs.Specification.{phylum_of, rules_of};
ghost use Rattle.sg_kinds.specs.ValidPlans.{AreValid};
ghost use Rattle.sg_kinds.specs.Visits.{row_at, visit_count as visit_count_of};
ghost use Rattle.sg_dependencies.specs.Vertices.{AreInRange};
ghost use Rattle.sg_plans.specs.Stepping.{steps_of};

use sg_kinds::ids::{OpId, PhylumId};
use sg_kinds::plans::{PlanStep, Plans};
use sg_kinds::row::item;
use sg_kinds::spec::Spec;

/// How many visits a node of an operator has, as all of its phylum have: at least one.
pub fn visit_count(spec: &Spec, plans: &Plans, op: OpId) -> u32
    requires range { AreInRange (rules_of spec.now) }
    requires valid { AreValid (rules_of spec.now) plans.now }
    requires there { op < length spec.now.ops }
    ensures { MatchOption (phylum_of spec.now.ops op) ⊥ (λ X. result ≡ visit_count_of plans.now X) }
{
    item(plans.steps.as_slice(), op.number as usize).len() as u32
}

/// What a visit of a node of an operator does, visits counted from 1.
pub fn steps(plans: &Plans, op: OpId, visit: u32) -> &[PlanStep]
    requires low { 1 ≤ visit }
    requires there { visit - 1 < length (row_at plans.now.steps op) }
    ensures { result.now ≡ steps_of plans.now op visit }
{
    let visits = item(plans.steps.as_slice(), op.number as usize);
    item(visits.as_slice(), visit as usize - 1).as_slice()
}

/// The visit of an attribute of a phylum, counted from 1.
pub fn visit_of(plans: &Plans, phylum: PhylumId, slot: u32) -> u32
    requires { slot < length (row_at plans.now.visits phylum) }
    ensures { result ≡ slice_index (row_at plans.now.visits phylum) slot }
{
    item(plans.visits.as_slice(), phylum.number as usize).as_slice()[slot as usize]
}
