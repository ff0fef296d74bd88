//! The equations of each operator.
ghost use Rattle.std.specs.Prelude.{◌≡◌, ◌<◌, ◌^◌, IfOk};
ghost use Rattle.sg_dependencies.specs.Vertices.{AreInRange};
ghost use Rattle.sg_orders.specs.Owned.{AreOwned};

use crate::grown::{empties, push_at};
use sg_dependencies::operator;
use sg_kinds::ids::RuleId;
use sg_kinds::memory::NoMemory;
use sg_kinds::row::Row;
use sg_kinds::spec::Rules;
use std::alloc::Global;

/// The equations of each operator, in source order.
pub fn owned(alloc: Global, rules: &Rules) -> Result<Vec<Row<RuleId>>, NoMemory>
    requires { AreInRange rules.now }
    ensures { IfOk result (λ v. AreOwned rules.now v.items) }
{
    let mut owned = empties(alloc, rules.ops.len())?;
    for (place, rule) in rules.rules.as_slice().iter().enumerate() {
        push_at(alloc, owned.as_mut_slice(), operator(rule), rule_id(place))?;
    }
    Ok(owned)
}

/// The equation at a place.
fn rule_id(place: usize) -> RuleId
    requires { place < 2 ^ 32 }
    ensures { result ≡ place }
{
    RuleId {
        number: place as u32,
    }
}

/// The place of an equation.
pub fn place_of(id: RuleId) -> usize
    ensures { result ≡ id }
{
    id.number as usize
}
