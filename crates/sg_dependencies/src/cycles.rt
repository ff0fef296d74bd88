//! The first cycle of several relations.
ghost use Rattle.std.specs.Prelude.{ℕ, ◌<◌, length, IfOk, IfNone, IfSome};
ghost use Rattle.sg_sets.specs.Cycles.{HasNoCycle};
ghost use Rattle.sg_sets.specs.Rows.{Holds};
ghost use Rattle.sg_dependencies.specs.Induced.{relation_at};
ghost use Rattle.sg_dependencies.specs.Rounds.{IsFirstCycle};

use sg_kinds::memory::NoMemory;
use sg_kinds::row::Row;
use sg_sets::Relation;
use std::alloc::Global;

/// A relation's place, and its cycle.
#[derive(Drop)]
pub struct Found {
    pub place: usize,
    pub cycle: Row<usize>,
}

/// The first of the relations that has a cycle.
pub fn first_cycle(alloc: Global, relations: &[Relation]) -> Result<Option<Found>, NoMemory>
    ensures none { IfOk result (λ found. IfNone found ((p : ℕ) → p < length relations.now
        → HasNoCycle (Holds (relation_at relations.now p)))) }
    ensures some { IfOk result (λ found. IfSome found (λ x. IsFirstCycle relations.now x.place x.cycle)) }
{
    for (place, relation) in relations.iter().enumerate() {
        if let Some(cycle) = relation.cycle(alloc)? {
            let cycle = Row::new(cycle);
            return Ok(Some(Found { place, cycle }));
        }
    }
    Ok(None)
}
