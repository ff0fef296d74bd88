//! The visits of all attributes and the positions of all vertices.
ghost use Rattle.std.specs.Prelude.{IfOk};
ghost use Rattle.sg_kinds.specs.Layers.{Extended};
ghost use Rattle.sg_dependencies.specs.Faults.{AreAcyclic};
ghost use Rattle.sg_dependencies.specs.Vertices.{AreInRange};
ghost use Rattle.sg_orders.specs.Extensions.{IsExtension};
ghost use Rattle.sg_orders.specs.Layerings.{layer_in};
ghost use Rattle.sg_orders.specs.Timed.{IsTiming};

use crate::ordering::Extension;
use crate::positions::all_positions;
use crate::visits::all_visits;
use sg_kinds::memory::NoMemory;
use sg_kinds::row::Row;
use sg_kinds::spec::Rules;
use std::alloc::Global;

/// The visit of each attribute of each phylum, counted from 1, and the position of each vertex of each operator.
#[derive(Drop)]
pub struct Timing {
    pub visits: Row<Row<u32>>,
    pub places: Row<Row<u32>>,
}

/// The visits by the layers, and positions that agree with the extended dependencies.
pub fn time(alloc: Global, rules: &Rules, extension: &Extension) -> Result<Timing, NoMemory>
    requires range { AreInRange rules.now }
    requires exact { IsExtension rules.now extension.now }
    requires acyclic { AreAcyclic rules.now (Extended rules.now (layer_in extension.now.layers.items)) }
    ensures { IfOk result (IsTiming rules.now) }
{
    let visits = all_visits(alloc, &extension.layers)?;
    let places = all_positions(alloc, &extension.operators)?;
    Ok(Timing { visits, places })
}
