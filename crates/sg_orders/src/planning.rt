//! The plans of ordered equations.
ghost use Rattle.std.specs.Prelude.{◌≡◌, IfOk};
ghost use Rattle.sg_kinds.specs.ValidPlans.{AreValid};
ghost use Rattle.sg_dependencies.specs.Frames.{frames_of};
ghost use Rattle.sg_dependencies.specs.Proper.{AreProper};
ghost use Rattle.sg_dependencies.specs.Vertices.{AreInRange};
ghost use Rattle.sg_orders.specs.Timed.{IsTiming};

use crate::owning::owned;
use crate::steps::{Scene, behind, steps};
use crate::timing::Timing;
use sg_dependencies::Frame;
use sg_kinds::memory::NoMemory;
use sg_kinds::plans::Plans;
use sg_kinds::row::Row;
use sg_kinds::spec::Rules;
use std::alloc::Global;

/// The plans with these visits and positions, and the steps of each operator.
pub fn plan(
    alloc: Global,
    rules: &Rules,
    frames: &[Frame],
    timing: Timing,
) -> Result<Plans, NoMemory>
    requires range { AreInRange rules.now }
    requires proper { AreProper rules.now }
    requires frames { frames.now ≡ frames_of rules.now }
    requires timing { IsTiming rules.now timing }
    ensures { IfOk result (AreValid rules.now) }
{
    let owned = owned(alloc, rules)?;
    let mut all_steps = Vec::new(alloc);
    for (op, frame) in frames.iter().enumerate() {
        let own = owned[op].as_slice();
        let scene = Scene {
            rules,
            timing: &timing,
            frame,
            op,
            end: behind(&timing, op),
        };
        all_steps.push(steps(alloc, &scene, own)?)?;
    }
    Ok(Plans {
        visits: timing.visits,
        places: timing.places,
        steps: Row::new(all_steps),
    })
}
