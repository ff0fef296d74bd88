//! Numbers of 32 bits.
ghost use Rattle.std.specs.Prelude.{IsTrue};
ghost use Rattle.sg_equations.specs.Targets.{IsNarrow};

use sg_names::names::Names;

/// The greatest number of 32 bits.
pub(crate) const MOST: usize = 4_294_967_295;

/// Whether operators and the slots of each left side are numbers of 32 bits. They are, but for tables past all memory.
#[tactic(auto, using(crate::proofs::Places::slots_are, crate::proofs::Places::no_slots))]
pub fn is_narrow(names: &Names) -> bool
    ensures { IsTrue result → IsNarrow names.now }
{
    let ops = names.table().ops.as_slice();
    if ops.len() > MOST {
        return false;
    }
    for operator in ops {
        let attrs = names.attrs(operator.phylum).len();
        let locals = operator.locals.len();
        if locals > MOST || attrs + locals > MOST {
            return false;
        }
    }
    true
}
