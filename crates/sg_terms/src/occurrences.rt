// The nodes and the numbers at the occurrences of a node's operator.
ghost use Rattle.std.specs.Prelude.{◌≡◌, Some, All, IsSome, OnOk, map};
ghost use Rattle.sg_terms.specs.Occurrences.{AreTrees, node_there, number_in, number_for};

use sg_forest::{Forest, NodeId};
use sg_groves::{Kind, Part};
use sg_kinds::ids::ValueId;
use sg_kinds::memory::NoMemory;
use sg_kinds::spec::Occurrence;

/// The node at an occurrence of a node's operator.
pub fn there(trees: &Forest<Kind, Part>, n: NodeId, at: u32) -> NodeId
    requires there { IsSome (node_there trees.now n at) }
    requires forest { AreTrees trees.now }
    ensures { node_there trees.now n at ≡ Some result }
{
    if at == 0 {
        n
    } else {
        trees.kid(n, at as usize - 1)
    }
}

/// The number that a node has in a slot.
pub fn number(trees: &Forest<Kind, Part>, n: NodeId, slot: u32) -> ValueId
    requires { IsSome (number_in trees.now n slot) }
    ensures { number_in trees.now n slot ≡ Some result }
{
    trees.part(n).values.at(slot)
}

/// Writes the numbers that are stored for occurrences, in their order, into an empty buffer.
pub fn gather(
    trees: &Forest<Kind, Part>,
    n: NodeId,
    wanted: &[Occurrence],
    numbers: &mut Vec<ValueId>,
) -> Result<(), NoMemory>
    requires there { All (λ o. IsSome (number_for trees.now n o)) wanted.now }
    requires forest { AreTrees trees.now }
    ensures { OnOk result (map Some numbers.new.items ≡ map (number_for trees.now n) wanted.now) }
{
    numbers.clear();
    for o in wanted {
        let m = there(trees, n, o.at);
        numbers.push(number(trees, m, o.slot))?;
    }
    Ok(())
}
