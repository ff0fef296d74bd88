// The counts of held terms.
ghost use Rattle.std.specs.Prelude.{◌≡◌, ◌<◌, length, Some};
ghost use Rattle.sg_kinds.specs.Specification.{args_of};
ghost use Rattle.sg_kinds.specs.Terms.{Term};
ghost use Rattle.sg_forest.specs.Trees.{IsLive};
ghost use Rattle.sg_groves.specs.Grove.{nodes};
ghost use Rattle.sg_groves.specs.Holds.{Holds};
ghost use Rattle.sg_build.specs.Counted.{AreCounts};

use crate::limits::Counts;
use sg_forest::NodeId;
use sg_kinds::ids::OpId;
use sg_kinds::row::item;
use sg_terms::Terms;

/// How many children a node of an operator has.
pub fn kid_count(terms: &Terms, op: OpId) -> usize
    requires { op < length terms.now.spec.ops }
    ensures { result ≡ length (args_of terms.now.spec.ops op) }
{
    item(terms.spec().ops.as_slice(), op.number as usize)
        .args
        .len()
}

/// The counts of the term that a node holds. It takes no memory.
pub fn counts_below(terms: &Terms, n: NodeId) -> Counts
    requires { IsLive (nodes terms.now) n }
    ensures { (t : Term) → Holds terms.now n t → AreCounts t result }
{
    terms.facts();
    let Some(op) = terms.op(n) else {
        return Counts { nodes: 1, depth: 1 };
    };
    let count = kid_count(terms, op);
    let mut nodes: usize = 1;
    let mut depth: usize = 0;
    for k in 0..count {
        let below = counts_below(terms, terms.kid(n, k));
        nodes = nodes.saturating_add(below.nodes);
        depth = depth.max(below.depth);
    }
    Counts {
        nodes,
        depth: depth.saturating_add(1),
    }
}
