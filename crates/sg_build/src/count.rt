// How many nodes a term has, and how deep it is.
ghost use Rattle.std.specs.Prelude.{◌≡◌, ◌+◌, min};
ghost use Rattle.sg_kinds.specs.Terms.{nodes_of, nodes_of_all, height_of, height_of_all, kids_of};

use crate::limits::Counts;
use sg_kinds::term::{Term, TermNode};

/// The counts of a term. It takes no memory.
#[cycle(count)]
#[tactic(auto, using(crate::proofs::Counted::height_at))]
pub fn counts(t: &Term) -> Counts
    ensures nodes { result.nodes ≡ min (nodes_of t.now) usize.MAX }
    ensures depth { result.depth ≡ min (height_of t.now) usize.MAX }
{
    match &t.node {
        TermNode::Leaf(..) => Counts { nodes: 1, depth: 1 },
        TermNode::Node(_, _, _, kids) => counts_over(kids),
    }
}

// the counts of a node with these children
#[cycle(count)]
#[tactic(auto, using(crate::proofs::Counted::height_at))]
fn counts_over(kids: &[Term]) -> Counts
    ensures nodes { result.nodes ≡ min (1 + nodes_of_all (kids_of kids.now)) usize.MAX }
    ensures depth { result.depth ≡ min (1 + height_of_all (kids_of kids.now)) usize.MAX }
{
    let mut nodes: usize = 1;
    let mut depth: usize = 0;
    for kid in kids {
        let below = counts(kid);
        nodes = nodes.saturating_add(below.nodes);
        depth = depth.max(below.depth);
    }
    Counts {
        nodes,
        depth: depth.saturating_add(1),
    }
}
