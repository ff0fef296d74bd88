// The counts of a term in which another subterm stands, without it.
ghost use Rattle.std.specs.Prelude.{◌≡◌, ◌↔◌, length, min, IsOk, IfOk, IfErr};
ghost use Rattle.sg_kinds.specs.Places.{Place, put, with_child};
ghost use Rattle.sg_kinds.specs.Sound.{IsSmall};
ghost use Rattle.sg_kinds.specs.Terms.{Term, nodes_of, height_of};
ghost use Rattle.sg_forest.specs.Trees.{IsLive};
ghost use Rattle.sg_groves.specs.Grove.{nodes};
ghost use Rattle.sg_groves.specs.Holds.{Holds, IsPlaced};
ghost use Rattle.sg_build.specs.Counted.{AreCounts, OfReplaced, OfWhole};

use crate::held::{counts_below, kid_count};
use crate::limits::{Counts, are_within};
use sg_forest::NodeId;
use sg_terms::Terms;

/// How many nodes the whole term around a node has with a term of these counts in the node's place, or its counts
/// exactly where it is over a limit. So many steps lead up from the node to the root; `known` is how many nodes the whole
/// has now, in the limits. Only what is under the node is read, and the rest of the tree where a limit is passed. It
/// takes no memory.
pub fn counts_replaced(
    terms: &Terms,
    at: NodeId,
    steps: usize,
    known: usize,
    t: &Counts,
) -> Result<usize, Counts>
    requires live { IsLive (nodes terms.now) at }
    requires steps { (root : _) (whole : Term) (u : Place) → IsPlaced terms.now root whole u at → steps ≡ length u }
    requires known { OfWhole terms.now at (λ whole. known ≡ nodes_of whole) }
    requires within { OfWhole terms.now at IsSmall }
    ensures small { OfReplaced terms.now at t.now (λ new. IsOk result ↔ IsSmall new) }
    ensures nodes { OfReplaced terms.now at t.now (λ new. IfOk result (λ n. n ≡ nodes_of new)) }
    ensures counts { OfReplaced terms.now at t.now (λ new. IfErr result (AreCounts new)) }
{
    terms.facts();
    let rest = known - counts_below(terms, at).nodes;
    let nodes = rest.saturating_add(t.nodes);
    let depth = steps.saturating_add(t.depth);
    if are_within(nodes, depth) {
        return Ok(nodes);
    }
    Err(Counts {
        nodes,
        depth: depth_over(terms, at, t.depth),
    })
}

// how deep the whole term is with something that deep in the place of a node's
fn depth_over(terms: &Terms, at: NodeId, below: usize) -> usize
    requires { IsLive (nodes terms.now) at }
    ensures { (root : _) (whole s : Term) (u : Place) → IsPlaced terms.now root whole u at
        → below ≡ min (height_of s) usize.MAX → result ≡ min (height_of (put whole u s)) usize.MAX }
{
    terms.facts();
    let mut depth = below;
    let mut top = at;
    while let Some((above, k)) = terms.parent(top) {
        depth = depth_beside(terms, above, k, depth);
        top = above;
    }
    depth
}

// how deep a node's term is with something that deep in the place of child k
fn depth_beside(terms: &Terms, n: NodeId, k: usize, below: usize) -> usize
    requires { IsLive (nodes terms.now) n }
    ensures { (t s : Term) → Holds terms.now n t → below ≡ min (height_of s) usize.MAX
        → result ≡ min (height_of (with_child t k s)) usize.MAX }
{
    terms.facts();
    let Some(op) = terms.op(n) else {
        return 1;
    };
    let count = kid_count(terms, op);
    let mut deepest: usize = 0;
    for j in 0..count {
        let depth = if j == k {
            below
        } else {
            counts_below(terms, terms.kid(n, j)).depth
        };
        deepest = deepest.max(depth);
    }
    deepest.saturating_add(1)
}
