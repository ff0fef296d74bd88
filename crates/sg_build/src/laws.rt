//! Laws of counts, each as the contract of a function without code.
ghost use Rattle.std.specs.Prelude.{◌≡◌, ◌+◌, Some, length, max};
ghost use Rattle.sg_kinds.specs.Places.{Place, put, sub};
ghost use Rattle.sg_kinds.specs.Terms.{Term, nodes_of, height_of};
ghost use Rattle.sg_build.specs.Rest.{rest_height};

/// What another subterm in a place does to the count of nodes and to the depth.
#[tactic(auto, using(crate::proofs::Counted::nodes_put, crate::proofs::Counted::height_put))]
pub fn counts_of_puts()
    ensures nodes { (t : Term) (u : Place) (x s : Term) → sub t u ≡ Some x
        → nodes_of (put t u s) + nodes_of x ≡ nodes_of t + nodes_of s }
    ensures depth { (t : Term) (u : Place) (x s : Term) → sub t u ≡ Some x
        → height_of (put t u s) ≡ max (rest_height t u) (length u + height_of s) }
{}
