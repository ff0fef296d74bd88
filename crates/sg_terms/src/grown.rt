// New roots.
ghost use Rattle.std.specs.Prelude.{◌≡◌, ◌≢◌, ◌↔◌, ℕ, [], ◌∷◌, false, length, slice_get, Some, None, IfOk, IfErr, OnErr};
ghost use Rattle.sg_forest.specs.Trees.{node_at, IsRoot, IsChild};
ghost use Rattle.sg_forest.specs.Tree.{GrowsTree, KeepsWays};
ghost use Rattle.sg_forest.specs.Steps.{AreDistinct, IsRootMade, KeepsKids};
ghost use Rattle.sg_terms.specs.Occurrences.{AreTrees};

use sg_forest::{Forest, NodeId};
use sg_groves::{Kind, Part, Values};
use sg_kinds::ids::{PhylumId, ValueId};
use sg_kinds::memory::NoMemory;
use std::alloc::Global;

/// Makes a root over roots, or hands these back.
pub fn grow(
    trees: &mut Forest<Kind, Part>,
    kind: Kind,
    part: Part,
    kids: Vec<NodeId>,
) -> Result<NodeId, Vec<NodeId>>
    requires count { length kids.items ≡ kind.arity }
    requires roots { (k : ℕ) (id : _) → slice_get kids.items k ≡ Some id → IsRoot (node_at trees.old) id }
    requires distinct { AreDistinct kids.items }
    ensures grown { IfOk result (IsRootMade (node_at trees.old) (node_at trees.new) kind part kids.items) }
    ensures err { OnErr result (trees.new.nodes ≡ trees.old.nodes) }
    ensures refused { IfErr result (λ back. back.items ≡ kids.items) }
    ensures kids { KeepsKids (node_at trees.old) (node_at trees.new) }
    ensures tree { IfOk result (GrowsTree (node_at trees.old) (node_at trees.new) kind part kids.items) }
    ensures root { IfOk result (IsRoot (node_at trees.new)) }
    ensures hung { IfOk result (λ id. (k : ℕ) (kid : _)
        → slice_get kids.items k ≡ Some kid → IsChild (node_at trees.new) kid id k) }
    ensures roots { IfOk result (λ id. (n : _) → n ≢ id → IsRoot (node_at trees.new) n
        ↔ IsRoot (node_at trees.old) n × ((k : ℕ) → slice_get kids.items k ≢ Some n)) }
    ensures ways { KeepsWays (node_at trees.old) (node_at trees.new) }
    ensures forest { AreTrees trees.new }
{
    match trees.grow(kind, part, kids) {
        Ok(n) => return Ok(n),
        Err(refused) => return Err(refused.kids),
    }
}

/// Makes a leaf with the value of a number, as a root.
pub fn grow_leaf(
    alloc: Global,
    trees: &mut Forest<Kind, Part>,
    p: PhylumId,
    id: ValueId,
) -> Result<NodeId, NoMemory>
    requires { AreTrees trees.old }
    ensures grown { IfOk result (IsRootMade (node_at trees.old) (node_at trees.new)
        (record { phylum = p; op = None; arity = 0 }) (record { scheme = 0; elided = false; values = id ∷ [] }) []) }
    ensures err { OnErr result (trees.new.nodes ≡ trees.old.nodes) }
    ensures kids { KeepsKids (node_at trees.old) (node_at trees.new) }
    ensures tree { IfOk result (GrowsTree (node_at trees.old) (node_at trees.new)
        (record { phylum = p; op = None; arity = 0 }) (record { scheme = 0; elided = false; values = id ∷ [] }) []) }
    ensures root { IfOk result (IsRoot (node_at trees.new)) }
    ensures roots { IfOk result (λ id. (n : _) → n ≢ id
        → IsRoot (node_at trees.new) n ↔ IsRoot (node_at trees.old) n) }
    ensures ways { KeepsWays (node_at trees.old) (node_at trees.new) }
    ensures forest { AreTrees trees.new }
{
    let kind = Kind {
        phylum: p,
        op: None,
        arity: 0,
    };
    let part = Part {
        scheme: 0,
        elided: false,
        values: Values::one(id),
    };
    let Ok(n) = grow(trees, kind, part, Vec::new(alloc)) else {
        return Err(NoMemory);
    };
    Ok(n)
}
