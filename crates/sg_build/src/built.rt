// Terms into a forest.
ghost use Rattle.std.specs.Prelude.{◌≡◌, ◌↔◌, ℕ, [], ◌∷◌, ◌≤◌, length, slice_get, Some, IfOk, OnOk, OnErr, IsErrOf, vec_capacity};
ghost use Rattle.sg_kinds.specs.Fits.{Fits, AllFit};
ghost use Rattle.sg_kinds.specs.Sound.{IsSmall};
ghost use Rattle.sg_kinds.specs.Terms.{Leaf, Node, kids_of};
ghost use Rattle.sg_forest.specs.Steps.{AreDistinct};
ghost use Rattle.sg_forest.specs.Trees.{IsRoot};
ghost use Rattle.sg_groves.specs.Grove.{Grove, IsGrove, nodes};
ghost use Rattle.sg_groves.specs.Holds.{Holds};
ghost use Rattle.sg_terms.specs.Kept.{AllHold, KeepsTerms};
ghost use Rattle.sg_build.specs.Counted.{AreCounts};
ghost use Rattle.sg_build.specs.Grown.{GrewBy, IsUnknown};
ghost use Rattle.sg_build.specs.declared.built.TermFault.TheVariants.{NoMemory as FaultNoMemory};

use crate::count::counts;
use crate::limits::Counts;
use sg_forest::NodeId;
use sg_kinds::ids::{OpId, PhylumId};
use sg_kinds::limits::{DEPTH, NODES};
use sg_kinds::memory::NoMemory;
use sg_kinds::term::{Term, TermNode};
use sg_kinds::value::Value;
use sg_terms::Terms;
use std::alloc::Global;

/// Why a term is not built.
#[derive(Clone, Copy, Debug, PartialEq, Eq)]
pub enum TermFault {
    /// it has more nodes than a buffer's term may have, or is deeper: its counts
    Size(Counts),
    NoMemory,
}

impl From<NoMemory> for TermFault {
    ghost from_gives = { λ _ e. e ≡ FaultNoMemory };

    fn from(_: NoMemory) -> TermFault {
        TermFault::NoMemory
    }
}

/// Makes a tree that holds a term, under a new root. `Size` says exactly that the term is over a limit. After a refusal
/// every node is as it was, and none is new. It allocates at most two vectors for each node and nothing else but the
/// values.
pub fn build(alloc: Global, terms: &mut Terms, t: &Term) -> Result<NodeId, TermFault>
    requires fits { (p : ℕ) × Fits terms.old.spec t.now p }
    ensures held { IfOk result (λ n. Holds terms.new n t.now) }
    ensures grew { IfOk result (λ n. GrewBy terms.old terms.new (n ∷ [])) }
    ensures unknown { IfOk result (IsUnknown terms.new) }
    ensures terms { KeepsTerms terms.old terms.new }
    ensures size { (c : Counts) → IsErrOf result (TermFault.Size c) ↔ (IsSmall t.now → ⊥) × AreCounts t.now c }
    ensures err { OnErr result ((n : _) → nodes terms.new n ≡ nodes terms.old n) }
    ensures frame { OnErr result (GrewBy terms.old terms.new []) }
{
    terms.facts();
    let size = counts(t);
    if size.nodes > NODES || size.depth > DEPTH {
        return Err(TermFault::Size(size));
    }
    Ok(tree_of(alloc, terms, t)?)
}

// the tree of a term, whatever its counts
#[cycle(build)]
fn tree_of(alloc: Global, terms: &mut Terms, t: &Term) -> Result<NodeId, NoMemory>
    requires { (p : ℕ) × Fits terms.old.spec t.now p }
    ensures held { IfOk result (λ n. Holds terms.new n t.now) }
    ensures grew { IfOk result (λ n. GrewBy terms.old terms.new (n ∷ [])) }
    ensures err { OnErr result (GrewBy terms.old terms.new []) }
{
    match &t.node {
        TermNode::Leaf(p, v) => leaf_of(terms, *p, v),
        TermNode::Node(op, scheme, elided, kids) => {
            node_over(alloc, terms, *op, *scheme, *elided, kids)
        }
    }
}

// the tree of a leaf
fn leaf_of(terms: &mut Terms, p: PhylumId, v: &Value) -> Result<NodeId, NoMemory>
    requires { Fits terms.old.spec (Leaf p v.now) p }
    ensures held { IfOk result (λ n. Holds terms.new n (Leaf p v.now)) }
    ensures grew { IfOk result (λ n. GrewBy terms.old terms.new (n ∷ [])) }
    ensures err { OnErr result (GrewBy terms.old terms.new []) }
{
    terms.facts();
    let n = terms.leaf(p, v)?;
    terms.facts();
    Ok(n)
}

// the tree of a node over these terms
#[cycle(build)]
fn node_over(
    alloc: Global,
    terms: &mut Terms,
    op: OpId,
    scheme: u32,
    elided: bool,
    kids: &[Term],
) -> Result<NodeId, NoMemory>
    requires { (p : ℕ) × Fits terms.old.spec (Node op scheme elided (kids_of kids.now)) p }
    ensures held { IfOk result (λ n. Holds terms.new n (Node op scheme elided (kids_of kids.now))) }
    ensures grew { IfOk result (λ n. GrewBy terms.old terms.new (n ∷ [])) }
    ensures err { OnErr result (GrewBy terms.old terms.new []) }
{
    terms.facts();
    let mut roots = Vec::with_capacity(alloc, kids.len())?;
    if trees_of(alloc, terms, kids, &mut roots).is_err() {
        undo(terms, &roots);
        return Err(NoMemory);
    }
    terms.facts();
    match terms.node(op, scheme, elided, roots) {
        Ok(n) => {
            terms.facts();
            Ok(n)
        }
        Err(roots) => {
            undo(terms, &roots);
            Err(NoMemory)
        }
    }
}

// the trees of these terms, from left to right, as far as memory is found
#[cycle(build)]
fn trees_of(
    alloc: Global,
    terms: &mut Terms,
    kids: &[Term],
    roots: &mut Vec<NodeId>,
) -> Result<(), NoMemory>
    requires fit { (ps : _) × AllFit terms.old.spec (kids_of kids.now) ps }
    requires empty { roots.old.items ≡ [] }
    requires room { length kids.now ≤ vec_capacity roots.old }
    ensures held { OnOk result (AllHold terms.new roots.new.items (kids_of kids.now)) }
    ensures grew { GrewBy terms.old terms.new roots.new.items }
{
    for kid in kids {
        terms.facts();
        let n = tree_of(alloc, terms, kid)?;
        roots.push(n).unwrap();
    }
    Ok(())
}

// drops the trees of these roots
fn undo(terms: &mut Terms, roots: &[NodeId])
    requires roots { (k : ℕ) (n : _) → slice_get roots.now k ≡ Some n → IsRoot (nodes terms.old) n }
    requires distinct { AreDistinct roots.now }
    ensures { (g : Grove) → IsGrove g → GrewBy g terms.old roots.now → GrewBy g terms.new [] }
{
    for n in roots {
        terms.facts();
        terms.drop_tree(*n);
    }
}
