ghost use Rattle.std.specs.Prelude.{◌≡◌, ◌≢◌, ◌<◌, ◌≤◌, ◌+◌, ◌↔◌, ℕ, length, slice_get, IfOk, OnOk, OnErr, IfErr, IfSome, IsOk, IsTrue, Some, None};
ghost use Rattle.sg_forest.specs.Trees.{node_at, IsLive, IsRoot, IsChild, IsInside, IsForest, room_below};
ghost use Rattle.sg_forest.specs.Tree.{node, tree_at, Stands, with_part, KeepsTrees, KeepsTreesWithout, KeepsTreesNotOver, KeepsTreesOutside, ChangesTrees, ReplacesTrees, GrowsTree, KeepsWays, KeepsWaysWithin, KeepsWaysTo, MovesWays, KeepsWaysOutside};
ghost use Rattle.sg_forest.specs.Steps.{SameSort, AreDistinct, AreRoots, KeepsParts, KeepsKids, KeepsShape, IsPartSet, IsSwapped, IsRootMade, IsDropped};

use crate::label::Label;
use crate::node::Linked;
use crate::node_id::NodeId;
use crate::nodes::{add_root, exchange, is_inside, remove_tree, set_part};
use slab::Slab;
use std::alloc::Global;
use std::marker::Model;

/// There was no memory.
pub use std::alloc::AllocError as NoMemory;

/// What could not be stored for want of memory.
#[derive(Debug, Drop)]
pub struct Refused<L, D> {
    pub label: L,
    pub part: D,
    pub kids: Vec<NodeId>,
}

/// Trees of labelled nodes, in place.
#[derive(Drop)]
pub struct Forest<L: Label, D> {
    nodes: Slab<Linked<L, D>>,
}

impl<L: Label, D> Model for Forest<L, D> {
    ghost use Rattle.sg_forest.specs.Trees.{Trees, trees_code, trees_of, node_in, IsForest};

    ghost Value = { Trees L D };

    ghost coded = { trees_code L.code D.code };

    ghost view = { λ f. trees_of f.nodes };

    ghost invariant = { λ f. IsForest L.arity_of L.sort_of L.kid_sort_of (node_in f.nodes) };
}

#[tactic(auto, using(crate::proofs::Mapped::read_slots))]
impl<L: Label, D> Forest<L, D> {
    /// A forest without nodes. It takes no memory.
    pub fn new(alloc: Global) -> Result<Forest<L, D>, NoMemory>
        ensures empty { IfOk result (λ f. (n : _) → node_at f n ≡ None) }
        ensures succeeds { IsOk result }
    {
        Ok(Forest {
            nodes: Slab::new(alloc),
        })
    }

    /// Makes room for `n` more nodes.
    pub fn reserve(&mut self, n: usize) -> Result<(), NoMemory>
        ensures room { OnOk result (n ≤ self.new.spare) }
        ensures nodes { self.new.nodes ≡ self.old.nodes }
        ensures spare { self.old.spare ≤ self.new.spare }
        ensures succeeds { n ≤ self.old.spare → IsOk result }
        ensures had_room { n ≤ self.old.spare → self.new ≡ self.old }
    {
        if n <= self.nodes.capacity() - self.nodes.len() {
            return Ok(());
        }
        self.nodes.reserve(n).map_err(|_| NoMemory)
    }

    /// Whether there is a node of this number.
    pub fn contains(&self, n: NodeId) -> bool
        ensures live { IsTrue result ↔ IsLive (node_at self.now) n }
    {
        self.nodes.contains(n.key)
    }

    /// The label of a node.
    pub fn label(&self, n: NodeId) -> &L
        requires live { IsLive (node_at self.now) n }
        ensures label { (x : _) → node_at self.now n ≡ Some x → result.now ≡ x.label }
        ensures tree { (label : _) (part : _) (ts : _)
            → Stands (node_at self.now) n (node label part ts) → result.now ≡ label }
    {
        self.nodes[n.key].label()
    }

    /// The part of a node.
    pub fn part(&self, n: NodeId) -> &D
        requires live { IsLive (node_at self.now) n }
        ensures part { (x : _) → node_at self.now n ≡ Some x → result.now ≡ x.part }
        ensures tree { (label : _) (part : _) (ts : _)
            → Stands (node_at self.now) n (node label part ts) → result.now ≡ part }
    {
        self.nodes[n.key].part()
    }

    /// The node under which this one hangs, with its place among the children, counted from 0.
    /// A root has none.
    pub fn parent(&self, n: NodeId) -> Option<(NodeId, usize)>
        requires live { IsLive (node_at self.now) n }
        ensures up { (x : _) → node_at self.now n ≡ Some x → result ≡ x.up }
        ensures rises { IfSome result (λ up. room_below self.now n < room_below self.now up.0) }
        ensures forest { IsForest L.arity_of L.sort_of L.kid_sort_of (node_at self.now) }
    {
        self.nodes[n.key].up()
    }

    /// How many children a node has.
    pub fn arity(&self, n: NodeId) -> usize
        requires live { IsLive (node_at self.now) n }
        ensures kids { (x : _) → node_at self.now n ≡ Some x → result ≡ length x.kids }
        ensures label { (x : _) → node_at self.now n ≡ Some x → result ≡ L.arity_of x.label }
    {
        self.nodes[n.key].kid_count()
    }

    /// Child `k` of a node, counted from 0.
    pub fn kid(&self, n: NodeId, k: usize) -> NodeId
        requires live { IsLive (node_at self.now) n }
        requires place { (x : _) → node_at self.now n ≡ Some x → k < L.arity_of x.label }
        ensures kid { (x : _) → node_at self.now n ≡ Some x → slice_get x.kids k ≡ Some result }
        ensures child { IsChild (node_at self.now) result n k }
        ensures tree { (label : _) (part : _) (ts : _) (t : _)
            → Stands (node_at self.now) n (node label part ts) → tree_at ts k ≡ Some t
            → Stands (node_at self.now) result t }
        ensures falls { room_below self.now result < room_below self.now n }
        ensures forest { IsForest L.arity_of L.sort_of L.kid_sort_of (node_at self.now) }
    {
        self.nodes[n.key].kid(k)
    }

    /// Whether a node is `top` or stands below it, in time linear in its depth.
    pub fn is_inside(&self, n: NodeId, top: NodeId) -> bool
        requires live { IsLive (node_at self.now) n }
        ensures inside { IsTrue result ↔ IsInside (node_at self.now) n top }
    {
        is_inside(&self.nodes, n, top)
    }

    /// Writes a part, and hands back the one before.
    pub fn set_part(&mut self, n: NodeId, part: D) -> D
        requires live { IsLive (node_at self.old) n }
        ensures returned { (x : _) → node_at self.old n ≡ Some x → result ≡ x.part }
        ensures set { IsPartSet (node_at self.old) (node_at self.new) n part }
        ensures spare { self.new.spare ≡ self.old.spare }

        // What that leaves as it was: all that hangs, the trees without the node, and the measure.
        ensures shape { KeepsShape (node_at self.old) (node_at self.new) }
        ensures changed { ChangesTrees (node_at self.old) (node_at self.new) n (with_part part) }
        ensures trees { KeepsTreesWithout (node_at self.old) (node_at self.new) n }
        ensures room { (m : _) → room_below self.new m ≡ room_below self.old m }
        ensures forest { IsForest L.arity_of L.sort_of L.kid_sort_of (node_at self.new) }
    {
        set_part(&mut self.nodes, n, part)
    }

    /// The tree under `at` and that of the root `detached` change places: three nodes are written.
    /// Where `at` is a root nothing changes.
    pub fn swap(&mut self, at: NodeId, detached: NodeId)
        requires live { IsLive (node_at self.old) at }
        requires root { IsRoot (node_at self.old) detached }
        requires apart { IsInside (node_at self.old) at detached → ⊥ }
        requires sorts { SameSort L.sort_of (node_at self.old) at detached }
        ensures swapped { (p : _) (k : _) → IsChild (node_at self.old) at p k
            → IsSwapped (node_at self.old) (node_at self.new) at detached p k }
        ensures unchanged { IsRoot (node_at self.old) at → self.new ≡ self.old }
        ensures spare { self.new.spare ≡ self.old.spare }

        // Labels and parts stay, and each tree over `at` has the other tree in its place.
        ensures parts { KeepsParts (node_at self.old) (node_at self.new) }
        ensures replaced { ReplacesTrees (node_at self.old) (node_at self.new) at detached }
        ensures trees { KeepsTreesNotOver (node_at self.old) (node_at self.new) at }

        // Roots and ways up.
        ensures freed { IsRoot (node_at self.new) at }
        ensures placed { (p : _) (k : _) → IsChild (node_at self.old) at p k
            → IsChild (node_at self.new) detached p k }
        ensures roots { (n : _) → n ≢ at → n ≢ detached
            → IsRoot (node_at self.new) n ↔ IsRoot (node_at self.old) n }
        ensures ways { KeepsWaysWithin (node_at self.old) (node_at self.new) at }
        ensures ways_over { MovesWays (node_at self.old) (node_at self.new) at detached }
        ensures ways_below { KeepsWaysTo (node_at self.old) (node_at self.new) detached }
        ensures forest { IsForest L.arity_of L.sort_of L.kid_sort_of (node_at self.new) }
    {
        exchange(&mut self.nodes, at, detached);
    }

    /// Makes a root over roots. It is refused for want of memory alone, and then hands back what
    /// it was given.
    pub fn grow(&mut self, label: L, part: D, kids: Vec<NodeId>) -> Result<NodeId, Refused<L, D>>
        requires count { length kids.items ≡ L.arity_of label }
        requires roots { AreRoots L.sort_of (node_at self.old) (L.kid_sort_of label) kids.items }
        requires distinct { AreDistinct kids.items }
        ensures grown { IfOk result (IsRootMade (node_at self.old) (node_at self.new) label part kids.items) }
        ensures err { OnErr result (self.new.nodes ≡ self.old.nodes) }
        ensures refused { IfErr result (λ r.
            (r.label ≡ label) × (r.part ≡ part) × (r.kids.items ≡ kids.items)) }
        ensures succeeds { 0 < self.old.spare → IsOk result }
        ensures spare { self.old.spare ≤ self.new.spare + 1 }

        // Labels, parts and children stay, and the new tree is made of the old ones.
        ensures kids { KeepsKids (node_at self.old) (node_at self.new) }
        ensures tree { IfOk result
            (GrowsTree (node_at self.old) (node_at self.new) label part kids.items) }
        ensures trees { KeepsTrees (node_at self.old) (node_at self.new) }

        // Roots and ways up.
        ensures root { IfOk result (IsRoot (node_at self.new)) }
        ensures hung { IfOk result (λ id. (k : ℕ) (kid : _)
            → slice_get kids.items k ≡ Some kid → IsChild (node_at self.new) kid id k) }
        ensures roots { IfOk result (λ id. (n : _) → n ≢ id → IsRoot (node_at self.new) n
            ↔ IsRoot (node_at self.old) n × ((k : ℕ) → slice_get kids.items k ≢ Some n)) }
        ensures ways { KeepsWays (node_at self.old) (node_at self.new) }
        ensures forest { IsForest L.arity_of L.sort_of L.kid_sort_of (node_at self.new) }
    {
        if self.nodes.reserve(1).is_err() {
            return Err(Refused { label, part, kids });
        }
        Ok(add_root(&mut self.nodes, label, part, kids))
    }

    /// Removes the tree of a root, in time linear in its nodes.
    pub fn drop_tree(&mut self, root: NodeId)
    where
        L: Drop,
        D: Drop,
        requires root { IsRoot (node_at self.old) root }
        ensures dropped { IsDropped (node_at self.old) (node_at self.new) root }
        ensures spare { self.old.spare ≤ self.new.spare }

        // The other trees, roots and ways up stay.
        ensures trees { KeepsTreesOutside (node_at self.old) (node_at self.new) root }
        ensures roots { (n : _) → IsRoot (node_at self.new) n ↔ IsRoot (node_at self.old) n × (n ≢ root) }
        ensures ways { KeepsWaysOutside (node_at self.old) (node_at self.new) root }
        ensures forest { IsForest L.arity_of L.sort_of L.kid_sort_of (node_at self.new) }
    {
        remove_tree(&mut self.nodes, root);
    }
}
