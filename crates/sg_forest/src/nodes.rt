ghost use Rattle.std.specs.Prelude.{◌≡◌, ◌≢◌, ◌<◌, ◌≤◌, ◌-◌, ◌+◌, ◌↔◌, ℕ, length, take, slice_get, slice_set, Some, None, IsTrue, IfSome};
ghost use Rattle.slab.specs.Slab.{get, ContainsKey, slab_len, HasRoomFor};
ghost use Rattle.sg_forest.specs.Trees.{node_in, IsLive, IsRoot, IsChild, Lists, IsInside, IsLinked};
ghost use Rattle.sg_forest.specs.Up.{no_place};
ghost use Rattle.sg_forest.specs.Steps.{IsSwapped, IsRootMade, IsDropped, AreDistinct};

use crate::node::Linked;
use crate::node_id::NodeId;
use slab::Slab;

/// Writes where a node hangs.
pub fn set_up<L, D>(nodes: &mut Slab<Linked<L, D>>, at: NodeId, up: Option<(NodeId, usize)>)
    requires live { ContainsKey nodes.old at.key }
    requires place { IfSome up (λ u. u.1 ≢ no_place) }
    ensures written { (x : _) → get nodes.old at.key ≡ Some x → get nodes.new at.key ≡ Some (record x { up = up }) }
    ensures others { (n : ℕ) → n ≢ at.key → get nodes.new n ≡ get nodes.old n }
    ensures vacant_key { nodes.new.vacant_key ≡ nodes.old.vacant_key }
    ensures capacity { nodes.new.capacity ≡ nodes.old.capacity }
    ensures len { slab_len nodes.new ≡ slab_len nodes.old }
{
    nodes[at.key].set_up(up);
}

/// Writes one place of a node's children.
pub fn set_kid<L, D>(nodes: &mut Slab<Linked<L, D>>, at: NodeId, k: usize, kid: NodeId)
    requires live { ContainsKey nodes.old at.key }
    requires place { (x : _) → get nodes.old at.key ≡ Some x → k < length x.kids }
    ensures written { (x : _) → get nodes.old at.key ≡ Some x
        → get nodes.new at.key ≡ Some (record x { kids = slice_set x.kids k kid }) }
    ensures others { (n : ℕ) → n ≢ at.key → get nodes.new n ≡ get nodes.old n }
    ensures capacity { nodes.new.capacity ≡ nodes.old.capacity }
    ensures len { slab_len nodes.new ≡ slab_len nodes.old }
{
    nodes[at.key].set_kid(k, kid);
}

/// Writes a part, and hands back the one before.
pub fn set_part<L, D>(nodes: &mut Slab<Linked<L, D>>, at: NodeId, part: D) -> D
    requires live { ContainsKey nodes.old at.key }
    ensures returned { (x : _) → get nodes.old at.key ≡ Some x → result ≡ x.part }
    ensures written { (x : _) → get nodes.old at.key ≡ Some x → get nodes.new at.key ≡ Some (record x { part = part }) }
    ensures others { (n : ℕ) → n ≢ at.key → get nodes.new n ≡ get nodes.old n }
    ensures capacity { nodes.new.capacity ≡ nodes.old.capacity }
    ensures len { slab_len nodes.new ≡ slab_len nodes.old }
{
    nodes[at.key].set_part(part)
}

/// Takes the last child off a node's list.
pub fn pop_kid<L, D>(nodes: &mut Slab<Linked<L, D>>, at: NodeId)
    requires { ContainsKey nodes.old at.key }
    ensures written { (x : _) → get nodes.old at.key ≡ Some x
        → get nodes.new at.key ≡ Some (record x { kids = take (length x.kids - 1) x.kids }) }
    ensures others { (n : ℕ) → n ≢ at.key → get nodes.new n ≡ get nodes.old n }
    ensures capacity { nodes.new.capacity ≡ nodes.old.capacity }
    ensures len { slab_len nodes.new ≡ slab_len nodes.old }
{
    nodes[at.key].pop_kid();
}

/// Removes a node, and says where it hung.
pub fn remove_node<L: Drop, D: Drop>(
    nodes: &mut Slab<Linked<L, D>>,
    at: NodeId,
) -> Option<(NodeId, usize)>
    requires { ContainsKey nodes.old at.key }
    ensures up { (x : _) → get nodes.old at.key ≡ Some x → result ≡ x.up }
    ensures gone { get nodes.new at.key ≡ None }
    ensures others { (n : ℕ) → n ≢ at.key → get nodes.new n ≡ get nodes.old n }
    ensures capacity { nodes.new.capacity ≡ nodes.old.capacity }
    ensures len { slab_len nodes.new + 1 ≡ slab_len nodes.old }
{
    nodes.remove(at.key).up()
}

/// Hangs a root in the place of a node, which becomes a root. Where it is one already nothing changes.
pub fn exchange<L, D>(nodes: &mut Slab<Linked<L, D>>, at: NodeId, detached: NodeId)
    requires linked { IsLinked (node_in nodes.old) }
    requires live { IsLive (node_in nodes.old) at }
    requires root { IsRoot (node_in nodes.old) detached }
    requires apart { IsInside (node_in nodes.old) at detached → ⊥ }
    ensures swapped { (p : _) (k : _) → IsChild (node_in nodes.old) at p k
        → IsSwapped (node_in nodes.old) (node_in nodes.new) at detached p k }
    ensures unchanged { IsRoot (node_in nodes.old) at → nodes.new ≡ nodes.old }
    ensures capacity { nodes.new.capacity ≡ nodes.old.capacity }
    ensures len { slab_len nodes.new ≡ slab_len nodes.old }
{
    if let Some((parent, k)) = nodes[at.key].up() {
        put_in_place(nodes, at, detached, parent, k);
    }
}

fn put_in_place<L, D>(
    nodes: &mut Slab<Linked<L, D>>,
    at: NodeId,
    detached: NodeId,
    parent: NodeId,
    k: usize,
)
    requires child { IsChild (node_in nodes.old) at parent k }
    requires place { k ≢ no_place }
    requires root { IsRoot (node_in nodes.old) detached }
    requires lists { Lists (node_in nodes.old) parent k at }
    requires parent_is_not_at { parent ≢ at }
    requires parent_is_not_detached { parent ≢ detached }
    requires detached_is_not_at { detached ≢ at }
    ensures swapped { IsSwapped (node_in nodes.old) (node_in nodes.new) at detached parent k }
    ensures capacity { nodes.new.capacity ≡ nodes.old.capacity }
    ensures len { slab_len nodes.new ≡ slab_len nodes.old }
{
    set_up(nodes, at, None);
    set_up(nodes, detached, Some((parent, k)));
    set_kid(nodes, parent, k, detached);
}

/// Hangs each node under a parent, in this order.
pub fn link_kids<L, D>(nodes: &mut Slab<Linked<L, D>>, parent: NodeId, kids: &[NodeId])
    requires live { (k : ℕ) (kid : _) → slice_get kids.now k ≡ Some kid
        → IsLive (node_in nodes.old) kid }
    requires distinct { AreDistinct kids.now }
    ensures hung { (k : ℕ) (kid : _) (x : _) → slice_get kids.now k ≡ Some kid
        → node_in nodes.old kid ≡ Some x → node_in nodes.new kid ≡ Some (record x { up = Some (parent, k) }) }
    ensures others { (n : _) → ((k : ℕ) → slice_get kids.now k ≢ Some n)
        → node_in nodes.new n ≡ node_in nodes.old n }
    ensures vacant_key { nodes.new.vacant_key ≡ nodes.old.vacant_key }
    ensures capacity { nodes.new.capacity ≡ nodes.old.capacity }
    ensures len { slab_len nodes.new ≡ slab_len nodes.old }
{
    for (k, kid) in kids.iter().enumerate() {
        set_up(nodes, *kid, Some((parent, k)));
    }
}

/// Adds a root over roots.
pub fn add_root<L, D>(
    nodes: &mut Slab<Linked<L, D>>,
    label: L,
    part: D,
    kids: Vec<NodeId>,
) -> NodeId
    requires room { HasRoomFor nodes.old 1 }
    requires live { (k : ℕ) (kid : _) → slice_get kids.items k ≡ Some kid
        → IsLive (node_in nodes.old) kid }
    requires distinct { AreDistinct kids.items }
    ensures grown { IsRootMade (node_in nodes.old) (node_in nodes.new) label part kids.items result }
    ensures capacity { nodes.new.capacity ≡ nodes.old.capacity }
    ensures len { slab_len nodes.new ≡ slab_len nodes.old + 1 }
{
    let id = NodeId {
        key: nodes.vacant_key(),
    };
    link_kids(nodes, id, kids.as_slice());
    nodes.insert_reserved(Linked::new(label, part, kids));
    id
}

/// Removes a tree: goes down by last children, takes each node out that has none left, and goes up.
pub fn remove_tree<L: Drop, D: Drop>(nodes: &mut Slab<Linked<L, D>>, root: NodeId)
    requires linked { IsLinked (node_in nodes.old) }
    requires root { IsRoot (node_in nodes.old) root }
    ensures dropped { IsDropped (node_in nodes.old) (node_in nodes.new) root }
    ensures capacity { nodes.new.capacity ≡ nodes.old.capacity }
    ensures len { slab_len nodes.new ≤ slab_len nodes.old }
{
    let mut at = root;
    'walk: loop {
        let last = nodes[at.key].last_kid();
        match last {
            Some(kid) => at = kid,
            None => match remove_node(nodes, at) {
                Some((parent, _)) => {
                    pop_kid(nodes, parent);
                    at = parent;
                }
                None => return,
            },
        }
    }
}

/// Whether a node is another or stands below it.
pub fn is_inside<L, D>(nodes: &Slab<Linked<L, D>>, n: NodeId, top: NodeId) -> bool
    requires linked { IsLinked (node_in nodes.now) }
    requires live { IsLive (node_in nodes.now) n }
    ensures inside { IsTrue result ↔ IsInside (node_in nodes.now) n top }
{
    let mut at = n;
    'climb: loop {
        if at == top {
            return true;
        }
        match nodes[at.key].up() {
            Some((parent, _)) => at = parent,
            None => return false,
        }
    }
}
