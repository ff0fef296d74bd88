// What a node keeps, written in place.
ghost use Rattle.std.specs.Prelude.{◌≡◌, ◌<◌, Some, length, slice_get, slice_set};
ghost use Rattle.sg_forest.specs.Trees.{node_at, IsLive, room_below};
ghost use Rattle.sg_forest.specs.Steps.{IsPartSet};

use sg_forest::{Forest, NodeId};
use sg_groves::{Kind, Part};
use sg_kinds::ids::ValueId;

/// Writes a number in a slot of a node, and hands back the one before.
pub fn put_value(trees: &mut Forest<Kind, Part>, n: NodeId, slot: u32, v: ValueId) -> ValueId
    requires live { IsLive (node_at trees.old) n }
    requires slot { (x : _) → node_at trees.old n ≡ Some x → slot < length x.part.values }
    ensures before { (x : _) → node_at trees.old n ≡ Some x → slice_get x.part.values slot ≡ Some result }
    ensures set { (x : _) → node_at trees.old n ≡ Some x → IsPartSet (node_at trees.old) (node_at trees.new) n
        (record x.part { values = slice_set x.part.values slot v }) }
    ensures room { (m : _) → room_below trees.new m ≡ room_below trees.old m }
{
    let part = trees.set_part(n, Part::blank());
    let (part, before) = part.with_value(slot, v);
    let _ = trees.set_part(n, part);
    before
}

/// Writes the scheme number of a node.
pub fn put_scheme(trees: &mut Forest<Kind, Part>, n: NodeId, k: u32)
    requires live { IsLive (node_at trees.old) n }
    ensures set { (x : _) → node_at trees.old n ≡ Some x → IsPartSet (node_at trees.old) (node_at trees.new) n
        (record x.part { scheme = k }) }
    ensures room { (m : _) → room_below trees.new m ≡ room_below trees.old m }
{
    let part = trees.set_part(n, Part::blank());
    let elided = part.elided;
    let _ = trees.set_part(n, part.with_marks(k, elided));
}

/// Writes the mark of a node.
pub fn put_elided(trees: &mut Forest<Kind, Part>, n: NodeId, on: bool)
    requires live { IsLive (node_at trees.old) n }
    ensures set { (x : _) → node_at trees.old n ≡ Some x → IsPartSet (node_at trees.old) (node_at trees.new) n
        (record x.part { elided = on }) }
    ensures room { (m : _) → room_below trees.new m ≡ room_below trees.old m }
{
    let part = trees.set_part(n, Part::blank());
    let scheme = part.scheme;
    let _ = trees.set_part(n, part.with_marks(scheme, on));
}
