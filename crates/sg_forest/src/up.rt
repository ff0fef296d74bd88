ghost use Rattle.std.specs.Prelude.{◌≡◌, ◌≢◌, IfSome, None};
ghost use Rattle.sg_forest.specs.Up.{no_place};

use crate::node_id::NodeId;
use std::marker::Model;

/// Where a node hangs, which contracts see as its parent with its place among the children, or None.
#[derive(Drop)]
pub struct Up {
    parent: NodeId,
    // `usize::MAX` where it hangs nowhere
    place: usize,
}

impl Model for Up {
    ghost use Rattle.std.specs.Prelude.{Option, ℕ};
    ghost use Rattle.sg_forest.specs.Up.{up_of};
    ghost use Rattle.sg_forest.specs.declared.node_id.NodeId.{NodeId as Id};

    ghost Value = { Option (Id × ℕ) };

    ghost view = { λ u. up_of u.parent u.place };
}

impl Up {
    /// A place among the children of a parent, or none.
    pub fn new(up: Option<(NodeId, usize)>) -> Up
        requires { IfSome up (λ u. u.1 ≢ no_place) }
        ensures { result ≡ up }
    {
        match up {
            Some((parent, place)) => Up { parent, place },
            None => Up {
                parent: NodeId { key: 0 },
                place: usize::MAX,
            },
        }
    }

    /// The parent and the place among its children.
    pub fn get(&self) -> Option<(NodeId, usize)>
        ensures up { result ≡ self.now }
        ensures place { IfSome result (λ u. u.1 ≢ no_place) }
    {
        if self.place == usize::MAX {
            None
        } else {
            Some((self.parent, self.place))
        }
    }
}
