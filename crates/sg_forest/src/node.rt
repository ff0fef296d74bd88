ghost use Rattle.std.specs.Prelude.{◌≡◌, ◌≢◌, ◌<◌, ◌-◌, length, take, slice_get, slice_set, IfSome};
ghost use Rattle.sg_forest.specs.Up.{no_place};

use crate::kids::Kids;
use crate::node_id::NodeId;
use crate::up::Up;
use std::marker::Model;

/// One node: its label, its part, the place where it hangs, and its children.
#[derive(Drop)]
pub struct Linked<L, D> {
    label: L,
    part: D,
    up: Up,
    kids: Kids,
}

impl<L, D> Model for Linked<L, D> {
    ghost use Rattle.sg_forest.specs.Node.{Node, node_code};

    ghost Value = { Node L D };

    ghost coded = { node_code L.code D.code };

    ghost view = { λ e. record { label = e.label; part = e.part; up = e.up; kids = e.kids } };
}

impl<L, D> Linked<L, D> {
    pub fn new(label: L, part: D, kids: Vec<NodeId>) -> Self
        ensures { result ≡ record { label = label; part = part; up = None; kids = kids.items } }
    {
        Linked {
            label,
            part,
            up: Up::new(None),
            kids: Kids::new(kids),
        }
    }

    pub fn label(&self) -> &L
        ensures { result.now ≡ self.now.label }
    {
        &self.label
    }

    pub fn part(&self) -> &D
        ensures { result.now ≡ self.now.part }
    {
        &self.part
    }

    pub fn up(&self) -> Option<(NodeId, usize)>
        ensures up { result ≡ self.now.up }
        ensures place { IfSome result (λ u. u.1 ≢ no_place) }
    {
        self.up.get()
    }

    pub fn kid_count(&self) -> usize
        ensures { result ≡ length self.now.kids }
    {
        self.kids.len()
    }

    pub fn kid(&self, k: usize) -> NodeId
        requires { k < length self.now.kids }
        ensures { slice_get self.now.kids k ≡ Some result }
    {
        self.kids.at(k)
    }

    pub fn last_kid(&self) -> Option<NodeId>
        ensures { result ≡ slice_get self.now.kids (length self.now.kids - 1) }
    {
        let count = self.kids.len();
        if count == 0 {
            None
        } else {
            Some(self.kids.at(count - 1))
        }
    }

    pub fn set_up(&mut self, up: Option<(NodeId, usize)>)
        requires { IfSome up (λ u. u.1 ≢ no_place) }
        ensures { self.new ≡ record self.old { up = up } }
    {
        self.up = Up::new(up);
    }

    pub fn set_part(&mut self, part: D) -> D
        ensures returned { result ≡ self.old.part }
        ensures after { self.new ≡ record self.old { part = part } }
    {
        std::mem::replace(&mut self.part, part)
    }

    pub fn set_kid(&mut self, k: usize, kid: NodeId)
        requires { k < length self.old.kids }
        ensures { self.new ≡ record self.old { kids = slice_set self.old.kids k kid } }
    {
        self.kids.set(k, kid);
    }

    pub fn pop_kid(&mut self)
        ensures { self.new ≡ record self.old { kids = take (length self.old.kids - 1) self.old.kids } }
    {
        self.kids.pop();
    }
}
