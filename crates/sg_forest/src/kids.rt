ghost use Rattle.std.specs.Prelude.{◌≡◌, ◌<◌, ◌-◌, length, take, slice_get, slice_set, Some};

use crate::node_id::NodeId;
use std::marker::Model;

/// The children of a node, which contracts see as a list. Up to three stand in their place and need no memory of
/// their own.
#[derive(Drop)]
pub struct Kids {
    form: Form,
}

#[derive(Drop)]
enum Form {
    Empty,
    One(NodeId),
    Two(NodeId, NodeId),
    Three(NodeId, NodeId, NodeId),
    Long(Vec<NodeId>),
}

impl Model for Kids {
    ghost use Rattle.std.specs.Prelude.{List};
    ghost use Rattle.sg_forest.specs.Kids.{kids_of};
    ghost use Rattle.sg_forest.specs.declared.node_id.NodeId.{NodeId as Id};

    ghost Value = { List Id };

    ghost view = { λ k. kids_of k.form };
}

impl Kids {
    /// These children. Up to three give the memory of the vector back.
    pub fn new(kids: Vec<NodeId>) -> Kids
        ensures { result ≡ kids.items }
    {
        let form = match kids.as_slice() {
            [] => Form::Empty,
            [a] => Form::One(*a),
            [a, b] => Form::Two(*a, *b),
            [a, b, c] => Form::Three(*a, *b, *c),
            _ => Form::Long(kids),
        };
        Kids { form }
    }

    pub fn len(&self) -> usize
        ensures { result ≡ length self.now }
    {
        match &self.form {
            Form::Empty => 0,
            Form::One(_) => 1,
            Form::Two(_, _) => 2,
            Form::Three(_, _, _) => 3,
            Form::Long(kids) => kids.len(),
        }
    }

    pub fn at(&self, k: usize) -> NodeId
        requires { k < length self.now }
        ensures { slice_get self.now k ≡ Some result }
    {
        match &self.form {
            Form::Long(kids) => kids[k],
            Form::Two(a, b) => if k == 0 { *a } else { *b },
            Form::Three(a, b, c) => if k == 0 {
                *a
            } else if k == 1 {
                *b
            } else {
                *c
            },
            Form::One(a) => *a,
            Form::Empty => unreachable!(),
        }
    }

    pub fn set(&mut self, k: usize, kid: NodeId)
        requires { k < length self.old }
        ensures { self.new ≡ slice_set self.old k kid }
    {
        match &mut self.form {
            Form::Empty => {}
            Form::One(a) => *a = kid,
            Form::Two(a, b) => if k == 0 { *a = kid } else { *b = kid },
            Form::Three(a, b, c) => if k == 0 {
                *a = kid
            } else if k == 1 {
                *b = kid
            } else {
                *c = kid
            },
            Form::Long(kids) => kids[k] = kid,
        }
    }

    /// Takes the last one off.
    pub fn pop(&mut self)
        ensures { self.new ≡ take (length self.old - 1) self.old }
    {
        match &mut self.form {
            Form::Empty => {}
            Form::One(_) => self.form = Form::Empty,
            Form::Two(a, _) => self.form = Form::One(*a),
            Form::Three(a, b, _) => self.form = Form::Two(*a, *b),
            Form::Long(kids) => {
                kids.pop();
            }
        }
    }
}
