// Values of attributes and of terms.
ghost use Rattle.std.specs.Prelude.{◌≡◌, ◌+◌, ◌<◌, ◌↔◌, IsTrue, IfOk, min};
ghost use Rattle.sg_kinds.specs.Values.{row_of, Truth, Number, Chars, Tree, Fault, size_of, sizes_of, depth_of, depths_of, is_within};

use crate::ids::OpId;
use crate::limits::{VALUE_DEPTH, VALUE_SIZE};
use crate::marks::FaultKind;
use crate::memory::NoMemory;
use crate::text::Text;
use std::alloc::Global;
use std::marker::Model;

/// A value: a truth value, a number, a text, a tree, or why there is none. Its size and depth are kept beside it, as
/// far as one past their limits.
#[cycle(value)]
#[derive(Drop)]
pub struct Value {
    pub node: ValueNode,
    size: u32,
    depth: u32,
}

/// A value's children.
pub type Kids = Vec<Value>;

/// One layer of a value.
#[cycle(value)]
#[derive(Drop)]
pub enum ValueNode {
    Bool(bool),
    Int(i64),
    Text(Text),
    Tree(OpId, Kids),
    Fault(FaultKind),
}

impl Model for Value {
    ghost use Rattle.sg_kinds.specs.Values.{Value as IsValue, depth_of};
    ghost use Rattle.sg_kinds.specs.Measured.{IsMeasured};
    ghost use Rattle.sg_kinds.specs.ValueCode.{value_code};

    ghost Value = { IsValue };

    ghost coded = { value_code };

    ghost use Rattle.sg_kinds.specs.ValueView.{value_of_node};

    ghost view = { λ v. value_of_node v.node };

    ghost invariant = { λ v. IsMeasured (value_of_node v.node) v.size v.depth };

    ghost size = { depth_of };

    ghost use Rattle.sg_kinds.specs.ValueFalls.{depth_falls};

    ghost size_decreases = { λ a h. depth_falls a.node };
}

impl Value {
    /// A truth value.
    pub fn truth(b: bool) -> Value
        ensures { result ≡ Truth b }
    {
        Value {
            node: ValueNode::Bool(b),
            size: 1,
            depth: 1,
        }
    }

    /// A number.
    pub fn number(n: i64) -> Value
        ensures { result ≡ Number n }
    {
        Value {
            node: ValueNode::Int(n),
            size: 1,
            depth: 1,
        }
    }

    /// A text as a value.
    pub fn text(t: Text) -> Value
        ensures { result ≡ Chars t }
    {
        let size = if t.len() < 65536 {
            t.len() as u32 + 1
        } else {
            65537
        };
        Value {
            node: ValueNode::Text(t),
            size,
            depth: 1,
        }
    }

    /// A fault.
    pub fn fault(kind: FaultKind) -> Value
        ensures { result ≡ Fault kind }
    {
        Value {
            node: ValueNode::Fault(kind),
            size: 1,
            depth: 1,
        }
    }
}

impl Value {
    /// A tree of an operator over these children.
    pub fn tree(op: OpId, kids: Kids) -> Value
        ensures { result ≡ Tree op (row_of kids.items) }
    {
        let (size, depth) = measures(&kids);
        Value {
            node: ValueNode::Tree(op, kids),
            size,
            depth,
        }
    }

    /// Whether the value is in the limits of size and depth.
    pub fn is_within(&self) -> bool
        ensures { result ≡ is_within self.now }
    {
        self.size <= VALUE_SIZE && self.depth <= VALUE_DEPTH
    }

    /// Whether both are the same value.
    #[cycle(same)]
    #[tactic(auto, using(crate::proofs::Kids::depth_at, crate::proofs::Kids::row_injective))]
    pub fn same(&self, other: &Value) -> bool
        ensures { IsTrue result ↔ (self.now ≡ other.now) }
    {
        match (&self.node, &other.node) {
            (ValueNode::Bool(a), ValueNode::Bool(b)) => *a == *b,
            (ValueNode::Int(a), ValueNode::Int(b)) => *a == *b,
            (ValueNode::Text(a), ValueNode::Text(b)) => a.same(b),
            (ValueNode::Tree(a, xs), ValueNode::Tree(b, ys)) => *a == *b && are_same(xs, ys),
            (ValueNode::Fault(a), ValueNode::Fault(b)) => *a == *b,
            _ => false,
        }
    }

    /// An equal value.
    #[cycle(copy)]
    #[tactic(auto, using(crate::proofs::Kids::depth_at, crate::proofs::Kids::row_injective))]
    pub fn copy(&self, alloc: Global) -> Result<Value, NoMemory>
        ensures { IfOk result (λ v. v ≡ self.now) }
    {
        match &self.node {
            ValueNode::Bool(b) => Ok(Value::truth(*b)),
            ValueNode::Int(n) => Ok(Value::number(*n)),
            ValueNode::Text(t) => Ok(Value::text(t.copy(alloc)?)),
            ValueNode::Tree(op, kids) => Ok(Value::tree(*op, copy_all(alloc, kids)?)),
            ValueNode::Fault(kind) => Ok(Value::fault(*kind)),
        }
    }

    /// The size and the depth of the value, each as far as one past its limit.
    pub fn measure(&self) -> (u32, u32)
        ensures size { result.0 ≡ min (size_of self.now) 65537 }
        ensures depth { result.1 ≡ min (depth_of self.now) 1025 }
    {
        (self.size, self.depth)
    }
}

// whether both are the same values in the same order
#[cycle(same)]
#[tactic(auto, using(crate::proofs::Kids::depth_at, crate::proofs::Kids::row_injective))]
fn are_same(xs: &[Value], ys: &[Value]) -> bool
    ensures { IsTrue result ↔ (xs.now ≡ ys.now) }
{
    if xs.len() != ys.len() {
        return false;
    }
    for i in 0..xs.len() {
        if !xs[i].same(&ys[i]) {
            return false;
        }
    }
    true
}

// equal values in the same order
#[cycle(copy)]
#[tactic(auto, using(crate::proofs::Kids::depth_at, crate::proofs::Kids::row_injective))]
fn copy_all(alloc: Global, values: &[Value]) -> Result<Kids, NoMemory>
    ensures { IfOk result (λ v. v.items ≡ values.now) }
{
    let mut copies = Vec::with_capacity(alloc, values.len())?;
    for value in values {
        copies.push(value.copy(alloc)?)?;
    }
    Ok(copies)
}

// the size and the depth of a tree with these children, as far as one past their limits
fn measures(kids: &[Value]) -> (u32, u32)
    ensures size { result.0 ≡ min (1 + sizes_of (row_of kids.now)) 65537 }
    ensures depth { result.1 ≡ min (1 + depths_of (row_of kids.now)) 1025 }
{
    let mut size: u32 = 1;
    let mut depth: u32 = 1;
    for kid in kids {
        let (kid_size, kid_depth) = kid.measure();
        size = (size + kid_size).min(VALUE_SIZE + 1);
        depth = depth.max((kid_depth + 1).min(VALUE_DEPTH + 1));
    }
    (size, depth)
}
