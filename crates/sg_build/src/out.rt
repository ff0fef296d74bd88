// Terms and values out of a forest.
ghost use Rattle.std.specs.Prelude.{◌≡◌, ℕ, None, IfOk};
ghost use Rattle.sg_kinds.specs.Terms.{Term as IsTerm, Leaf};
ghost use Rattle.sg_kinds.specs.ValueOf.{value_of};
ghost use Rattle.sg_kinds.specs.Values.{Value as IsValue};
ghost use Rattle.sg_forest.specs.Trees.{IsLive};
ghost use Rattle.sg_groves.specs.Grove.{nodes};
ghost use Rattle.sg_groves.specs.Holds.{Holds};
ghost use Rattle.sg_terms.specs.Found.{op_at};

use crate::held::kid_count;
use sg_forest::NodeId;
use sg_kinds::memory::NoMemory;
use sg_kinds::term::{Term, TermNode};
use sg_kinds::value::Value;
use sg_terms::Terms;
use std::alloc::Global;

// the value of a leaf
fn leaf_value(alloc: Global, terms: &Terms, n: NodeId) -> Result<Value, NoMemory>
    requires live { IsLive (nodes terms.now) n }
    requires leaf { op_at terms.now n ≡ None }
    ensures { IfOk result (λ v. (p : ℕ) (w : IsValue) → Holds terms.now n (Leaf p w) → v ≡ w) }
{
    terms.facts();
    terms.pool().value(alloc, terms.stored(n, 0))
}

/// The term that a node holds, with its scheme numbers and marks. It is refused for want of memory alone.
pub fn copy_out(alloc: Global, terms: &Terms, n: NodeId) -> Result<Term, NoMemory>
    requires { IsLive (nodes terms.now) n }
    ensures { IfOk result (Holds terms.now n) }
{
    terms.facts();
    let Some(op) = terms.op(n) else {
        let value = leaf_value(alloc, terms, n)?;
        return Ok(Term::leaf(terms.phylum(n), value));
    };
    let count = kid_count(terms, op);
    let mut kids = Vec::with_capacity(alloc, count)?;
    for k in 0..count {
        kids.push(copy_out(alloc, terms, terms.kid(n, k))?)?;
    }
    Ok(Term {
        node: TermNode::Node(op, terms.scheme(n), terms.elided(n), kids),
    })
}

/// The value of the term that a node holds. It is refused for want of memory alone.
pub fn value_out(alloc: Global, terms: &Terms, n: NodeId) -> Result<Value, NoMemory>
    requires { IsLive (nodes terms.now) n }
    ensures { IfOk result (λ v. (t : IsTerm) → Holds terms.now n t → v ≡ value_of t) }
{
    terms.facts();
    let Some(op) = terms.op(n) else {
        return leaf_value(alloc, terms, n);
    };
    let count = kid_count(terms, op);
    let mut kids = Vec::with_capacity(alloc, count)?;
    for k in 0..count {
        kids.push(value_out(alloc, terms, terms.kid(n, k))?)?;
    }
    Ok(Value::tree(op, kids))
}
