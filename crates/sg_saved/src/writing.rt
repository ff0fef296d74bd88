//! Held terms as files.
ghost use Rattle.std.specs.Prelude.{◌≡◌, ◌<◌, ◌++◌, ℕ, None, length, OnOk, IfOk};
ghost use Rattle.sg_kinds.specs.Specification.{args_of};
ghost use Rattle.sg_kinds.specs.Terms.{Term, Leaf};
ghost use Rattle.sg_kinds.specs.ValueOf.{value_of};
ghost use Rattle.sg_kinds.specs.Values.{Value};
ghost use Rattle.sg_forest.specs.Trees.{IsLive};
ghost use Rattle.sg_groves.specs.Grove.{nodes};
ghost use Rattle.sg_groves.specs.Holds.{Holds};
ghost use Rattle.sg_terms.specs.Found.{op_at};
ghost use Rattle.sg_saved.specs.Spelling.{spelled, saved};

use crate::parts::{operator_name, put_number, put_text, put_truth};
use sg_forest::NodeId;
use sg_kinds::ids::OpId;
use sg_kinds::memory::NoMemory;
use sg_kinds::row::item;
use sg_pool::entry::PoolEntry;
use sg_terms::Terms;
use std::alloc::Global;

/// How many children a node of an operator has.
fn kid_count(terms: &Terms, op: OpId) -> usize
    requires { op < length terms.now.spec.ops }
    ensures { result ≡ length (args_of terms.now.spec.ops op) }
{
    item(terms.spec().ops.as_slice(), op.number as usize)
        .args
        .len()
}

/// Writes the value of a leaf.
fn put_leaf(out: &mut Vec<u8>, terms: &Terms, n: NodeId) -> Result<(), NoMemory>
    requires live { IsLive (nodes terms.now) n }
    requires leaf { op_at terms.now n ≡ None }
    ensures { OnOk result ((p : ℕ) (v : Value) → Holds terms.now n (Leaf p v)
        → out.new.items ≡ out.old.items ++ spelled terms.now.spec v) }
{
    terms.facts();
    match terms.pool().entry(terms.stored(n, 0)) {
        PoolEntry::Bool(b) => put_truth(out, *b),
        PoolEntry::Int(n) => put_number(out, n),
        PoolEntry::Text(text) => put_text(out, text.as_slice()),
        PoolEntry::Tree(_, _) | PoolEntry::Fault(_) => put_text(out, b""),
    }
}

/// Writes the term that a node holds.
fn put_node(out: &mut Vec<u8>, terms: &Terms, n: NodeId) -> Result<(), NoMemory>
    requires { IsLive (nodes terms.now) n }
    ensures { OnOk result ((t : Term) → Holds terms.now n t
        → out.new.items ≡ out.old.items ++ spelled terms.now.spec (value_of t)) }
{
    terms.facts();
    let Some(op) = terms.op(n) else {
        return put_leaf(out, terms, n);
    };
    let count = kid_count(terms, op);
    out.extend_from_slice(operator_name(terms.spec(), op))?;
    out.push(b'(')?;
    for k in 0..count {
        if k > 0 {
            out.push(b',')?;
        }
        put_node(out, terms, terms.kid(n, k))?;
    }
    out.push(b')')?;
    Ok(())
}

/// The file of the term that a node holds: a line `SGT1` and a line with the term. Scheme numbers and marks are not
/// saved. It is refused for want of memory alone.
pub fn write(alloc: Global, terms: &Terms, root: NodeId) -> Result<Vec<u8>, NoMemory>
    requires { IsLive (nodes terms.now) root }
    ensures { IfOk result (λ out. (t : Term) → Holds terms.now root t
        → out.items ≡ saved terms.now.spec (value_of t)) }
{
    let mut out = Vec::from_slice(alloc, b"SGT1\n")?;
    put_node(&mut out, terms, root)?;
    out.push(b'\n')?;
    Ok(out)
}
