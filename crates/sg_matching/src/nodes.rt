// What stands at a node and below it.
ghost use Rattle.std.specs.Prelude.{◌≡◌, ◌≢◌, ◌<◌, ◌+◌, ◌↔◌, ℕ, [], IsTrue, IfSome, MatchBool, MatchOption, Some, None, length, slice_get};
ghost use Rattle.sg_kinds.specs.Values.{Values, Chars, Tree, NoValue, AndValue, same_value};
ghost use Rattle.sg_kinds.specs.PatternView.{literal_of};
ghost use Rattle.sg_kinds.specs.Specification.{args_of};
ghost use Rattle.sg_pool.specs.PoolEntries.{entry_value};
ghost use Rattle.sg_forest.specs.Trees.{IsLive};
ghost use Rattle.sg_groves.specs.Grove.{nodes};
ghost use Rattle.sg_terms.specs.Found.{op_at};
ghost use Rattle.sg_matching.specs.Under.{value_under, values_under};

use sg_forest::NodeId;
use sg_kinds::ids::{OpId, PhylumId};
use sg_kinds::pattern::Literal;
use sg_kinds::row::item;
use sg_kinds::spec::Spec;
use sg_pool::entry::PoolEntry;
use sg_terms::Terms;

/// The phyla of an operator's arguments.
pub fn args(spec: &Spec, op: OpId) -> &[PhylumId]
    requires { op < length spec.now.ops }
    ensures { result.now ≡ args_of spec.now.ops op }
{
    item(spec.ops.as_slice(), op.number as usize)
        .args
        .as_slice()
}

/// The phylum of an operator's first argument.
pub fn first_arg(spec: &Spec, op: OpId) -> Option<PhylumId>
    requires { op < length spec.now.ops }
    ensures { result ≡ slice_get (args_of spec.now.ops op) 0 }
{
    args(spec, op).get(0).copied()
}

/// Whether a node is of an operator.
pub fn is_of(terms: &Terms, op: OpId, n: NodeId) -> bool
    requires { IsLive (nodes terms.now) n }
    ensures op { IsTrue result ↔ (op_at terms.now n ≡ Some op) }
    ensures value { MatchBool result (value_under terms.now n ≡ Tree op (values_under terms.now n 0))
        ((vs : Values) → value_under terms.now n ≢ Tree op vs) }
{
    terms.facts();
    terms.op(n) == Some(op)
}

/// Child `k` of a node, counted from 0; None past the last. It is below 16.
pub fn kid_at(terms: &Terms, n: NodeId, k: usize) -> Option<NodeId>
    requires { IsLive (nodes terms.now) n }
    ensures live { IfSome result (IsLive (nodes terms.now)) }
    ensures values { MatchOption result (values_under terms.now n k ≡ NoValue) (λ kid.
        values_under terms.now n k ≡ AndValue (value_under terms.now kid) (values_under terms.now n (k + 1))) }
    ensures few { IfSome result (λ kid. k < 16) }
{
    terms.facts();
    let Some(op) = terms.op(n) else {
        return None;
    };
    if k < args(terms.spec(), op).len() {
        Some(terms.kid(n, k))
    } else {
        None
    }
}

// the entry of a leaf's value; None at a node of an operator
fn leaf<'a>(terms: &'a Terms, n: NodeId) -> Option<&'a PoolEntry>
    requires { IsLive (nodes terms.now) n }
    ensures { MatchOption result ((op : ℕ) × (value_under terms.now n ≡ Tree op (values_under terms.now n 0)))
        (λ entry. value_under terms.now n ≡ entry_value terms.now.pool entry.now) }
{
    terms.facts();
    if terms.op(n).is_some() {
        return None;
    }
    Some(terms.pool().entry(terms.stored(n, 0)))
}

/// Whether the value under a node is that of a literal.
pub fn is_literal(terms: &Terms, literal: &Literal, n: NodeId) -> bool
    requires { IsLive (nodes terms.now) n }
    ensures { result ≡ same_value (literal_of literal.now) (value_under terms.now n) }
{
    let Some(entry) = leaf(terms, n) else {
        return false;
    };
    match (literal, entry) {
        (Literal::Truth(a), PoolEntry::Bool(b)) => *a == *b,
        (Literal::Number(a), PoolEntry::Int(b)) => *a == *b,
        (Literal::Text(a), PoolEntry::Text(b)) => a.as_slice() == b.as_slice(),
        _ => false,
    }
}

/// Whether the value under a node is the empty text.
pub fn is_empty_text(terms: &Terms, n: NodeId) -> bool
    requires { IsLive (nodes terms.now) n }
    ensures { result ≡ same_value (Chars []) (value_under terms.now n) }
{
    let Some(entry) = leaf(terms, n) else {
        return false;
    };
    match entry {
        PoolEntry::Text(text) => text.len() == 0,
        _ => false,
    }
}
