// What is sought in a term: the transformations of a name, and the operators at which they can apply.
ghost use Rattle.std.specs.Prelude.{◌≡◌, ℕ, IfOk, IfSome, IsTrue, Some, false, nat_eq, slice_get};
ghost use Rattle.sg_kinds.specs.PatternView.{pattern_of};
ghost use Rattle.sg_kinds.specs.Terms.{Term};
ghost use Rattle.sg_kinds.specs.Values.{Bytes};
ghost use Rattle.sg_forest.specs.Trees.{IsLive};
ghost use Rattle.sg_groves.specs.Grove.{nodes};
ghost use Rattle.sg_groves.specs.Holds.{Holds};
ghost use Rattle.sg_terms.specs.Labels.{op_of};
ghost use Rattle.sg_search.specs.Found.{applies_to};
ghost use Rattle.sg_search.specs.Heads.{AreHeads, IsSought, may_apply, may_match};

use crate::places::{applies, has_name};
use sg_forest::NodeId;
use sg_kinds::ids::{OpId, PatternId};
use sg_kinds::memory::NoMemory;
use sg_kinds::pattern::PatternTree;
use sg_kinds::spec::Transform;
use sg_matching::numbers_of;
use sg_terms::Terms;
use std::alloc::Global;

/// What is sought.
#[derive(Drop)]
pub struct Sought {
    /// the numbers of the transformations of a name, in source order
    pub numbers: Vec<PatternId>,
    /// for each operator whether a pattern of theirs can match a term of it; empty where that may be any
    pub heads: Vec<bool>,
}

/// What a name seeks.
pub fn sought_by(alloc: Global, terms: &Terms, name: &[u8]) -> Result<Sought, NoMemory>
    ensures { IfOk result (IsSought terms.now.spec name.now) }
{
    let numbers = numbers_of(alloc, terms, name)?;
    let heads = heads_of(alloc, terms, name)?;
    Ok(Sought { numbers, heads })
}

// the marks of the operators; none where a pattern of theirs may match terms of any operator
fn heads_of(alloc: Global, terms: &Terms, name: &[u8]) -> Result<Vec<bool>, NoMemory>
    ensures { IfOk result (λ v. AreHeads terms.now.spec name.now v.items) }
{
    let mut heads = vec![in alloc; false; terms.spec().ops.len()]?;
    for x in terms.spec().transforms.as_slice() {
        if !mark(&mut heads, x, name) {
            return Ok(Vec::new(alloc));
        }
    }
    Ok(heads)
}

// marks the operator of whose terms a transformation of the name can match one; false where it may be any
fn mark(heads: &mut [bool], x: &Transform, name: &[u8]) -> bool
    ensures { IsTrue result → (op : ℕ) → slice_get heads.new op ≡ Some false
        → (slice_get heads.old op ≡ Some false) × (may_apply name.now op x.now ≡ false) }
{
    if !has_name(x, name) {
        return true;
    }
    match head(&x.pattern.tree) {
        Some(op) => {
            set(heads, op.number as usize);
            true
        }
        None => false,
    }
}

// marks one
fn set(heads: &mut [bool], k: usize)
    ensures { (op : ℕ) → slice_get heads.new op ≡ Some false
        → (slice_get heads.old op ≡ Some false) × (nat_eq k op ≡ false) }
{
    if k < heads.len() {
        heads[k] = true;
    }
}

// the operator of which a term must be that a pattern matches
fn head(pattern: &PatternTree) -> Option<OpId>
    ensures { IfSome result (λ op. (o : ℕ) → may_match (pattern_of pattern.now) o ≡ nat_eq op o) }
{
    match pattern {
        PatternTree::Operator(op, _) => Some(*op),
        _ => None,
    }
}

/// Whether a transformation that is sought applies at a node.
pub fn is_match(terms: &Terms, sought: &Sought, n: NodeId) -> bool
    requires live { IsLive (nodes terms.now) n }
    requires sought { (name : Bytes) × IsSought terms.now.spec name sought.now }
    ensures { (name : Bytes) (t : Term) → IsSought terms.now.spec name sought.now → Holds terms.now n t
        → result ≡ applies_to terms.now.spec name t }
{
    if is_other(terms, &sought.heads, n) {
        return false;
    }
    applies(terms, &sought.numbers, n)
}

// whether a node is of an operator that is marked false
fn is_other(terms: &Terms, heads: &[bool], n: NodeId) -> bool
    requires { IsLive (nodes terms.now) n }
    ensures { IsTrue result → (t : Term) → Holds terms.now n t
        → (op : ℕ) × (op_of t ≡ Some op) × (slice_get heads.now op ≡ Some false) }
{
    match terms.op(n) {
        Some(op) => heads.get(op.number as usize) == Some(&false),
        None => false,
    }
}
