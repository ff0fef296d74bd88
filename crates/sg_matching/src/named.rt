// The transformations of a name.
ghost use Rattle.std.specs.Prelude.{◌≡◌, ◌≢◌, ◌<◌, ℕ, IfOk, IfSome, MatchBool, MatchResult, length, nat_eq};
ghost use Rattle.std.specs.List.{list_any, position_from};
ghost use Rattle.sg_kinds.specs.Terms.{Term as IsTerm};
ghost use Rattle.sg_kinds.specs.ValueOf.{value_of};
ghost use Rattle.sg_kinds.specs.Values.{Bytes, Fault};
ghost use Rattle.sg_kinds.specs.Fits.{Fits};
ghost use Rattle.sg_kinds.specs.OfType.{IsOfType};
ghost use Rattle.sg_kinds.specs.Plain.{plain};
ghost use Rattle.sg_kinds.specs.declared.marks.FaultKind.{FaultKind as IsFault};
ghost use Rattle.sg_forest.specs.Trees.{IsLive};
ghost use Rattle.sg_groves.specs.Grove.{nodes};
ghost use Rattle.sg_groves.specs.Holds.{Holds};
ghost use Rattle.sg_matching.specs.Transformation.{is_of_name, applies, numbers_of, suits_at, transformation, Gives};
ghost use Rattle.sg_matching.specs.Under.{value_under};
ghost use Rattle.sg_matching.specs.Refusal.{IsRefused};
ghost use Rattle.sg_matching.specs.declared.named.TransformFault.TheVariants.{NoMemory as TransformNoMemory};

use crate::bindings::bindings;
use crate::patterns::is_match;
use sg_eval::Evaluator;
use sg_forest::NodeId;
use sg_kinds::ids::{PatternId, PhylumId};
use sg_kinds::marks::FaultKind;
use sg_kinds::memory::NoMemory;
use sg_kinds::row::item;
use sg_kinds::spec::{Spec, Transform};
use sg_kinds::term::Term;
use sg_kinds::value::{Value, ValueNode};
use sg_terms::Terms;
use std::alloc::{AllocError, Global};

/// Why a transformation has no result.
#[derive(Clone, Copy, PartialEq, Eq)]
pub enum TransformFault {
    /// none of the name stands on the phylum
    Unknown,
    /// no pattern of theirs matches
    NoMatch,
    /// the outcome is a fault
    Outcome(FaultKind),
    NoMemory,
}

impl From<AllocError> for TransformFault {
    ghost from_gives = { λ _ e. e ≡ TransformNoMemory };

    fn from(_: AllocError) -> TransformFault {
        TransformFault::NoMemory
    }
}

/// Whether some transformation of a name stands on a phylum.
pub fn is_named(spec: &Spec, p: PhylumId, name: &[u8]) -> bool
    ensures { result ≡ list_any (is_of_name p name.now) spec.now.transforms }
{
    spec.transforms
        .as_slice()
        .iter()
        .any(|x| has_name(x, p, name))
}

// whether a transformation stands on the phylum and has the name
fn has_name(x: &Transform, p: PhylumId, name: &[u8]) -> bool
    ensures { result ≡ is_of_name p name.now x.now }
{
    x.phylum == p && x.name.as_slice() == name
}

/// The numbers of the transformations of a name, in source order.
pub fn numbers_of(alloc: Global, terms: &Terms, name: &[u8]) -> Result<Vec<PatternId>, NoMemory>
    ensures { IfOk result (λ v. v.items ≡ numbers_of terms.now.spec name.now) }
{
    terms.facts();
    let mut numbers = Vec::new(alloc);
    for (k, x) in terms.spec().transforms.as_slice().iter().enumerate() {
        if x.name.as_slice() == name {
            numbers.push(PatternId { number: k as u32 })?;
        }
    }
    Ok(numbers)
}

/// The first transformation of a name, in source order, that stands on a node's phylum and whose pattern matches the
/// term under the node, by the numbers of those of the name. It takes no memory. Its cost is that of their patterns.
pub fn found_by(terms: &Terms, numbers: &[PatternId], at: NodeId) -> Option<PatternId>
    requires live { IsLive (nodes terms.now) at }
    requires named { (name : Bytes) × (numbers.now ≡ numbers_of terms.now.spec name) }
    ensures first { (name : Bytes) (p : ℕ) (t : IsTerm) → numbers.now ≡ numbers_of terms.now.spec name
        → Holds terms.now at t → Fits terms.now.spec t p
        → result ≡ position_from (applies terms.now.spec p name (value_of t)) 0 terms.now.spec.transforms }
    ensures within { IfSome result (λ k. k < length terms.now.spec.transforms) }
{
    terms.facts();
    let p = terms.phylum(at);
    for &k in numbers {
        if suits(terms, k, p, at) {
            return Some(k);
        }
    }
    None
}

// whether a transformation stands on a phylum and its pattern matches the term under a node
fn suits(terms: &Terms, k: PatternId, p: PhylumId, at: NodeId) -> bool
    requires within { k < length terms.now.spec.transforms }
    requires live { IsLive (nodes terms.now) at }
    ensures { result ≡ suits_at terms.now.spec p (value_under terms.now at) k }
{
    terms.facts();
    let transform = item(terms.spec().transforms.as_slice(), k.number as usize);
    if !stands_on(transform, p) {
        return false;
    }
    is_match(terms, &transform.pattern.tree, at)
}

// whether a transformation stands on a phylum
fn stands_on(x: &Transform, p: PhylumId) -> bool
    ensures { result ≡ nat_eq x.now.phylum p }
{
    x.phylum == p
}

/// What the transformations of a name give at a node: the outcome of the first, in source order, that stands on the
/// node's phylum and whose pattern matches the term under the node. It is of that phylum.
pub fn transform(
    alloc: Global,
    terms: &Terms,
    ev: &Evaluator,
    name: &[u8],
    at: NodeId,
) -> Result<Value, TransformFault>
    requires same { ev.now ≡ terms.now.spec }
    requires live { IsLive (nodes terms.now) at }
    ensures given { (p : ℕ) (t : IsTerm) → Holds terms.now at t → Fits terms.now.spec t p → MatchResult result
        (λ v. transformation terms.now.spec p name.now (value_of t) ≡ Gives v)
        (λ e. IsRefused e (transformation terms.now.spec p name.now (value_of t))) }
    ensures typed { (p : ℕ) (t : IsTerm) → Holds terms.now at t → Fits terms.now.spec t p
        → IfOk result (IsOfType terms.now.spec p) }
    ensures no_fault { IfOk result (λ v. (kind : IsFault) → v ≢ Fault kind) }
{
    let numbers = numbers_of(alloc, terms, name)?;
    let Some(first) = found_by(terms, &numbers, at) else {
        return Err(missing(terms.spec(), terms.phylum(at), name));
    };
    terms.facts();
    let x = item(terms.spec().transforms.as_slice(), first.number as usize);
    let bound = bindings(alloc, terms, &x.pattern.tree, at)?;
    let v = ev.apply(x.expr, &bound)?;
    settled(v)
}

// why no transformation of a name applies
fn missing(spec: &Spec, p: PhylumId, name: &[u8]) -> TransformFault
    ensures { MatchBool (list_any (is_of_name p name.now) spec.now.transforms)
        (result ≡ TransformFault.NoMatch) (result ≡ TransformFault.Unknown) }
{
    if is_named(spec, p, name) {
        TransformFault::NoMatch
    } else {
        TransformFault::Unknown
    }
}

// a fault is no result
fn settled(v: Value) -> Result<Value, TransformFault>
    ensures given { MatchResult result (λ w. w ≡ v) (λ e. IsRefused e (Gives v)) }
    ensures no_fault { IfOk result (λ w. (kind : IsFault) → w ≢ Fault kind) }
{
    if let ValueNode::Fault(kind) = v.node {
        return Err(TransformFault::Outcome(kind));
    }
    Ok(v)
}

/// The plain term of what `transform` gives. It fits the node's phylum.
pub fn transformed(
    alloc: Global,
    terms: &Terms,
    ev: &Evaluator,
    name: &[u8],
    at: NodeId,
) -> Result<Term, TransformFault>
    requires same { ev.now ≡ terms.now.spec }
    requires live { IsLive (nodes terms.now) at }
    ensures given { (p : ℕ) (t : IsTerm) → Holds terms.now at t → Fits terms.now.spec t p → MatchResult result
        (λ s. transformation terms.now.spec p name.now (value_of t) ≡ Gives (value_of s))
        (λ e. IsRefused e (transformation terms.now.spec p name.now (value_of t))) }
    ensures plain { (p : ℕ) (t : IsTerm) → Holds terms.now at t → Fits terms.now.spec t p
        → IfOk result (λ s. s ≡ plain terms.now.spec (value_of s) p) }
    ensures fits { (p : ℕ) (t : IsTerm) → Holds terms.now at t → Fits terms.now.spec t p
        → IfOk result (λ s. Fits terms.now.spec s p) }
{
    let v = transform(alloc, terms, ev, name, at)?;
    terms.facts();
    Ok(terms.spec().plain(alloc, &v, terms.phylum(at))?)
}
