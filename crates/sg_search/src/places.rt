// The places at which a transformation of a name applies.
ghost use Rattle.std.specs.Prelude.{◌≡◌, ◌<◌, ◌∷◌, ◌++◌, [], bytes_eq, filter, if◌then◌else◌, length, IfOk, OnOk, Some};
ghost use Rattle.sg_kinds.specs.Places.{Place, places_from, sub};
ghost use Rattle.sg_kinds.specs.Specification.{args_of};
ghost use Rattle.sg_kinds.specs.Terms.{Term};
ghost use Rattle.sg_kinds.specs.Values.{Bytes};
ghost use Rattle.sg_forest.specs.Trees.{Climbs, IsLive};
ghost use Rattle.sg_groves.specs.Grove.{nodes};
ghost use Rattle.sg_groves.specs.Holds.{Holds};
ghost use Rattle.sg_matching.specs.Transformation.{numbers_of};
ghost use Rattle.sg_search.specs.Found.{applies_at, applies_to, found, is_known};
ghost use Rattle.sg_search.specs.Gathered.{AreAt, Gained};

use sg_forest::NodeId;
use sg_kinds::ids::{OpId, PatternId};
use sg_kinds::memory::NoMemory;
use sg_kinds::row::item;
use sg_kinds::spec::{Spec, Transform};
use sg_matching::{found_by, numbers_of};
use sg_terms::Terms;
use std::alloc::Global;

/// Whether some phylum has a transformation of a name. It takes no memory.
pub fn is_known(spec: &Spec, name: &[u8]) -> bool
    ensures { result ≡ is_known spec.now name.now }
{
    spec.transforms.as_slice().iter().any(|x| has_name(x, name))
}

/// Whether a transformation has a name.
pub fn has_name(x: &Transform, name: &[u8]) -> bool
    ensures { result ≡ bytes_eq x.now.name name.now }
{
    x.name.as_slice() == name
}

/// Whether a transformation of a name applies at a node, by the numbers of those of the name. It takes no memory.
pub fn applies(terms: &Terms, numbers: &[PatternId], n: NodeId) -> bool
    requires live { IsLive (nodes terms.now) n }
    requires named { (name : Bytes) × (numbers.now ≡ numbers_of terms.now.spec name) }
    ensures { (name : Bytes) (t : Term) → numbers.now ≡ numbers_of terms.now.spec name → Holds terms.now n t
        → result ≡ applies_to terms.now.spec name t }
{
    terms.facts();
    found_by(terms, numbers, n).is_some()
}

/// How many children a node of an operator has.
pub fn kid_count(terms: &Terms, op: OpId) -> usize
    requires { op < length terms.now.spec.ops }
    ensures { result ≡ length (args_of terms.now.spec.ops op) }
{
    item(terms.spec().ops.as_slice(), op.number as usize)
        .args
        .len()
}

/// The nodes at and below a node at which a transformation of a name applies, a node before its children.
pub fn found(
    alloc: Global,
    terms: &Terms,
    root: NodeId,
    name: &[u8],
) -> Result<Vec<NodeId>, NoMemory>
    requires { IsLive (nodes terms.now) root }
    ensures places { IfOk result (λ v. (x : Term) → Holds terms.now root x
        → AreAt terms.now root v.items (found terms.now.spec name.now x)) }
{
    let numbers = numbers_of(alloc, terms, name)?;
    let mut places = Vec::new(alloc);
    gather(terms, root, &numbers, &mut places)?;
    Ok(places)
}

// puts a node behind `places`, where a test is true
fn push_if(places: &mut Vec<NodeId>, n: NodeId, on: bool) -> Result<(), NoMemory>
    ensures { OnOk result (places.new.items ≡ (if on then places.old.items ++ n ∷ [] else places.old.items)) }
{
    if on {
        places.push(n)?;
    }
    Ok(())
}

// puts those at and below a node behind `places`
fn gather(
    terms: &Terms,
    n: NodeId,
    numbers: &[PatternId],
    places: &mut Vec<NodeId>,
) -> Result<(), NoMemory>
    requires live { IsLive (nodes terms.now) n }
    requires named { (name : Bytes) × (numbers.now ≡ numbers_of terms.now.spec name) }
    ensures { (name : Bytes) (root : _) (t x : Term) (u : Place) → numbers.now ≡ numbers_of terms.now.spec name
        → Holds terms.now root t → Climbs (nodes terms.now) u n root → sub t u ≡ Some x
        → OnOk result (Gained terms.now root places.old.items places.new.items
        (filter (applies_at terms.now.spec name t) (places_from u x))) }
{
    terms.facts();
    push_if(places, n, applies(terms, numbers, n))?;
    let Some(op) = terms.op(n) else {
        return Ok(());
    };
    let count = kid_count(terms, op);
    for k in 0..count {
        gather(terms, terms.kid(n, k), numbers, places)?;
    }
    Ok(())
}
