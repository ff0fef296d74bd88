// The next place that is found.
ghost use Rattle.std.specs.Prelude.{◌≡◌, ◌<◌, ◌&&◌, Some, IfOk, IfSome, drop, slice_get, true};
ghost use Rattle.std.specs.List.{find};
ghost use Rattle.sg_kinds.specs.Places.{Place};
ghost use Rattle.sg_kinds.specs.Terms.{Term};
ghost use Rattle.sg_kinds.specs.Values.{Bytes};
ghost use Rattle.sg_forest.specs.Trees.{IsLive};
ghost use Rattle.sg_groves.specs.Grove.{nodes, spec_shown};
ghost use Rattle.sg_groves.specs.Holds.{Holds, IsPlaced};
ghost use Rattle.sg_select.specs.Around.{after, inside, kids, part, parts};
ghost use Rattle.sg_select.specs.Leads.{LeadsTo};
ghost use Rattle.sg_select.specs.RestingPlaces.{child_place, rests, rests_under};
ghost use Rattle.sg_search.specs.Found.{applies_at, applies_to, found_behind};
ghost use Rattle.sg_search.specs.Heads.{IsSought};

use crate::heads::{Sought, is_match, sought_by};
use sg_forest::NodeId;
use sg_kinds::marks::ChildPlace;
use sg_kinds::memory::NoMemory;
use sg_select::{is_shown, items_of, kid_count, place_in, rests_at};
use sg_terms::Terms;
use std::alloc::Global;

/// The first resting place in the view behind one, in the tree of a root, at which a transformation of a name applies;
/// None exactly where there is none. Each node that can be reached is looked at once; of those at which none applies
/// it is not asked whether they rest.
pub fn next_found(
    alloc: Global,
    terms: &Terms,
    root: NodeId,
    n: NodeId,
    name: &[u8],
) -> Result<Option<NodeId>, NoMemory>
    requires { (t : Term) × (u : Place) × IsPlaced terms.now root t u n × (rests (spec_shown terms.now) t u ≡ true) }
    ensures live { IfOk result (λ r. IfSome r (IsLive (nodes terms.now))) }
    ensures leads { (t : Term) (u : Place) → IsPlaced terms.now root t u n → rests (spec_shown terms.now) t u ≡ true
        → IfOk result (LeadsTo terms.now root (found_behind terms.now.spec terms.now.view name.now t u)) }
{
    terms.facts();
    let sought = sought_by(alloc, terms, name)?;
    match found_inside(terms, &sought, n) {
        Some(found) => Ok(Some(found)),
        None => Ok(found_after(terms, &sought, n)),
    }
}

// the first after a node and all below it
fn found_after(terms: &Terms, sought: &Sought, n: NodeId) -> Option<NodeId>
    requires live { IsLive (nodes terms.now) n }
    requires sought { (name : Bytes) × IsSought terms.now.spec name sought.now }
    ensures live { IfSome result (IsLive (nodes terms.now)) }
    ensures leads { (name : Bytes) (root : _) (t : Term) (u : Place) → IsSought terms.now.spec name sought.now
        → IsPlaced terms.now root t u n
        → LeadsTo terms.now root (find (applies_at terms.now.spec name t) (after (spec_shown terms.now) t u)) result }
{
    terms.facts();
    let mut at = n;
    while let Some((above, k)) = terms.parent(at) {
        if let Some(found) = found_from(terms, sought, above, k + 1) {
            return Some(found);
        }
        at = above;
    }
    None
}

// the first below a node that can be reached
#[cycle(seek)]
fn found_inside(terms: &Terms, sought: &Sought, n: NodeId) -> Option<NodeId>
    requires live { IsLive (nodes terms.now) n }
    requires sought { (name : Bytes) × IsSought terms.now.spec name sought.now }
    ensures live { IfSome result (IsLive (nodes terms.now)) }
    ensures leads { (name : Bytes) (root : _) (t x : Term) (u : Place) → IsSought terms.now.spec name sought.now
        → IsPlaced terms.now root t u n → Holds terms.now n x
        → LeadsTo terms.now root (find (applies_at terms.now.spec name t) (inside (spec_shown terms.now) u x)) result }
{
    terms.facts();
    if terms.elided(n) {
        return None;
    }
    found_from(terms, sought, n, 0)
}

// the first below the children of a node, from number `from` on
#[cycle(seek)]
fn found_from(terms: &Terms, sought: &Sought, n: NodeId, from: usize) -> Option<NodeId>
    requires live { IsLive (nodes terms.now) n }
    requires sought { (name : Bytes) × IsSought terms.now.spec name sought.now }
    ensures live { IfSome result (IsLive (nodes terms.now)) }
    ensures leads { (name : Bytes) (root : _) (t x : Term) (u : Place) → IsSought terms.now.spec name sought.now
        → IsPlaced terms.now root t u n → Holds terms.now n x
        → LeadsTo terms.now root (find (applies_at terms.now.spec name t)
        (parts (spec_shown terms.now) u x from (drop from (kids x)))) result }
{
    let count = kid_count(terms, n);
    if from >= count {
        return None;
    }
    let items = items_of(terms, n);
    for k in from..count {
        if let Some(found) = found_at(terms, sought, n, k, place_in(items, k)) {
            return Some(found);
        }
    }
    None
}

// the first at or below a child that has this place in the node's current scheme
#[cycle(seek)]
fn found_at(
    terms: &Terms,
    sought: &Sought,
    n: NodeId,
    k: usize,
    place: ChildPlace,
) -> Option<NodeId>
    requires live { IsLive (nodes terms.now) n }
    requires kid { (x : _) → nodes terms.now n ≡ Some x → k < x.label.arity }
    requires sought { (name : Bytes) × IsSought terms.now.spec name sought.now }
    ensures live { IfSome result (IsLive (nodes terms.now)) }
    ensures leads { (name : Bytes) (root : _) (t x y : Term) (u : Place) → IsSought terms.now.spec name sought.now
        → IsPlaced terms.now root t u n → Holds terms.now n x → slice_get (kids x) k ≡ Some y
        → place ≡ child_place (spec_shown terms.now) x k
        → LeadsTo terms.now root (find (applies_at terms.now.spec name t) (part (spec_shown terms.now) u x k y)) result }
{
    terms.facts();
    if !is_shown(place) {
        return None;
    }
    let kid = terms.kid(n, k);
    if is_found(terms, sought, n, k, kid, place) {
        return Some(kid);
    }
    found_inside(terms, sought, kid)
}

// whether a transformation applies at a child that can be reached, and it rests
fn is_found(
    terms: &Terms,
    sought: &Sought,
    n: NodeId,
    k: usize,
    kid: NodeId,
    place: ChildPlace,
) -> bool
    requires node { IsLive (nodes terms.now) n }
    requires kid { IsLive (nodes terms.now) kid }
    requires sought { (name : Bytes) × IsSought terms.now.spec name sought.now }
    ensures { (name : Bytes) (x y : Term) → IsSought terms.now.spec name sought.now → Holds terms.now n x
        → Holds terms.now kid y → place ≡ child_place (spec_shown terms.now) x k
        → result ≡ (applies_to terms.now.spec name y && rests_under (spec_shown terms.now) x k y) }
{
    is_match(terms, sought, kid) && rests_at(terms, n, k, kid, place)
}
