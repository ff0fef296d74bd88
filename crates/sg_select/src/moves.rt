// The moves from one resting place to another.
ghost use Rattle.std.specs.Prelude.{◌≡◌, ◌∷◌, ◌⊎◌, IfSome, IsTrue, None, Option, Some, slice_get, true};
ghost use Rattle.sg_kinds.specs.Places.{Place};
ghost use Rattle.sg_kinds.specs.Terms.{Term};
ghost use Rattle.sg_forest.specs.Trees.{Climbs, IsChild, IsLive};
ghost use Rattle.sg_groves.specs.Grove.{nodes, spec_shown};
ghost use Rattle.sg_groves.specs.Holds.{IsPlaced};
ghost use Rattle.sg_select.specs.Around.{after};
ghost use Rattle.sg_select.specs.Kept.{IsKept};
ghost use Rattle.sg_select.specs.Leads.{IsOpenAt, LeadsTo};
ghost use Rattle.sg_select.specs.RestingPlaces.{is_open as reaches, rests as rests_there, settled, next_from, prev_from, up_from, first_from as first_below, sibling_from};

use crate::inside::{first_from, first_inside, last_before};
use crate::schemes::{leads_on, rests_under};
use sg_forest::NodeId;
use sg_terms::Terms;

// whether a node whose parent can be reached is a resting place
fn stands(terms: &Terms, n: NodeId) -> bool
    requires { IsLive (nodes terms.now) n }
    ensures { (root : _) (t : Term) (u : Place) → IsPlaced terms.now root t u n
        → reaches (spec_shown terms.now) t u ≡ true → result ≡ rests_there (spec_shown terms.now) t u }
{
    terms.facts();
    match terms.parent(n) {
        Some((above, k)) => rests_under(terms, above, k, n),
        None => true,
    }
}

// whether no ancestor of a node is elided, and neither it nor an ancestor stands at a place `..`
fn is_open(terms: &Terms, n: NodeId) -> bool
    requires { IsLive (nodes terms.now) n }
    ensures { (root : _) (t : Term) (u : Place) → IsPlaced terms.now root t u n
        → result ≡ reaches (spec_shown terms.now) t u }
{
    terms.facts();
    let mut at = n;
    while let Some((above, k)) = terms.parent(at) {
        if !leads_on(terms, above, k) {
            return false;
        }
        at = above;
    }
    true
}

// what is kept in a step up from a child: nothing where the child cannot be reached, else what was kept, else the child
// where it rests
fn kept_over(
    terms: &Terms,
    above: NodeId,
    k: usize,
    at: NodeId,
    kept: Option<NodeId>,
) -> Option<NodeId>
    requires above { IsLive (nodes terms.now) above }
    requires at { IsLive (nodes terms.now) at }
    requires child { IsChild (nodes terms.now) at above k }
    requires kept { IfSome kept (IsLive (nodes terms.now)) }
    ensures live { IfSome result (IsLive (nodes terms.now)) }
    ensures kept { (root : _) (t : Term) (u w : Place) (v : Option Place) → IsPlaced terms.now root t w above
        → LeadsTo terms.now root v kept → IsKept (spec_shown terms.now) t u (k ∷ w) v
        → (z : Option Place) × LeadsTo terms.now root z result × IsKept (spec_shown terms.now) t u w z }
{
    terms.facts();
    if !leads_on(terms, above, k) {
        return None;
    }
    if kept.is_some() {
        return kept;
    }
    if rests_under(terms, above, k, at) {
        return Some(at);
    }
    None
}

/// The nearest resting place at or above a node; the root is one.
pub fn settle(terms: &Terms, n: NodeId) -> NodeId
    requires { IsLive (nodes terms.now) n }
    ensures live { IsLive (nodes terms.now) result }
    ensures settled { (root : _) (t : Term) (u : Place) → IsPlaced terms.now root t u n
        → Climbs (nodes terms.now) (settled (spec_shown terms.now) t u) result root }
{
    terms.facts();
    let mut kept: Option<NodeId> = None;
    let mut at = n;
    while let Some((above, k)) = terms.parent(at) {
        kept = kept_over(terms, above, k, at, kept);
        at = above;
    }
    kept.unwrap_or(at)
}

// whether a walk up has come to a node, once it is at another
fn has_met(met: bool, at: NodeId, n: NodeId) -> bool
    ensures { IsTrue result → IsTrue met ⊎ (at ≡ n) }
{
    met || at == n
}

// what is kept, where the walk has met what it looks for
fn kept_if(met: bool, kept: Option<NodeId>) -> Option<NodeId>
    ensures { IfSome result (λ n. IsTrue met × (kept ≡ Some n)) }
{
    if met { kept } else { None }
}

/// The nearest resting place at or above a node; the root is one. From another node on, which can be reached, the first
/// one kept is it.
pub fn settle_below(terms: &Terms, n: NodeId, reached: NodeId) -> NodeId
    requires { IsLive (nodes terms.now) n }
    ensures live { IsLive (nodes terms.now) result }
    ensures settled { (root : _) (t : Term) (u : Place) → IsPlaced terms.now root t u n
        → IsOpenAt terms.now root t reached
        → Climbs (nodes terms.now) (settled (spec_shown terms.now) t u) result root }
{
    terms.facts();
    let mut nearest: Option<NodeId> = None;
    let mut met = false;
    let mut at = n;
    while let Some((above, k)) = terms.parent(at) {
        met = has_met(met, at, reached);
        if let Some(found) = kept_if(met, nearest) {
            return found;
        }
        nearest = kept_over(terms, above, k, at, nearest);
        at = above;
    }
    nearest.unwrap_or(at)
}

/// Whether a node is a resting place.
pub fn rests(terms: &Terms, n: NodeId) -> bool
    requires { IsLive (nodes terms.now) n }
    ensures { (root : _) (t : Term) (u : Place) → IsPlaced terms.now root t u n
        → result ≡ rests_there (spec_shown terms.now) t u }
{
    terms.facts();
    settle(terms, n) == n
}

/// The nearest resting place above a node; None exactly at the root.
pub fn up(terms: &Terms, n: NodeId) -> Option<NodeId>
    requires { IsLive (nodes terms.now) n }
    ensures live { IfSome result (IsLive (nodes terms.now)) }
    ensures leads { (root : _) (t : Term) (u : Place) → IsPlaced terms.now root t u n
        → LeadsTo terms.now root (up_from (spec_shown terms.now) t u) result }
{
    terms.facts();
    match terms.parent(n) {
        Some((above, _)) => Some(settle(terms, above)),
        None => None,
    }
}

/// The first resting place below a node; None exactly where there is none.
pub fn first(terms: &Terms, n: NodeId) -> Option<NodeId>
    requires { IsLive (nodes terms.now) n }
    ensures live { IfSome result (IsLive (nodes terms.now)) }
    ensures leads { (root : _) (t : Term) (u : Place) → IsPlaced terms.now root t u n
        → LeadsTo terms.now root (first_below (spec_shown terms.now) t u) result }
{
    terms.facts();
    if !is_open(terms, n) {
        return None;
    }
    first_inside(terms, n)
}

// the first after a node and all below it
fn first_after(terms: &Terms, n: NodeId) -> Option<NodeId>
    requires { IsLive (nodes terms.now) n }
    ensures live { IfSome result (IsLive (nodes terms.now)) }
    ensures leads { (root : _) (t : Term) (u : Place) → IsPlaced terms.now root t u n
        → LeadsTo terms.now root (slice_get (after (spec_shown terms.now) t u) 0) result }
{
    terms.facts();
    let mut at = n;
    while let Some((above, k)) = terms.parent(at) {
        if let Some(found) = first_from(terms, above, k + 1) {
            return Some(found);
        }
        at = above;
    }
    None
}

/// From a resting place, the one behind it; None exactly where there is none.
pub fn next(terms: &Terms, n: NodeId) -> Option<NodeId>
    requires { IsLive (nodes terms.now) n }
    ensures live { IfSome result (IsLive (nodes terms.now)) }
    ensures leads { (root : _) (t : Term) (u : Place) → IsPlaced terms.now root t u n
        → rests_there (spec_shown terms.now) t u ≡ true
        → LeadsTo terms.now root (next_from (spec_shown terms.now) t u) result }
{
    terms.facts();
    match first_inside(terms, n) {
        Some(found) => Some(found),
        None => first_after(terms, n),
    }
}

/// From a resting place, the one before it; None exactly where there is none.
pub fn prev(terms: &Terms, n: NodeId) -> Option<NodeId>
    requires { IsLive (nodes terms.now) n }
    ensures live { IfSome result (IsLive (nodes terms.now)) }
    ensures leads { (root : _) (t : Term) (u : Place) → IsPlaced terms.now root t u n
        → rests_there (spec_shown terms.now) t u ≡ true
        → LeadsTo terms.now root (prev_from (spec_shown terms.now) t u) result }
{
    terms.facts();
    let mut at = n;
    while let Some((above, k)) = terms.parent(at) {
        if let Some(found) = last_before(terms, above, k) {
            return Some(found);
        }
        if stands(terms, above) {
            return Some(above);
        }
        at = above;
    }
    None
}

/// From a resting place, the next one behind all that rests inside it with the same one above; None exactly where there
/// is none.
pub fn sibling(terms: &Terms, n: NodeId) -> Option<NodeId>
    requires { IsLive (nodes terms.now) n }
    ensures live { IfSome result (IsLive (nodes terms.now)) }
    ensures leads { (root : _) (t : Term) (u : Place) → IsPlaced terms.now root t u n
        → rests_there (spec_shown terms.now) t u ≡ true
        → LeadsTo terms.now root (sibling_from (spec_shown terms.now) t u) result }
{
    terms.facts();
    let mut at = n;
    while let Some((above, k)) = terms.parent(at) {
        if let Some(found) = first_from(terms, above, k + 1) {
            return Some(found);
        }
        if stands(terms, above) {
            return None;
        }
        at = above;
    }
    None
}
