// The first and the last resting place below a node.
ghost use Rattle.std.specs.Prelude.{◌≡◌, ◌<◌, ◌≤◌, IfSome, None, Some, length, slice_get, take, drop};
ghost use Rattle.std.specs.List.{last_or};
ghost use Rattle.sg_kinds.specs.Places.{Place};
ghost use Rattle.sg_kinds.specs.Specification.{args_of};
ghost use Rattle.sg_kinds.specs.Terms.{Term};
ghost use Rattle.sg_forest.specs.Trees.{IsLive};
ghost use Rattle.sg_groves.specs.Grove.{nodes, spec_shown};
ghost use Rattle.sg_groves.specs.Holds.{Holds, IsPlaced};
ghost use Rattle.sg_select.specs.Around.{inside, kids, part, parts};
ghost use Rattle.sg_select.specs.Leads.{LeadsTo};

use crate::schemes::{child_place, is_shown, rests_at};
use sg_forest::NodeId;
use sg_kinds::ids::OpId;
use sg_kinds::row::item;
use sg_terms::Terms;

// how many arguments an operator has
fn arg_count(terms: &Terms, op: OpId) -> usize
    requires { op < length terms.now.spec.ops }
    ensures { result ≡ length (args_of terms.now.spec.ops op) }
{
    item(terms.spec().ops.as_slice(), op.number as usize)
        .args
        .len()
}

/// How many children a node has.
pub fn kid_count(terms: &Terms, n: NodeId) -> usize
    requires { IsLive (nodes terms.now) n }
    ensures count { (t : Term) → Holds terms.now n t → result ≡ length (kids t) }
    ensures arity { (x : _) → nodes terms.now n ≡ Some x → x.label.arity ≡ result }
{
    terms.facts();
    match terms.op(n) {
        Some(op) => arg_count(terms, op),
        None => 0,
    }
}

// the first at or below a child
#[cycle(first)]
fn first_at(terms: &Terms, n: NodeId, k: usize) -> Option<NodeId>
    requires live { IsLive (nodes terms.now) n }
    requires place { (x : _) → nodes terms.now n ≡ Some x → k < x.label.arity }
    ensures live { IfSome result (IsLive (nodes terms.now)) }
    ensures leads { (root : _) (t x y : Term) (u : Place) → IsPlaced terms.now root t u n
        → Holds terms.now n x → slice_get (kids x) k ≡ Some y
        → LeadsTo terms.now root (slice_get (part (spec_shown terms.now) u x k y) 0) result }
{
    terms.facts();
    let place = child_place(terms, n, k);
    if !is_shown(place) {
        return None;
    }
    let kid = terms.kid(n, k);
    if rests_at(terms, n, k, kid, place) {
        return Some(kid);
    }
    first_inside(terms, kid)
}

/// The first below the children of a node, from number `from` on.
#[cycle(first)]
pub fn first_from(terms: &Terms, n: NodeId, from: usize) -> Option<NodeId>
    requires { IsLive (nodes terms.now) n }
    ensures live { IfSome result (IsLive (nodes terms.now)) }
    ensures leads { (root : _) (t x : Term) (u : Place) → IsPlaced terms.now root t u n → Holds terms.now n x
        → LeadsTo terms.now root (slice_get (parts (spec_shown terms.now) u x from (drop from (kids x))) 0) result }
{
    for k in from..kid_count(terms, n) {
        if let Some(found) = first_at(terms, n, k) {
            return Some(found);
        }
    }
    None
}

/// The first below a node that can be reached.
#[cycle(first)]
pub fn first_inside(terms: &Terms, n: NodeId) -> Option<NodeId>
    requires { IsLive (nodes terms.now) n }
    ensures live { IfSome result (IsLive (nodes terms.now)) }
    ensures leads { (root : _) (t x : Term) (u : Place) → IsPlaced terms.now root t u n → Holds terms.now n x
        → LeadsTo terms.now root (slice_get (inside (spec_shown terms.now) u x) 0) result }
{
    terms.facts();
    if terms.elided(n) {
        return None;
    }
    first_from(terms, n, 0)
}

// the last at or below a child
#[cycle(last)]
fn last_at(terms: &Terms, n: NodeId, k: usize) -> Option<NodeId>
    requires live { IsLive (nodes terms.now) n }
    requires place { (x : _) → nodes terms.now n ≡ Some x → k < x.label.arity }
    ensures live { IfSome result (IsLive (nodes terms.now)) }
    ensures leads { (root : _) (t x y : Term) (u : Place) → IsPlaced terms.now root t u n
        → Holds terms.now n x → slice_get (kids x) k ≡ Some y
        → LeadsTo terms.now root (last_or None (part (spec_shown terms.now) u x k y)) result }
{
    terms.facts();
    let place = child_place(terms, n, k);
    if !is_shown(place) {
        return None;
    }
    let kid = terms.kid(n, k);
    if let Some(found) = last_inside(terms, kid) {
        return Some(found);
    }
    if rests_at(terms, n, k, kid, place) {
        return Some(kid);
    }
    None
}

/// The last below the first `to` children of a node.
#[cycle(last)]
pub fn last_before(terms: &Terms, n: NodeId, to: usize) -> Option<NodeId>
    requires live { IsLive (nodes terms.now) n }
    requires few { (x : _) → nodes terms.now n ≡ Some x → to ≤ x.label.arity }
    ensures live { IfSome result (IsLive (nodes terms.now)) }
    ensures leads { (root : _) (t x : Term) (u : Place) → IsPlaced terms.now root t u n → Holds terms.now n x
        → LeadsTo terms.now root (last_or None (parts (spec_shown terms.now) u x 0 (take to (kids x)))) result }
{
    terms.facts();
    let mut left = to;
    while left > 0 {
        left -= 1;
        if let Some(found) = last_at(terms, n, left) {
            return Some(found);
        }
    }
    None
}

// the last below a node that can be reached
#[cycle(last)]
fn last_inside(terms: &Terms, n: NodeId) -> Option<NodeId>
    requires { IsLive (nodes terms.now) n }
    ensures live { IfSome result (IsLive (nodes terms.now)) }
    ensures leads { (root : _) (t x : Term) (u : Place) → IsPlaced terms.now root t u n → Holds terms.now n x
        → LeadsTo terms.now root (last_or None (inside (spec_shown terms.now) u x)) result }
{
    terms.facts();
    if terms.elided(n) {
        return None;
    }
    last_before(terms, n, kid_count(terms, n))
}
