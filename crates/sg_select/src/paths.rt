// Where paths from a root lead.
ghost use Rattle.std.specs.Prelude.{◌≡◌, ◌≤◌, ◌++◌, length, take, IfOk, IfSome, IsTrue};
ghost use Rattle.sg_kinds.specs.Places.{Place, place_of};
ghost use Rattle.sg_kinds.specs.Terms.{Term};
ghost use Rattle.sg_forest.specs.Trees.{Climbs, IsLive, IsRoot};
ghost use Rattle.sg_groves.specs.Grove.{nodes, spec_shown};
ghost use Rattle.sg_groves.specs.Holds.{Holds, IsPlaced};
ghost use Rattle.sg_select.specs.Leads.{IsOpenAt, LeadsTo};
ghost use Rattle.sg_select.specs.Paths.{GoesTo, there};
ghost use Rattle.sg_select.specs.RestingPlaces.{settled};

use crate::inside::kid_count;
use crate::moves::{settle, settle_below};
use sg_forest::NodeId;
use sg_kinds::memory::NoMemory;
use sg_kinds::row::{Path, Row};
use sg_terms::Terms;
use std::alloc::Global;

// how many child numbers from the root on two paths share
fn shared(path: &[u32], way: &[u32]) -> usize
    ensures path { result ≤ length path.now }
    ensures way { result ≤ length way.now }
    ensures same { take result path.now ≡ take result way.now }
{
    let most = path.len().min(way.len());
    for i in 0..most {
        if path[i] != way[i] {
            return i;
        }
    }
    most
}

// the node so many steps above one
fn ancestor(terms: &Terms, n: NodeId, steps: usize) -> NodeId
    requires { IsLive (nodes terms.now) n }
    ensures live { IsLive (nodes terms.now) result }
    ensures placed { (root : _) (t : Term) (low u : Place) → IsPlaced terms.now root t (low ++ u) n
        → length low ≡ steps → IsPlaced terms.now root t u result }
{
    terms.facts();
    let mut at = n;
    for _step in 0..steps {
        match terms.parent(at) {
            Some((above, _)) => at = above,
            None => return at,
        }
    }
    at
}

// the node at the longest front of a path from a node on that the term has, and whether that is the whole path
fn deepest_below(terms: &Terms, n: NodeId, path: &[u32]) -> (NodeId, bool)
    requires { IsLive (nodes terms.now) n }
    ensures live { IsLive (nodes terms.now) result.0 }
    ensures goes { (root : _) (t : Term) (u : Place) → IsPlaced terms.now root t u n
        → GoesTo terms.now root t (place_of path.now ++ u) result.0 result.1 }
{
    terms.facts();
    let mut at = n;
    for &k in path {
        if k as usize >= kid_count(terms, at) {
            return (at, false);
        }
        at = terms.kid(at, k as usize);
    }
    (at, true)
}

// the node at the longest front of a path that the term has, and whether that is the whole path; found from another node
// on, whose path is `way`
fn deepest(terms: &Terms, root: NodeId, path: &[u32], near: NodeId, way: &[u32]) -> (NodeId, bool)
    requires root { IsRoot (nodes terms.now) root }
    requires near { Climbs (nodes terms.now) (place_of way.now) near root }
    ensures live { IsLive (nodes terms.now) result.0 }
    ensures goes { (t : Term) → Holds terms.now root t
        → GoesTo terms.now root t (place_of path.now) result.0 result.1 }
{
    terms.facts();
    let front = shared(path, way);
    let above = ancestor(terms, near, way.len() - front);
    deepest_below(terms, above, &path[front..])
}

/// The node to which a path of child numbers leads from a root; None exactly where the term has no such place. It is
/// found from another node on, whose path is `way`, by the steps that the two paths do not share.
pub fn node_near(
    terms: &Terms,
    root: NodeId,
    path: &[u32],
    near: NodeId,
    way: &[u32],
) -> Option<NodeId>
    requires root { IsRoot (nodes terms.now) root }
    requires near { Climbs (nodes terms.now) (place_of way.now) near root }
    ensures live { IfSome result (IsLive (nodes terms.now)) }
    ensures leads { (t : Term) → Holds terms.now root t
        → LeadsTo terms.now root (there t (place_of path.now)) result }
{
    terms.facts();
    let (n, is_whole) = deepest(terms, root, path, near, way);
    if is_whole { Some(n) } else { None }
}

/// The node to which a path of child numbers leads from a root; None exactly where the term has no such place.
pub fn node_along(terms: &Terms, root: NodeId, path: &[u32]) -> Option<NodeId>
    requires { IsRoot (nodes terms.now) root }
    ensures live { IfSome result (IsLive (nodes terms.now)) }
    ensures leads { (t : Term) → Holds terms.now root t
        → LeadsTo terms.now root (there t (place_of path.now)) result }
{
    node_near(terms, root, path, root, &[])
}

// the nearest resting place at or above a node, with another that can be reached, where one is told
fn settle_from(terms: &Terms, n: NodeId, reached: Option<NodeId>) -> NodeId
    requires { IsLive (nodes terms.now) n }
    ensures live { IsLive (nodes terms.now) result }
    ensures settled { (root : _) (t : Term) (u : Place) → IsPlaced terms.now root t u n
        → IfSome reached (IsOpenAt terms.now root t)
        → Climbs (nodes terms.now) (settled (spec_shown terms.now) t u) result root }
{
    match reached {
        Some(reached) => settle_below(terms, n, reached),
        None => settle(terms, n),
    }
}

// whether a whole path led to a node that rests
fn stays(is_whole: bool, to: NodeId, n: NodeId) -> bool
    ensures { IsTrue result → IsTrue is_whole × (n ≡ to) }
{
    is_whole && n == to
}

/// The nearest resting place at or above the place that a path names, and whether it is that place. The place is found
/// from another node on, whose path is `way`. What is above a node that can be reached need not be seen, where one is
/// told.
pub fn settle_path_below(
    terms: &Terms,
    root: NodeId,
    path: &[u32],
    near: NodeId,
    way: &[u32],
    reached: Option<NodeId>,
) -> (NodeId, bool)
    requires root { IsRoot (nodes terms.now) root }
    requires near { Climbs (nodes terms.now) (place_of way.now) near root }
    ensures live { IsLive (nodes terms.now) result.0 }
    ensures settled { (t : Term) → Holds terms.now root t → IfSome reached (IsOpenAt terms.now root t)
        → Climbs (nodes terms.now) (settled (spec_shown terms.now) t (place_of path.now)) result.0 root }
    ensures there { (t : Term) → Holds terms.now root t → IsTrue result.1
        → Climbs (nodes terms.now) (place_of path.now) result.0 root }
{
    let (n, is_whole) = deepest(terms, root, path, near, way);
    let to = settle_from(terms, n, reached);
    (to, stays(is_whole, to, n))
}

/// The path of a node from its root, the one call here that takes memory.
pub fn path_of(alloc: Global, terms: &Terms, n: NodeId) -> Result<Path, NoMemory>
    requires { IsLive (nodes terms.now) n }
    ensures { IfOk result (λ path. (root : _) (t : Term) (u : Place) → IsPlaced terms.now root t u n
        → place_of path ≡ u) }
{
    terms.facts();
    let mut way: Vec<u32> = Vec::new(alloc);
    let mut at = n;
    while let Some((above, k)) = terms.parent(at) {
        way.push(k as u32)?;
        at = above;
    }
    way.reverse();
    Ok(Row::new(way))
}
