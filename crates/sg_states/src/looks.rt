//! What is seen of a held term.
ghost use Rattle.std.specs.Prelude.{◌≡◌, ◌<◌, ◌↔◌, None, Some, IfOk, IfSome, IsTrue, min, option_map, true};
ghost use Rattle.std.specs.Option.{option_map_or};
ghost use Rattle.sg_kinds.specs.Places.{Place, place_of};
ghost use Rattle.sg_kinds.specs.Terms.{Term};
ghost use Rattle.sg_forest.specs.Trees.{Climbs, IsLive, IsRoot};
ghost use Rattle.sg_groves.specs.Grove.{nodes, spec_shown};
ghost use Rattle.sg_groves.specs.Holds.{Holds, IsPlaced};
ghost use Rattle.sg_changes.specs.Top.{topped};
ghost use Rattle.sg_select.specs.Leads.{LeadsTo};
ghost use Rattle.sg_select.specs.RestingPlaces.{rests};
ghost use Rattle.sg_unparse.specs.Sheet.{region_on};
ghost use Rattle.sg_states.specs.Selections.{elements_at as elements_there, is_selection as is_selection_there, settled_count};
ghost use Rattle.sg_states.specs.Seen.{first_line as line_of, nothing_typed, settled_spot, typed_at};
ghost use Rattle.sg_states.specs.States.{target as target_from};
ghost use Rattle.sg_states.specs.Paged.{IsForetold, IsFound, IsLook, IsWhole, page_seen};

use crate::forecast::{Before, begins_after, begins_here};
use crate::marks::Move;
use sg_changes::{Selection, Spot, topped};
use sg_forest::NodeId;
use sg_kinds::memory::NoMemory;
use sg_kinds::row::Path;
use sg_select::{
    elements_from, first, next, node_along, path_of, prev, settle_path_below, sibling, spine_of, up,
};
use sg_terms::Terms;
use sg_unparse::{Beginning, Page, cells};
use std::alloc::Global;

/// What is selected and seen of a held term, where nothing is typed.
#[derive(Drop)]
pub struct Look {
    /// the selected node, of a run its first element
    pub selected: NodeId,
    pub spot: Spot,
    /// the path of the selected node, as in the spot
    pub way: Path,
    /// the page, where it was made
    pub page: Option<Page>,
    /// where the selected node begins, where that is told
    pub begins: Option<Beginning>,
}

// the line in which a node begins, and what else was made to find it
#[derive(Drop)]
struct Found {
    line: usize,
    page: Option<Page>,
    begins: Option<Beginning>,
}

/// The line in which a node begins on a page, from 1; 1 for a node that is not shown.
pub fn line_on(page: &Page, n: NodeId) -> usize
    ensures { result ≡ option_map_or (λ r. r.first.line) (region_on page.now n) 1 }
{
    match page.region(n) {
        Some(region) => region.line,
        None => 1,
    }
}

/// How many elements of its list are there from an element on, as far as the greatest usize; 0 at another node.
pub fn elements_at(terms: &Terms, n: NodeId) -> usize
    requires { IsLive (nodes terms.now) n }
    ensures { (root : _) (t : Term) (u : Place) → IsPlaced terms.now root t u n
        → result ≡ min (elements_there terms.now.spec t u) usize.MAX }
{
    terms.facts();
    match spine_of(terms, n) {
        Some(spine) => elements_from(terms, spine),
        None => 0,
    }
}

// whether a resting place with a count is a selection
fn is_selection(terms: &Terms, n: NodeId, count: usize) -> bool
    requires { IsLive (nodes terms.now) n }
    ensures { (root : _) (t : Term) (u : Place) → IsPlaced terms.now root t u n → rests (spec_shown terms.now) t u ≡ true
        → result ≡ is_selection_there terms.now.spec terms.now.view t u count }
{
    count == 1 || (count > 1 && count <= elements_at(terms, n))
}

// whether a path leads to a node from a root
fn leads_to(terms: &Terms, root: NodeId, path: &[u32], n: NodeId) -> bool
    requires { IsRoot (nodes terms.now) root }
    ensures { (t : Term) (v : Place) → Holds terms.now root t → Climbs (nodes terms.now) v n root
        → IsTrue result ↔ (v ≡ place_of path.now) }
{
    terms.facts();
    match node_along(terms, root, path) {
        Some(m) => m == n,
        None => false,
    }
}

// the count of a selection that is settled to a node
fn count_at(terms: &Terms, root: NodeId, path: &[u32], count: usize, n: NodeId) -> usize
    requires root { IsRoot (nodes terms.now) root }
    requires node { IsLive (nodes terms.now) n }
    ensures { (t : Term) (v : Place) → IsPlaced terms.now root t v n → rests (spec_shown terms.now) t v ≡ true
        → result ≡ settled_count terms.now.spec terms.now.view t (place_of path.now) v count }
{
    if count <= 1 {
        return 1;
    }
    if leads_to(terms, root, path, n) && is_selection(terms, n, count) {
        count
    } else {
        1
    }
}

/// The resting place to which a move leads from one; None exactly where it leads to none.
pub fn target(terms: &Terms, n: NodeId, to: Move) -> Option<NodeId>
    requires { IsLive (nodes terms.now) n }
    ensures live { IfSome result (IsLive (nodes terms.now)) }
    ensures leads { (root : _) (t : Term) (u : Place) → IsPlaced terms.now root t u n
        → rests (spec_shown terms.now) t u ≡ true
        → LeadsTo terms.now root (target_from to (spec_shown terms.now) t u) result }
{
    match to {
        Move::Next => next(terms, n),
        Move::Prev => prev(terms, n),
        Move::Up => up(terms, n),
        Move::First => first(terms, n),
        Move::Sibling => sibling(terms, n),
    }
}

/// The page of the term that a root holds, with a text typed in the place of a node.
pub fn page_with(
    alloc: Global,
    terms: &Terms,
    root: NodeId,
    at: NodeId,
    text: &[u8],
) -> Result<Page, NoMemory>
    requires { IsRoot (nodes terms.now) root }
    ensures { (t : Term) (u : Place) → IsWhole terms.now root t → Climbs (nodes terms.now) u at root
        → IfOk result (λ p. p ≡ page_seen terms.now root t (typed_at u text.now)) }
{
    terms.facts();
    cells(alloc, terms, root, Some(at), text)
}

/// The page of the term that a root holds, where nothing is typed.
pub fn page_of(alloc: Global, terms: &Terms, root: NodeId) -> Result<Page, NoMemory>
    requires { IsRoot (nodes terms.now) root }
    ensures { (t : Term) → IsWhole terms.now root t
        → IfOk result (λ p. p ≡ page_seen terms.now root t nothing_typed) }
{
    terms.facts();
    cells(alloc, terms, root, None, b"")
}

/// The window's top once a node is selected, by the page of the term that a root holds, where nothing is typed.
pub fn top_at(terms: &Terms, page: &Page, n: NodeId, height: usize, top: usize) -> usize
    requires { 0 < height }
    ensures { (root : _) (t : Term) (u : Place) → IsWhole terms.now root t → Climbs (nodes terms.now) u n root
        → page.now ≡ page_seen terms.now root t nothing_typed
        → result ≡ topped height (line_of terms.now.spec terms.now.view t u) top }
{
    terms.facts();
    topped(height, line_on(page, n), top)
}

// the line in which a node begins: by what was told before the change, else on the page
fn find_line(
    alloc: Global,
    terms: &Terms,
    root: NodeId,
    n: NodeId,
    before: Option<Before>,
) -> Result<Found, NoMemory>
    requires root { IsRoot (nodes terms.now) root }
    requires before { IfSome before (IsForetold terms.now root) }
    ensures { (t : Term) (u : Place) → IsWhole terms.now root t → Climbs (nodes terms.now) u n root
        → IfOk result (IsFound terms.now root t u) }
{
    terms.facts();
    if let Some(begins) = begins_after(alloc, terms, root, n, before)? {
        return Ok(Found {
            line: begins.newlines + 1,
            page: None,
            begins: Some(begins),
        });
    }
    let page = page_of(alloc, terms, root)?;
    let line = line_on(&page, n);
    let begins = begins_here(terms, &page, n);
    Ok(Found {
        line,
        page: Some(page),
        begins,
    })
}

// the node above a change
fn reached(before: Option<Before>) -> Option<NodeId>
    ensures { result ≡ option_map (λ b. b.above) before }
{
    Some(before?.above)
}

// the path of a node: a copy of one that leads there, else found on the way up
fn path_at(
    alloc: Global,
    terms: &Terms,
    path: &Path,
    is_there: bool,
    n: NodeId,
) -> Result<Path, NoMemory>
    requires { IsLive (nodes terms.now) n }
    ensures { (root : _) (t : Term) (u : Place) → IsPlaced terms.now root t u n
        → (IsTrue is_there → Climbs (nodes terms.now) (place_of path.now) n root)
        → IfOk result (λ p. place_of p ≡ u) }
{
    terms.facts();
    if is_there {
        path.copy(alloc)
    } else {
        path_of(alloc, terms, n)
    }
}

/// What is seen of the term that a root holds with this to be selected, settled, in a window of this height, from this
/// top. The selected node is found from another one on, whose path is told. Where the term changed, what was told before
/// saves the page.
pub fn look_after(
    alloc: Global,
    terms: &Terms,
    root: NodeId,
    near: NodeId,
    near_way: &[u32],
    select: &Selection,
    height: usize,
    top: usize,
    before: Option<Before>,
) -> Result<Look, NoMemory>
    requires root { IsRoot (nodes terms.now) root }
    requires near { Climbs (nodes terms.now) (place_of near_way.now) near root }
    requires tall { 0 < height }
    requires before { IfSome before (IsForetold terms.now root) }
    ensures { (t : Term) → IsWhole terms.now root t → IfOk result (IsLook terms.now root t
        (settled_spot terms.now.spec height terms.now.view t select.now top)) }
{
    terms.facts();
    let way = select.path.as_slice();
    let (selected, is_there) = settle_path_below(terms, root, way, near, near_way, reached(before));
    let found = find_line(alloc, terms, root, selected, before)?;
    let path = path_at(alloc, terms, &select.path, is_there, selected)?;
    let kept = path.copy(alloc)?;
    let count = count_at(terms, root, way, select.count, selected);
    let top = topped(height, found.line, top);
    let selection = Selection { path, count };
    let view = terms.view();
    let spot = Spot {
        selection,
        top,
        view,
    };
    Ok(Look {
        selected,
        spot,
        way: kept,
        page: found.page,
        begins: found.begins,
    })
}

/// What is seen of the term that a root holds with this to be selected, settled, in a window of this height, from this
/// top.
pub fn look_at(
    alloc: Global,
    terms: &Terms,
    root: NodeId,
    select: &Selection,
    height: usize,
    top: usize,
) -> Result<Look, NoMemory>
    requires root { IsRoot (nodes terms.now) root }
    requires tall { 0 < height }
    ensures { (t : Term) → IsWhole terms.now root t → IfOk result (IsLook terms.now root t
        (settled_spot terms.now.spec height terms.now.view t select.now top)) }
{
    look_after(alloc, terms, root, root, &[], select, height, top, None)
}
