//! Where nodes begin in what is seen of a held term, found from the page of a part where that is enough.
ghost use Rattle.std.specs.Prelude.{◌≡◌, ◌<◌, ◌≤◌, ◌*◌, min, Some, IfOk, IfSome};
ghost use Rattle.sg_kinds.specs.Places.{Place, sub};
ghost use Rattle.sg_kinds.specs.Terms.{Term, nodes_of};
ghost use Rattle.sg_forest.specs.Trees.{Climbs, IsLive};
ghost use Rattle.sg_groves.specs.Evaluated.{IsAtOrBelow};
ghost use Rattle.sg_groves.specs.Grove.{nodes, spec_shown};
ghost use Rattle.sg_unparse.specs.Begins.{begins_on};
ghost use Rattle.sg_unparse.specs.Margins.{ons_of};
ghost use Rattle.sg_states.specs.Beginnings.{Begins, BeginsAlone, WillForetell, foretold as foretold_from};
ghost use Rattle.sg_states.specs.Seen.{nothing_typed};
ghost use Rattle.sg_states.specs.Paged.{IsForetold, IsWhole, page_seen};

use sg_forest::NodeId;
use sg_kinds::limits::CELLS;
use sg_kinds::memory::NoMemory;
use sg_terms::Terms;
use sg_unparse::{Beginning, Page, ons, part};
use std::alloc::Global;

/// What tells, before a change strictly below a node, where nodes at it or below it begin after the change.
#[derive(Clone, Copy)]
pub struct Before {
    pub above: NodeId,
    /// where a node at it or below it begins
    pub old: Beginning,
    /// and where it begins in what the node above writes alone
    pub from: Beginning,
    /// the most blanks of the margin from which the node above is written
    pub margin: usize,
}

// where a node begins on a page, if fewer cells than a page has are before it
fn within_page(page: &Page, n: NodeId) -> Option<Beginning>
    ensures { IfSome result (λ b. (begins_on page.now n ≡ Some b) × (b.cells < 1048576)) }
{
    let begins = page.begins(n)?;
    if begins.cells < CELLS {
        Some(begins)
    } else {
        None
    }
}

/// Where a node begins, by the page of the term where nothing is typed; None where the page does not tell.
pub fn begins_here(terms: &Terms, page: &Page, n: NodeId) -> Option<Beginning>
    ensures { (root : _) (t : Term) (u : Place) → IsWhole terms.now root t → Climbs (nodes terms.now) u n root
        → page.now ≡ page_seen terms.now root t nothing_typed → IfSome result (Begins terms.now.spec terms.now.view t u) }
{
    terms.facts();
    within_page(page, n)
}

// where a node begins in what another writes alone; None where the page of that does not tell
fn begins_alone(
    alloc: Global,
    terms: &Terms,
    above: NodeId,
    n: NodeId,
) -> Result<Option<Beginning>, NoMemory>
    requires { IsLive (nodes terms.now) above }
    ensures { (root : _) (t x : Term) (p u : Place) → IsWhole terms.now root t
        → Climbs (nodes terms.now) p above root → Climbs (nodes terms.now) u n root → sub t p ≡ Some x
        → IfOk result (λ r. IfSome r (BeginsAlone terms.now.spec terms.now.view t p x u)) }
{
    terms.facts();
    let page = part(alloc, terms, above)?;
    Ok(within_page(&page, n))
}

// by how much the schemes of the present view widen the margin at most
fn ons_here(terms: &Terms) -> usize
    ensures { result ≡ min (ons_of (spec_shown terms.now)) usize.MAX }
{
    ons(terms.spec(), terms.view())
}

// the most blanks of a margin in a term of so many nodes; None where they are no usize
fn margin(terms: &Terms, count: usize) -> Option<usize>
    ensures { IfSome result (λ m. m ≡ 2 * ons_of (spec_shown terms.now) * count) }
{
    ons_here(terms).checked_mul(2)?.checked_mul(count)
}

/// Tells before a change strictly below a node, from where the selected node begins, what is needed after it. The term
/// has so many nodes. None where the selected node is not shown at that node or below it.
pub fn foretell(
    alloc: Global,
    terms: &Terms,
    above: NodeId,
    selected: NodeId,
    begins: Beginning,
    count: usize,
) -> Result<Option<Before>, NoMemory>
    requires { IsLive (nodes terms.now) above }
    ensures { (root : _) (t : Term) (p u : Place) → IsWhole terms.now root t → Climbs (nodes terms.now) p above root
        → Climbs (nodes terms.now) u selected root → Begins terms.now.spec terms.now.view t u begins → count ≡ nodes_of t
        → IfOk result (λ r. IfSome r (λ b. (b.above ≡ above) × IsAtOrBelow u p
        × WillForetell terms.now.spec terms.now.view t p b)) }
{
    terms.facts();
    let Some(from) = begins_alone(alloc, terms, above, selected)? else {
        return Ok(None);
    };
    let Some(margin) = margin(terms, count) else {
        return Ok(None);
    };
    Ok(Some(Before {
        above,
        old: begins,
        from,
        margin,
    }))
}

// where a node begins then, if at most as many cells as a page has are before it
fn foretold(b: &Before, to: Beginning) -> Option<Beginning>
    ensures { IfSome result (λ r. (r ≡ foretold_from b.now to) × (r.cells ≤ 1048576) × (r.newlines ≤ 1048576)) }
{
    let newlines = b
        .old
        .newlines
        .saturating_sub(b.from.newlines)
        .checked_add(to.newlines)?;
    let margins = to.newlines.checked_mul(b.margin)?;
    let cells = b.old.cells.checked_add(to.cells)?.checked_add(margins)?;
    if newlines <= CELLS && cells <= CELLS {
        Some(Beginning { newlines, cells })
    } else {
        None
    }
}

/// Where a node begins after a change, by what was told before it; None where that does not tell.
pub(crate) fn begins_after(
    alloc: Global,
    terms: &Terms,
    root: NodeId,
    n: NodeId,
    before: Option<Before>,
) -> Result<Option<Beginning>, NoMemory>
    requires { IfSome before (IsForetold terms.now root) }
    ensures begins { (t : Term) (u : Place) → IsWhole terms.now root t → Climbs (nodes terms.now) u n root
        → IfOk result (λ r. IfSome r (Begins terms.now.spec terms.now.view t u)) }
    ensures few { IfOk result (λ r. IfSome r (λ b. (b.cells ≤ 1048576) × (b.newlines ≤ 1048576))) }
{
    terms.facts();
    let Some(before) = before else {
        return Ok(None);
    };
    match begins_alone(alloc, terms, before.above, n)? {
        Some(to) => Ok(foretold(&before, to)),
        None => Ok(None),
    }
}
