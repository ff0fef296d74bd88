// Where a cell of a page leads.
ghost use Rattle.std.specs.Prelude.{◌≡◌, IfSome, None, Some};
ghost use Rattle.sg_kinds.specs.Places.{Place};
ghost use Rattle.sg_kinds.specs.Terms.{Term};
ghost use Rattle.sg_forest.specs.Trees.{IsLive};
ghost use Rattle.sg_groves.specs.Grove.{nodes, spec_shown};
ghost use Rattle.sg_groves.specs.Holds.{IsPlaced};
ghost use Rattle.sg_unparse.specs.Page.{owner_at};
ghost use Rattle.sg_select.specs.Leads.{LeadsTo};
ghost use Rattle.sg_select.specs.RestingPlaces.{settled};

use crate::moves::settle;
use sg_forest::NodeId;
use sg_terms::Terms;
use sg_unparse::Page;

/// The nearest resting place at or above the node that owns a cell of a page of these terms, by line and column, both
/// counted from 1; None exactly where the page has no such cell.
pub fn at_cell(terms: &Terms, page: &Page, line: usize, col: usize) -> Option<NodeId>
    requires { (n : _) → owner_at page.now.cells line col ≡ Some n → IsLive (nodes terms.now) n }
    ensures live { IfSome result (IsLive (nodes terms.now)) }
    ensures none { owner_at page.now.cells line col ≡ None → result ≡ None }
    ensures settled { (n root : _) (t : Term) (u : Place) → owner_at page.now.cells line col ≡ Some n
        → IsPlaced terms.now root t u n → LeadsTo terms.now root (Some (settled (spec_shown terms.now) t u)) result }
{
    match page.owner(line, col) {
        Some(n) => Some(settle(terms, n)),
        None => None,
    }
}
