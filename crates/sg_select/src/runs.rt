// Elements of lists.
ghost use Rattle.std.specs.Prelude.{◌≡◌, IfSome, min};
ghost use Rattle.sg_kinds.specs.Places.{Place};
ghost use Rattle.sg_kinds.specs.Terms.{Term};
ghost use Rattle.sg_forest.specs.Trees.{IsLive};
ghost use Rattle.sg_groves.specs.Grove.{nodes};
ghost use Rattle.sg_groves.specs.Holds.{Holds, IsPlaced};
ghost use Rattle.sg_select.specs.Leads.{LeadsTo};
ghost use Rattle.sg_select.specs.Paths.{elements, is_list_node as is_list_node_of, spine_from};

use crate::schemes::is_pair_of_list;
use sg_forest::NodeId;
use sg_terms::Terms;

// whether a node is of the binary operator of a list
fn is_list_node(terms: &Terms, n: NodeId) -> bool
    requires { IsLive (nodes terms.now) n }
    ensures { (t : Term) → Holds terms.now n t → result ≡ is_list_node_of terms.now.spec t }
{
    terms.facts();
    match terms.op(n) {
        Some(op) => is_pair_of_list(terms.spec(), op),
        None => false,
    }
}

/// The list node of which a node is an element, as its first child; None exactly where it is none.
pub fn spine_of(terms: &Terms, n: NodeId) -> Option<NodeId>
    requires { IsLive (nodes terms.now) n }
    ensures live { IfSome result (IsLive (nodes terms.now)) }
    ensures leads { (root : _) (t : Term) (u : Place) → IsPlaced terms.now root t u n
        → LeadsTo terms.now root (spine_from terms.now.spec t u) result }
{
    terms.facts();
    match terms.parent(n) {
        Some((above, k)) => {
            if k == 0 && is_list_node(terms, above) {
                Some(above)
            } else {
                None
            }
        }
        None => None,
    }
}

/// How many elements of its list are there from a list node on, as far as the greatest usize: the list nodes, each the
/// second child of the one before; 0 at another node.
pub fn elements_from(terms: &Terms, n: NodeId) -> usize
    requires { IsLive (nodes terms.now) n }
    ensures { (t : Term) → Holds terms.now n t → result ≡ min (elements terms.now.spec t) usize.MAX }
{
    terms.facts();
    if !is_list_node(terms, n) {
        return 0;
    }
    elements_from(terms, terms.kid(n, 1)).saturating_add(1)
}
