// The scheme in which a node is shown.
ghost use Rattle.std.specs.Prelude.{◌≡◌, None, Some, MatchOption};
ghost use Rattle.sg_kinds.specs.InView.{in_view};
ghost use Rattle.sg_kinds.specs.Terms.{Term};
ghost use Rattle.sg_forest.specs.Trees.{IsLive};
ghost use Rattle.sg_groves.specs.Grove.{nodes, spec_shown};
ghost use Rattle.sg_groves.specs.Holds.{Holds};
ghost use Rattle.sg_unparse.specs.Printing.{count_of, current_scheme, scheme_count};

use crate::shown::{scheme_of, schemes_in};
use sg_forest::NodeId;
use sg_kinds::ids::OpId;
use sg_kinds::spec::{Scheme, Spec};
use sg_terms::Terms;

/// The current scheme of a node in the view, where numbers are counted round: the only reader of a node's scheme. None
/// exactly at a leaf and where the operator has no scheme.
pub fn current(terms: &Terms, n: NodeId) -> Option<&Scheme>
    requires { IsLive (nodes terms.now) n }
    ensures { (t : Term) → Holds terms.now n t → MatchOption result (current_scheme (spec_shown terms.now) t ≡ None)
        (λ s. current_scheme (spec_shown terms.now) t ≡ Some s.now) }
{
    match terms.op(n) {
        Some(op) => scheme_of(terms.spec(), terms.view(), op, terms.scheme(n)),
        None => None,
    }
}

// how many schemes an operator has in a view
#[tactic(auto, using(crate::proofs::Viewed::schemes_counted))]
fn count_of(spec: &Spec, view: u32, op: OpId) -> usize
    ensures { result ≡ count_of (in_view spec.now view) op }
{
    schemes_in(spec, view, op).len()
}

/// How many schemes the operator of a node has in the view; 0 at a leaf.
pub fn scheme_count(terms: &Terms, n: NodeId) -> usize
    requires { IsLive (nodes terms.now) n }
    ensures { (t : Term) → Holds terms.now n t → result ≡ scheme_count (spec_shown terms.now) t }
{
    match terms.op(n) {
        Some(op) => count_of(terms.spec(), terms.view(), op),
        None => 0,
    }
}
