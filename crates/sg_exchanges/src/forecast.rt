//! What tells, before a term comes into the place of a node, where nodes begin then.
ghost use Rattle.std.specs.Prelude.{◌≡◌, ◌/◌, min, nat_le, length, IfOk, IfSome, IsTrue};
ghost use Rattle.sg_kinds.specs.Places.{Place, put};
ghost use Rattle.sg_kinds.specs.Specification.{locals_of};
ghost use Rattle.sg_kinds.specs.Terms.{Term, nodes_of};
ghost use Rattle.sg_forest.specs.Trees.{Climbs, IsLive};
ghost use Rattle.sg_groves.specs.Grove.{nodes};
ghost use Rattle.sg_groves.specs.Holds.{Holds};
ghost use Rattle.sg_propagate.specs.Exchanged.{Reaches};
ghost use Rattle.sg_states.specs.Paged.{IsForetold, IsWhole};
ghost use Rattle.sg_exchanges.specs.Known.{HasAttributesOnly, IsKnown, IsNear, WillTell};

use sg_build::counts_below;
use sg_forest::NodeId;
use sg_kinds::ids::OpId;
use sg_kinds::memory::NoMemory;
use sg_kinds::spec::Spec;
use sg_states::{Before, foretell};
use sg_terms::Terms;
use sg_unparse::Beginning;
use std::alloc::Global;

/// What is known of the edited term: its selected node, where that begins, and how many nodes there are.
#[derive(Clone, Copy)]
pub struct Known {
    pub selected: NodeId,
    pub begins: Beginning,
    pub count: usize,
}

// whether a node has at most an eighth of so many nodes, so that what it writes is small beside the page
fn is_part(terms: &Terms, n: NodeId, count: usize) -> bool
    requires { IsLive (nodes terms.now) n }
    ensures { (t : Term) → Holds terms.now n t → result ≡ nat_le (min (nodes_of t) usize.MAX) (count / 8) }
{
    counts_below(terms, n).nodes <= count / 8
}

/// What tells where nodes begin once another term comes into the place of a node. None where nothing is known, at the
/// root and its children, and where what the node above writes is no small part of the page.
pub(crate) fn forecast_before(
    alloc: Global,
    terms: &Terms,
    root: NodeId,
    at: NodeId,
    known: Option<Known>,
) -> Result<Option<Before>, NoMemory>
    requires live { IsLive (nodes terms.now) at }
    requires known { IfSome known (IsKnown terms.now root) }
    ensures { (t : Term) (u : Place) → IsWhole terms.now root t → Climbs (nodes terms.now) u at root
        → IfOk result (λ r. IfSome r (WillTell terms.now.spec terms.now.view t u)) }
{
    terms.facts();
    let Some(known) = known else {
        return Ok(None);
    };
    let Some((above, _)) = terms.parent(at) else {
        return Ok(None);
    };
    if terms.parent(above).is_none() || !is_part(terms, above, known.count) {
        return Ok(None);
    }
    foretell(
        alloc,
        terms,
        above,
        known.selected,
        known.begins,
        known.count,
    )
}

// how many locals an operator has
fn locals(spec: &Spec, op: OpId) -> usize
    ensures { result ≡ length (locals_of spec.now.ops op) }
{
    match spec.ops.place(op.number) {
        Some(operator) => operator.locals.len(),
        None => 0,
    }
}

// whether a node hangs under another, and its operator has no locals
fn has_attributes_only(terms: &Terms, n: NodeId) -> bool
    requires { IsLive (nodes terms.now) n }
    ensures { IsTrue result → HasAttributesOnly terms.now n }
{
    if terms.parent(n).is_none() {
        return false;
    }
    match terms.op(n) {
        Some(op) => locals(terms.spec(), op) == 0,
        None => false,
    }
}

// whether a change reaches no further than the node that came, or only to the attributes of the one above
fn is_near(terms: &Terms, at: NodeId, above: NodeId, reach: NodeId) -> bool
    requires { IsLive (nodes terms.now) above }
    ensures { IsTrue result → IsNear terms.now at above reach }
{
    if reach == at {
        return true;
    }
    reach == above && has_attributes_only(terms, above)
}

/// What was told before, where it holds once the term came and the change reached so far: no further than to the node
/// that came, or to the one above if that has only attributes, which are the same then.
pub(crate) fn forecast_after(
    terms: &Terms,
    root: NodeId,
    at: NodeId,
    reach: NodeId,
    before: Option<Before>,
) -> Option<Before>
    requires { IsLive (nodes terms.now) at }
    ensures { (t s : Term) (u : Place) → IsWhole terms.now root (put t u s) → Climbs (nodes terms.now) u at root
        → Reaches terms.now.spec terms.now root t u s reach → IfSome before (WillTell terms.now.spec terms.now.view t u)
        → IfSome result (IsForetold terms.now root) }
{
    terms.facts();
    let before = before?;
    let (above, _) = terms.parent(at)?;
    if is_near(terms, at, above, reach) {
        Some(Before {
            above,
            old: before.old,
            from: before.from,
            margin: before.margin,
        })
    } else {
        None
    }
}
