// Lists and their elements.
ghost use Rattle.std.specs.Prelude.{◌≡◌, ◌≤◌, ◌&&◌, false, slice_get, unwrap_or, IfOk, IfSome};
ghost use Rattle.sg_kinds.specs.Specification.{args_of, has_shape};
ghost use Rattle.sg_kinds.specs.Places.{Place};
ghost use Rattle.sg_kinds.specs.Terms.{Term as IsTerm, Node, NoTerm, AndTerm};
ghost use Rattle.sg_forest.specs.Trees.{IsLive};
ghost use Rattle.sg_groves.specs.Grove.{nodes};
ghost use Rattle.sg_groves.specs.Holds.{Holds, IsPlaced};
ghost use Rattle.sg_select.specs.Leads.{LeadsTo};
ghost use Rattle.sg_select.specs.Paths.{elements};
ghost use Rattle.sg_edits.specs.Chosen.{IsLeft};
ghost use Rattle.sg_edits.specs.Edits.{behind_at, elements_in, is_list_operator, is_listed, is_never_empty, is_of_list, is_only, node_before, paired, rest_behind};

use sg_forest::NodeId;
use sg_kinds::ids::{OpId, PhylumId};
use sg_kinds::marks::Shape;
use sg_kinds::memory::NoMemory;
use sg_kinds::spec::Spec;
use sg_kinds::term::Term;
use sg_terms::Terms;
use std::alloc::Global;

// whether an operator is one of a list and has so many arguments
pub fn is_list_operator(spec: &Spec, count: usize, op: OpId) -> bool
    ensures { result ≡ is_list_operator spec.now count op }
{
    let Some(operator) = spec.ops.place(op.number) else {
        return false;
    };
    let is_list = match spec.phyla.place(operator.phylum.number) {
        Some(phylum) => matches!(phylum.shape, Shape::Listed | Shape::OptionalListed),
        None => false,
    };
    is_list && operator.args.len() == count
}

// whether a node is of such an operator
pub fn is_of_list(terms: &Terms, count: usize, n: NodeId) -> bool
    requires { IsLive (nodes terms.now) n }
    ensures { (t : IsTerm) → Holds terms.now n t → result ≡ is_of_list terms.now.spec count t }
{
    match terms.op(n) {
        Some(op) => is_list_operator(terms.spec(), count, op),
        None => false,
    }
}

// whether a phylum is a list that may not be empty
fn is_listed(spec: &Spec, p: PhylumId) -> bool
    ensures { result ≡ has_shape spec.now.phyla is_listed p }
{
    match spec.phyla.place(p.number) {
        Some(phylum) => matches!(phylum.shape, Shape::Listed),
        None => false,
    }
}

// the list's node before one that is its second child
fn node_before(terms: &Terms, n: NodeId) -> Option<NodeId>
    requires { IsLive (nodes terms.now) n }
    ensures live { IfSome result (IsLive (nodes terms.now)) }
    ensures leads { (root : _) (t : IsTerm) (u : Place) → IsPlaced terms.now root t u n
        → LeadsTo terms.now root (node_before terms.now.spec t u) result }
{
    terms.facts();
    match terms.parent(n) {
        Some((above, k)) => {
            if k == 1 && is_of_list(terms, 2, above) {
                Some(above)
            } else {
                None
            }
        }
        None => None,
    }
}

// whether all elements go with those of a list's node, where what follows is in another node
fn is_only(terms: &Terms, n: NodeId, rest: NodeId) -> bool
    requires node { IsLive (nodes terms.now) n }
    requires rest { IsLive (nodes terms.now) rest }
    ensures { (root : _) (t y : IsTerm) (u : Place) → IsPlaced terms.now root t u n → Holds terms.now rest y
        → result ≡ is_only terms.now.spec t u y }
{
    terms.facts();
    if is_of_list(terms, 2, rest) {
        return false;
    }
    match node_before(terms, n) {
        Some(_) => false,
        None => true,
    }
}

// whether they are all of a list that may not be empty
pub fn is_last(terms: &Terms, n: NodeId, rest: NodeId) -> bool
    requires node { IsLive (nodes terms.now) n }
    requires rest { IsLive (nodes terms.now) rest }
    ensures { (root : _) (t x y : IsTerm) (u : Place) → IsPlaced terms.now root t u n → Holds terms.now n x
        → Holds terms.now rest y → result ≡ (is_only terms.now.spec t u y && is_never_empty terms.now.spec x) }
{
    terms.facts();
    if !is_only(terms, n, rest) {
        return false;
    }
    is_listed(terms.spec(), terms.phylum(n))
}

// the node that is selected where a list's node went and what follows came there, or whose first child is
pub fn left(terms: &Terms, n: NodeId, rest: NodeId) -> (NodeId, bool)
    requires node { IsLive (nodes terms.now) n }
    requires rest { IsLive (nodes terms.now) rest }
    ensures live { IsLive (nodes terms.now) result.0 }
    ensures left { (root : _) (t y : IsTerm) (u : Place) → IsPlaced terms.now root t u n → Holds terms.now rest y
        → IsLeft terms.now root t u y result.0 result.1 }
{
    terms.facts();
    if is_of_list(terms, 2, rest) {
        return (n, true);
    }
    match node_before(terms, n) {
        Some(before) => (before, true),
        None => (n, false),
    }
}

// the node behind the first elements of a list
pub fn behind(terms: &Terms, n: NodeId, count: usize) -> NodeId
    requires live { IsLive (nodes terms.now) n }
    requires long { (x : IsTerm) → Holds terms.now n x → count ≤ elements terms.now.spec x }
    ensures live { IsLive (nodes terms.now) result }
    ensures placed { (root : _) (t : IsTerm) (u : Place) → IsPlaced terms.now root t u n
        → IsPlaced terms.now root t (behind_at count u) result }
    ensures holds { (x : IsTerm) → Holds terms.now n x → Holds terms.now result (rest_behind count x) }
{
    terms.facts();
    let mut at = n;
    for _step in 0..count {
        at = terms.kid(at, 1);
    }
    at
}

// the phylum of the elements of a list, by its binary operator
fn element_of(spec: &Spec, op: OpId) -> PhylumId
    ensures { result ≡ unwrap_or (slice_get (args_of spec.now.ops op) 0) 0 }
{
    match spec.ops.place(op.number) {
        Some(operator) => operator
            .args
            .as_slice()
            .get(0)
            .copied()
            .unwrap_or(PhylumId { number: 0 }),
        None => PhylumId { number: 0 },
    }
}

// and by a node of it
pub fn elements_in(terms: &Terms, n: NodeId) -> PhylumId
    requires { IsLive (nodes terms.now) n }
    ensures { (x : IsTerm) → Holds terms.now n x → result ≡ elements_in terms.now.spec x }
{
    match terms.op(n) {
        Some(op) => element_of(terms.spec(), op),
        None => PhylumId { number: 0 },
    }
}

// a term of an operator with two arguments
pub fn pair(alloc: Global, op: OpId, first: Term, rest: Term) -> Result<Term, NoMemory>
    ensures { IfOk result (λ s. s ≡ Node op 0 false (AndTerm first (AndTerm rest NoTerm))) }
{
    let mut kids = Vec::with_capacity(alloc, 2)?;
    kids.push(first)?;
    kids.push(rest)?;
    Ok(Term::plain(op, kids))
}

// a list's node of the same operator, over an element and another list
pub fn paired(
    alloc: Global,
    terms: &Terms,
    n: NodeId,
    first: Term,
    rest: Term,
) -> Result<Term, NoMemory>
    requires { IsLive (nodes terms.now) n }
    ensures { IfOk result (λ s. (x : IsTerm) → Holds terms.now n x → s ≡ paired x first rest) }
{
    match terms.op(n) {
        Some(op) => Ok(pair(alloc, op, first, rest)?),
        None => Ok(rest),
    }
}
