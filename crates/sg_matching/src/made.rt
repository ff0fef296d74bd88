// Made terms against what stands under a node, side by side: nothing is built.
ghost use Rattle.std.specs.Prelude.{◌≡◌, ◌<◌, length, slice_get};
ghost use Rattle.sg_kinds.specs.Values.{Tree, NoValue, same_value};
ghost use Rattle.sg_kinds.specs.Completing.{all_made, over, one_element, completing_within};
ghost use Rattle.sg_kinds.specs.Placeholder.{placeholder_within};
ghost use Rattle.sg_kinds.specs.Evaluation.{made_value};
ghost use Rattle.sg_forest.specs.Trees.{IsLive};
ghost use Rattle.sg_groves.specs.Grove.{nodes};
ghost use Rattle.sg_matching.specs.Under.{value_under, values_under};
ghost use Rattle.sg_matching.specs.MadeUnder.{has_value, have_values};

use crate::nodes::{args, first_arg, is_empty_text, is_literal, is_of, kid_at};
use sg_forest::NodeId;
use sg_kinds::ids::{OpId, PhylumId};
use sg_kinds::limits::DEPTH;
use sg_kinds::marks::{Made, Shape};
use sg_kinds::pattern::Literal;
use sg_kinds::row::Row;
use sg_terms::Terms;

/// The greatest depth of a completing term.
const COMPLETING_DEPTH: u32 = DEPTH as u32;

/// Whether the value under a node is that of `[p]` or `<p>`. It takes no memory.
pub fn is_made(terms: &Terms, made: Made, p: PhylumId, n: NodeId) -> bool
    requires live { IsLive (nodes terms.now) n }
    requires phylum { p < length terms.now.spec.phyla }
    ensures { result ≡ same_value (made_value terms.now.spec made p) (value_under terms.now n) }
{
    terms.facts();
    match made {
        Made::Completing => is_completing(terms, p, n, COMPLETING_DEPTH),
        Made::Placeholder => is_placeholder(terms, p, n, COMPLETING_DEPTH - 1),
    }
}

// the operator at a place
fn op_there(ops: &Row<OpId>, k: u32) -> Option<OpId>
    ensures { result ≡ slice_get ops.now k }
{
    ops.place(k).copied()
}

// whether there is a placeholder over completing terms whose depth is at most `room`, and its value is that under the
// node
fn is_placeholder(terms: &Terms, p: PhylumId, n: NodeId, room: u32) -> bool
    requires live { IsLive (nodes terms.now) n }
    requires room { room < 1024 }
    ensures { result ≡ has_value (placeholder_within terms.now.spec room p) (value_under terms.now n) }
{
    let Some(phylum) = terms.spec().phyla.place(p.number) else {
        return false;
    };
    match phylum.shape {
        Shape::Optional => is_over(terms, op_there(&phylum.ops, 1), n, room),
        Shape::OptionalListed => is_one_element(terms, &phylum.ops, n, room),
        _ => is_completing(terms, p, n, room + 1),
    }
}

// whether there is a completing term whose depth is at most `room`, and its value is that under the node
#[cycle(completing)]
fn is_completing(terms: &Terms, p: PhylumId, n: NodeId, room: u32) -> bool
    requires live { IsLive (nodes terms.now) n }
    ensures { result ≡ has_value (completing_within terms.now.spec room p) (value_under terms.now n) }
{
    if room == 0 {
        return false;
    }
    let Some(phylum) = terms.spec().phyla.place(p.number) else {
        return false;
    };
    match phylum.shape {
        Shape::Truths => is_literal(terms, &Literal::Truth(false), n),
        Shape::Numbers => is_literal(terms, &Literal::Number(0), n),
        Shape::Texts => is_empty_text(terms, n),
        Shape::Lexemes(_) => is_empty_text(terms, n),
        Shape::Listed => is_one_element(terms, &phylum.ops, n, room - 1),
        _ => is_over(terms, op_there(&phylum.ops, 0), n, room - 1),
    }
}

// the same of an operator over completing terms
#[cycle(completing)]
fn is_over(terms: &Terms, op: Option<OpId>, n: NodeId, room: u32) -> bool
    requires live { IsLive (nodes terms.now) n }
    ensures { result ≡ has_value (over terms.now.spec (completing_within terms.now.spec room) op)
        (value_under terms.now n) }
{
    let Some(op) = op else {
        return false;
    };
    terms.facts();
    if !is_of(terms, op, n) {
        return false;
    }
    are_completing(terms, args(terms.spec(), op), n, room)
}

// the same of completing terms, against the values under a node's children
#[cycle(completing)]
fn are_completing(terms: &Terms, phyla: &[PhylumId], n: NodeId, room: u32) -> bool
    requires live { IsLive (nodes terms.now) n }
    ensures { result ≡ have_values (all_made (completing_within terms.now.spec room) phyla.now)
        (values_under terms.now n 0) }
{
    for (k, p) in phyla.iter().enumerate() {
        let Some(kid) = kid_at(terms, n, k) else {
            return false;
        };
        if !is_completing(terms, *p, kid, room) {
            return false;
        }
    }
    kid_at(terms, n, phyla.len()).is_none()
}

// the same of a list with one element
#[cycle(completing)]
fn is_one_element(terms: &Terms, ops: &Row<OpId>, n: NodeId, room: u32) -> bool
    requires live { IsLive (nodes terms.now) n }
    ensures { result ≡ has_value (one_element terms.now.spec (completing_within terms.now.spec room) ops.now)
        (value_under terms.now n) }
{
    let (Some(nil), Some(pair)) = (ops.place(0), ops.place(1)) else {
        return false;
    };
    terms.facts();
    if !is_of(terms, *pair, n) {
        return false;
    }
    let Some(first) = kid_at(terms, n, 0) else {
        return false;
    };
    let Some(rest) = kid_at(terms, n, 1) else {
        return false;
    };
    if kid_at(terms, n, 2).is_some() {
        return false;
    }
    let Some(element) = first_arg(terms.spec(), *pair) else {
        return false;
    };
    is_completing(terms, element, first, room) && is_nullary(terms, *nil, rest)
}

// whether the value under a node is that of an operator over nothing
fn is_nullary(terms: &Terms, op: OpId, n: NodeId) -> bool
    requires live { IsLive (nodes terms.now) n }
    ensures { result ≡ same_value (Tree op NoValue) (value_under terms.now n) }
{
    is_of(terms, op, n) && kid_at(terms, n, 0).is_none()
}
