// The clip in the place of a node or of elements.
ghost use Rattle.std.specs.Prelude.{◌≡◌, ◌≤◌, ◌==◌, ◌&&◌, nat_eq, true, IfOk, MatchOption, Some, None, ⊤};
ghost use Rattle.sg_kinds.specs.Fits.{Fits};
ghost use Rattle.sg_kinds.specs.Terms.{Term as IsTerm};
ghost use Rattle.sg_forest.specs.Trees.{IsLive};
ghost use Rattle.sg_groves.specs.Grove.{nodes};
ghost use Rattle.sg_groves.specs.Holds.{Holds};
ghost use Rattle.sg_select.specs.Paths.{elements, is_list_node};
ghost use Rattle.sg_edits.specs.Choice.{Put};
ghost use Rattle.sg_edits.specs.Chosen.{IsChoice, IsRun, PutsFit};
ghost use Rattle.sg_edits.specs.Edits.{at_term, before, is_run, joined, pasted, pasted_over, picked_in, suits};

use crate::choice::{Choice, put};
use crate::clip::Clip;
use crate::lists::{behind, elements_in, is_list_operator, pair, paired};
use sg_build::copy_out;
use sg_forest::NodeId;
use sg_kinds::ids::PhylumId;
use sg_kinds::memory::NoMemory;
use sg_kinds::spec::Spec;
use sg_kinds::term::{Term, TermNode, Terms0};
use sg_script::Message;
use sg_select::spine_of;
use sg_terms::Terms;
use std::alloc::Global;

// an equal term
#[cycle(copy)]
#[tactic(auto, using(sg_build::proofs::Counted::height_at))]
fn copy_of(alloc: Global, t: &Term) -> Result<Term, NoMemory>
    ensures { IfOk result (λ s. s ≡ t.now) }
{
    match &t.node {
        TermNode::Leaf(p, v) => Ok(Term::leaf(*p, v.copy(alloc)?)),
        TermNode::Node(op, scheme, elided, kids) => {
            let kids = copies_of(alloc, kids)?;
            Ok(Term {
                node: TermNode::Node(*op, *scheme, *elided, kids),
            })
        }
    }
}

// equal terms in the same order
#[cycle(copy)]
#[tactic(auto, using(sg_build::proofs::Counted::height_at))]
fn copies_of(alloc: Global, kids: &[Term]) -> Result<Terms0, NoMemory>
    ensures { IfOk result (λ v. v.items ≡ kids.now) }
{
    let mut copies = Vec::with_capacity(alloc, kids.len())?;
    for kid in kids {
        copies.push(copy_of(alloc, kid)?)?;
    }
    Ok(copies)
}

// a list's elements before another list
#[tactic(auto, using(sg_build::proofs::Counted::height_at))]
fn joined(alloc: Global, spec: &Spec, list: &Term, rest: Term) -> Result<Term, NoMemory>
    ensures { IfOk result (λ s. s ≡ joined spec.now list.now rest) }
{
    match &list.node {
        TermNode::Leaf(_, _) => Ok(rest),
        TermNode::Node(op, _, _, kids) => {
            if kids.len() < 2 || !is_list_operator(spec, 2, *op) {
                return Ok(rest);
            }
            let rest = joined(alloc, spec, &kids[1], rest)?;
            let first = copy_of(alloc, &kids[0])?;
            Ok(pair(alloc, *op, first, rest)?)
        }
    }
}

// whether elements of a list were copied
fn is_run(clip: &Clip) -> bool
    ensures { result ≡ is_run clip.now }
{
    clip.count != 1
}

// whether what was copied may stand in the list of a node
fn suits(terms: &Terms, n: NodeId, clip: &Clip) -> bool
    requires { IsLive (nodes terms.now) n }
    ensures { (x : IsTerm) → Holds terms.now n x → result ≡ suits terms.now.spec clip.now x }
{
    if is_run(clip) {
        clip.phylum == terms.phylum(n)
    } else {
        clip.phylum == elements_in(terms, n)
    }
}

// what was copied before a list, in the list of a node
fn before(
    alloc: Global,
    terms: &Terms,
    n: NodeId,
    clip: &Clip,
    rest: Term,
) -> Result<Term, NoMemory>
    requires { IsLive (nodes terms.now) n }
    ensures { IfOk result (λ s. (x : IsTerm) → Holds terms.now n x → s ≡ before terms.now.spec clip.now x rest) }
{
    if is_run(clip) {
        return Ok(joined(alloc, terms.spec(), &clip.term, rest)?);
    }
    let first = copy_of(alloc, &clip.term)?;
    Ok(paired(alloc, terms, n, first, rest)?)
}

// what was copied in the place of the first elements of a list from a node on
fn pasted_over(
    alloc: Global,
    terms: &Terms,
    n: NodeId,
    count: usize,
    clip: &Clip,
) -> Result<Choice, NoMemory>
    requires live { IsLive (nodes terms.now) n }
    requires list { (x : IsTerm) → Holds terms.now n x → is_list_node terms.now.spec x ≡ true }
    requires long { (x : IsTerm) → Holds terms.now n x → count ≤ elements terms.now.spec x }
    requires clip { Fits terms.now.spec clip.now.term clip.now.phylum }
    ensures choice { IsChoice terms.now n result (λ t u. at_term t u (pasted_over terms.now.spec t count clip.now u)) }
    ensures fits { PutsFit terms.now n result }
{
    terms.facts();
    if !suits(terms, n, clip) {
        return Ok(Choice::Refused(Message::Phylum));
    }
    let rest = copy_out(alloc, terms, behind(terms, n, count))?;
    let term = before(alloc, terms, n, clip, rest)?;
    Ok(put(alloc, terms, n, term, n, true, clip.count)?)
}

// what was copied in the place of a node of its phylum
fn put_clip(alloc: Global, terms: &Terms, at: NodeId, clip: &Clip) -> Result<Choice, NoMemory>
    requires live { IsLive (nodes terms.now) at }
    requires fits { (x : IsTerm) → Holds terms.now at x → Fits terms.now.spec x clip.now.phylum }
    requires clip { Fits terms.now.spec clip.now.term clip.now.phylum }
    ensures choice { IsChoice terms.now at result (λ t u. Put u clip.now.term (picked_in clip.now u)) }
    ensures fits { PutsFit terms.now at result }
{
    terms.facts();
    let term = copy_of(alloc, &clip.term)?;
    Ok(put(alloc, terms, at, term, at, is_run(clip), clip.count)?)
}

// whether what was copied is of the phylum of one selected node
fn is_of(clip: &Clip, count: usize, p: PhylumId) -> bool
    ensures { result ≡ (nat_eq count 1 && clip.now.phylum == p) }
{
    count == 1 && clip.phylum == p
}

// the clip in the place of a node of its phylum, or of elements of a list
fn paste(
    alloc: Global,
    terms: &Terms,
    at: NodeId,
    count: usize,
    clip: &Clip,
) -> Result<Choice, NoMemory>
    requires live { IsLive (nodes terms.now) at }
    requires run { IsRun terms.now at count }
    requires clip { Fits terms.now.spec clip.now.term clip.now.phylum }
    ensures choice { IsChoice terms.now at result (λ t u. pasted terms.now.spec t u count (Some clip.now)) }
    ensures fits { PutsFit terms.now at result }
{
    terms.facts();
    if is_of(clip, count, terms.phylum(at)) {
        return Ok(put_clip(alloc, terms, at, clip)?);
    }
    match spine_of(terms, at) {
        Some(n) => Ok(pasted_over(alloc, terms, n, count, clip)?),
        None => Ok(Choice::Refused(Message::Phylum)),
    }
}

/// `paste`: what was copied, in the place of a node of its phylum; or of an element, or a run of them from there on, of
/// the clip's list.
pub fn pasted(
    alloc: Global,
    terms: &Terms,
    at: NodeId,
    count: usize,
    clip: Option<&Clip>,
) -> Result<Choice, NoMemory>
    requires live { IsLive (nodes terms.now) at }
    requires run { IsRun terms.now at count }
    requires clip { MatchOption clip ⊤ (λ x. Fits terms.now.spec x.now.term x.now.phylum) }
    ensures choice { MatchOption clip.entry
        (IsChoice terms.now at result (λ t u. pasted terms.now.spec t u count None))
        (λ x. IsChoice terms.now at result (λ t u. pasted terms.now.spec t u count (Some x.now))) }
    ensures fits { PutsFit terms.now at result }
{
    match clip {
        Some(clip) => Ok(paste(alloc, terms, at, count, clip)?),
        None => Ok(Choice::Refused(Message::ClipEmpty)),
    }
}
