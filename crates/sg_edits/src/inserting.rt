// New elements of lists.
ghost use Rattle.std.specs.Prelude.{◌≡◌, ◌≤◌, ◌&&◌, nat_eq, true, if◌then◌else◌, IfOk};
ghost use Rattle.sg_kinds.specs.Terms.{Term as IsTerm};
ghost use Rattle.sg_forest.specs.Trees.{IsLive};
ghost use Rattle.sg_groves.specs.Grove.{nodes};
ghost use Rattle.sg_groves.specs.Holds.{Holds};
ghost use Rattle.sg_select.specs.Paths.{elements, is_list_node};
ghost use Rattle.sg_edits.specs.Chosen.{IsChoice, IsRun, PutsFit};
ghost use Rattle.sg_edits.specs.Edits.{at_term, filled, grown, inserted, is_empty_list, longer};

use crate::choice::{Choice, put};
use crate::lists::{behind, elements_in, is_of_list, paired};
use sg_build::copy_out;
use sg_forest::NodeId;
use sg_kinds::memory::NoMemory;
use sg_kinds::term::Term;
use sg_script::Message;
use sg_select::spine_of;
use sg_terms::Terms;
use std::alloc::Global;

// a list's node of the same operator, over the placeholder of its elements' phylum and another list
fn longer(alloc: Global, terms: &Terms, n: NodeId, rest: Term) -> Result<Term, NoMemory>
    requires { IsLive (nodes terms.now) n }
    ensures { IfOk result (λ s. (x : IsTerm) → Holds terms.now n x → s ≡ longer terms.now.spec x rest) }
{
    let first = terms.spec().placeholder(alloc, elements_in(terms, n))?;
    Ok(paired(alloc, terms, n, first, rest)?)
}

// a new element behind the first ones of a list from a node on
fn grown(alloc: Global, terms: &Terms, n: NodeId, count: usize) -> Result<Choice, NoMemory>
    requires live { IsLive (nodes terms.now) n }
    requires list { (x : IsTerm) → Holds terms.now n x → is_list_node terms.now.spec x ≡ true }
    requires long { (x : IsTerm) → Holds terms.now n x → count ≤ elements terms.now.spec x }
    ensures choice { IsChoice terms.now n result (λ t u. at_term t u (grown terms.now.spec t count u)) }
    ensures fits { PutsFit terms.now n result }
{
    terms.facts();
    let place = behind(terms, n, count);
    let rest = copy_out(alloc, terms, place)?;
    let term = longer(alloc, terms, n, rest)?;
    Ok(put(alloc, terms, place, term, place, true, 1)?)
}

// an element in a list without any
fn filled(alloc: Global, terms: &Terms, at: NodeId) -> Result<Choice, NoMemory>
    requires { IsLive (nodes terms.now) at }
    ensures choice { IsChoice terms.now at result (λ t u. at_term t u (filled terms.now.spec u)) }
    ensures fits { PutsFit terms.now at result }
{
    terms.facts();
    let term = terms.spec().placeholder(alloc, terms.phylum(at))?;
    Ok(put(alloc, terms, at, term, at, true, 1)?)
}

// whether a node alone is a list without elements
fn is_empty(terms: &Terms, at: NodeId, count: usize) -> bool
    requires { IsLive (nodes terms.now) at }
    ensures { (x : IsTerm) → Holds terms.now at x
        → result ≡ (nat_eq count 1 && is_empty_list terms.now.spec x) }
{
    count == 1 && is_of_list(terms, 0, at)
}

// how many elements a new one comes behind
fn passed(count: usize, after: bool) -> usize
    ensures { result ≡ (if after then count else 0) }
{
    if after { count } else { 0 }
}

/// `insert-before` and `insert-after`: a new element before the one that a node is, or behind the last of a run from
/// there on; or in a list without elements, where it is meant alone.
pub fn inserted(
    alloc: Global,
    terms: &Terms,
    at: NodeId,
    count: usize,
    after: bool,
) -> Result<Choice, NoMemory>
    requires live { IsLive (nodes terms.now) at }
    requires run { IsRun terms.now at count }
    ensures choice { IsChoice terms.now at result (λ t u. inserted terms.now.spec t u count after) }
    ensures fits { PutsFit terms.now at result }
{
    terms.facts();
    if is_empty(terms, at, count) {
        return Ok(filled(alloc, terms, at)?);
    }
    match spine_of(terms, at) {
        Some(n) => Ok(grown(alloc, terms, n, passed(count, after))?),
        None => Ok(Choice::Refused(Message::NotInList)),
    }
}
