// Elements taken out of lists, and completing terms.
ghost use Rattle.std.specs.Prelude.{◌≤◌, true};
ghost use Rattle.sg_kinds.specs.Terms.{Term};
ghost use Rattle.sg_forest.specs.Trees.{IsLive};
ghost use Rattle.sg_groves.specs.Grove.{nodes};
ghost use Rattle.sg_groves.specs.Holds.{Holds};
ghost use Rattle.sg_select.specs.Paths.{elements};
ghost use Rattle.sg_edits.specs.Chosen.{IsChoice, IsRun, PutsFit};
ghost use Rattle.sg_edits.specs.Edits.{at_term, completed, deleted, emptied, removed, taken, without};

use crate::choice::{Choice, put};
use crate::lists::{behind, is_last, left};
use sg_build::copy_out;
use sg_forest::NodeId;
use sg_kinds::memory::NoMemory;
use sg_script::Message;
use sg_select::spine_of;
use sg_terms::Terms;
use std::alloc::Global;

// the completing term of a node's phylum in its place; selected is it, or its first child
fn completed(alloc: Global, terms: &Terms, at: NodeId, first: bool) -> Result<Choice, NoMemory>
    requires { IsLive (nodes terms.now) at }
    ensures choice { IsChoice terms.now at result (λ t u. at_term t u (completed terms.now.spec first u)) }
    ensures fits { PutsFit terms.now at result }
{
    terms.facts();
    let term = terms.spec().completing(alloc, terms.phylum(at))?;
    Ok(put(alloc, terms, at, term, at, first, 1)?)
}

// where a list that may not be empty would be
fn emptied(alloc: Global, terms: &Terms, n: NodeId, deletes: bool) -> Result<Choice, NoMemory>
    requires { IsLive (nodes terms.now) n }
    ensures choice { IsChoice terms.now n result (λ t u. at_term t u (emptied terms.now.spec t deletes u)) }
    ensures fits { PutsFit terms.now n result }
{
    terms.facts();
    if deletes {
        Ok(completed(alloc, terms, n, true)?)
    } else {
        Ok(Choice::Refused(Message::LastElement))
    }
}

// a list without its first elements from a node on
fn without(
    alloc: Global,
    terms: &Terms,
    n: NodeId,
    count: usize,
    deletes: bool,
) -> Result<Choice, NoMemory>
    requires live { IsLive (nodes terms.now) n }
    requires long { (x : Term) → Holds terms.now n x → count ≤ elements terms.now.spec x }
    ensures choice { IsChoice terms.now n result (λ t u. at_term t u (without terms.now.spec t deletes count u)) }
    ensures fits { PutsFit terms.now n result }
{
    terms.facts();
    let rest = behind(terms, n, count);
    if is_last(terms, n, rest) {
        return Ok(emptied(alloc, terms, n, deletes)?);
    }
    let (select, first) = left(terms, n, rest);
    let term = copy_out(alloc, terms, rest)?;
    Ok(put(alloc, terms, n, term, select, first, 1)?)
}

// elements out of their list
fn taken(
    alloc: Global,
    terms: &Terms,
    at: NodeId,
    count: usize,
    deletes: bool,
) -> Result<Choice, NoMemory>
    requires live { IsLive (nodes terms.now) at }
    requires run { IsRun terms.now at count }
    ensures choice { IsChoice terms.now at result (λ t u. taken terms.now.spec t deletes u count) }
    ensures fits { PutsFit terms.now at result }
{
    terms.facts();
    match spine_of(terms, at) {
        Some(n) => Ok(without(alloc, terms, n, count, deletes)?),
        None => Ok(Choice::Refused(Message::NotInList)),
    }
}

/// `remove`: the list without the element that a node is, or without a run of them from there on.
pub fn removed(alloc: Global, terms: &Terms, at: NodeId, count: usize) -> Result<Choice, NoMemory>
    requires live { IsLive (nodes terms.now) at }
    requires run { IsRun terms.now at count }
    ensures choice { IsChoice terms.now at result (λ t u. removed terms.now.spec t u count) }
    ensures fits { PutsFit terms.now at result }
{
    Ok(taken(alloc, terms, at, count, false)?)
}

/// `delete`: the completing term of a node's phylum in its place; or the list without a run of elements. A list that may
/// not be empty and would lose all gives way to its completing term.
pub fn deleted(alloc: Global, terms: &Terms, at: NodeId, count: usize) -> Result<Choice, NoMemory>
    requires live { IsLive (nodes terms.now) at }
    requires run { IsRun terms.now at count }
    ensures choice { IsChoice terms.now at result (λ t u. deleted terms.now.spec t u count) }
    ensures fits { PutsFit terms.now at result }
{
    terms.facts();
    if count == 1 {
        Ok(completed(alloc, terms, at, false)?)
    } else {
        Ok(taken(alloc, terms, at, count, true)?)
    }
}
