// The clip.
ghost use Rattle.std.specs.Prelude.{◌≡◌, ◌≤◌, true, IfOk};
ghost use Rattle.sg_kinds.specs.Fits.{Fits};
ghost use Rattle.sg_kinds.specs.Places.{Place};
ghost use Rattle.sg_kinds.specs.Terms.{Term as IsTerm};
ghost use Rattle.sg_forest.specs.Trees.{IsLive};
ghost use Rattle.sg_groves.specs.Grove.{nodes};
ghost use Rattle.sg_groves.specs.Holds.{Holds, IsPlaced};
ghost use Rattle.sg_select.specs.Paths.{elements, is_list_node};
ghost use Rattle.sg_edits.specs.Chosen.{IsRun};
ghost use Rattle.sg_edits.specs.Edits.{clip_of, empty_of, front, run_kept, term_kept};

use crate::lists::paired;
use sg_build::copy_out;
use sg_forest::NodeId;
use sg_kinds::ids::{OpId, PhylumId};
use sg_kinds::memory::NoMemory;
use sg_kinds::spec::Spec;
use sg_kinds::term::Term;
use sg_select::spine_of;
use sg_terms::Terms;
use std::alloc::Global;

/// What was cut or copied, with its schemes and marks: a term and its phylum; or a run of elements, as a list of them
/// alone, and the list's phylum.
#[derive(Drop)]
pub struct Clip {
    pub phylum: PhylumId,
    pub term: Term,
    /// how many elements of a list; 1 for a term
    pub count: usize,
}

// a list without elements, by its phylum
fn empty(alloc: Global, spec: &Spec, p: PhylumId) -> Term
    ensures { result ≡ empty_of spec.now p }
{
    let op = match spec.phyla.place(p.number) {
        Some(phylum) => phylum
            .ops
            .as_slice()
            .get(0)
            .copied()
            .unwrap_or(OpId { number: 0 }),
        None => OpId { number: 0 },
    };
    Term::plain(op, Vec::new(alloc))
}

// the first elements of a list from a node on, as a list of them alone
fn front(alloc: Global, terms: &Terms, n: NodeId, count: usize) -> Result<Term, NoMemory>
    requires live { IsLive (nodes terms.now) n }
    requires long { (x : IsTerm) → Holds terms.now n x → count ≤ elements terms.now.spec x }
    ensures { IfOk result (λ s. (x : IsTerm) → Holds terms.now n x → s ≡ front terms.now.spec count x) }
{
    terms.facts();
    if count == 0 {
        return Ok(empty(alloc, terms.spec(), terms.phylum(n)));
    }
    let rest = front(alloc, terms, terms.kid(n, 1), count - 1)?;
    let first = copy_out(alloc, terms, terms.kid(n, 0))?;
    Ok(paired(alloc, terms, n, first, rest)?)
}

// what is kept of a term
fn term_kept(alloc: Global, terms: &Terms, at: NodeId) -> Result<Clip, NoMemory>
    requires { IsLive (nodes terms.now) at }
    ensures clip { IfOk result (λ c. (x : IsTerm) → Holds terms.now at x → c ≡ term_kept terms.now.spec x) }
    ensures fits { IfOk result (λ c. Fits terms.now.spec c.term c.phylum) }
{
    Ok(Clip {
        phylum: terms.phylum(at),
        term: copy_out(alloc, terms, at)?,
        count: 1,
    })
}

// what is kept of the first elements of a list from a node on
fn run_kept(alloc: Global, terms: &Terms, n: NodeId, count: usize) -> Result<Clip, NoMemory>
    requires live { IsLive (nodes terms.now) n }
    requires list { (x : IsTerm) → Holds terms.now n x → is_list_node terms.now.spec x ≡ true }
    requires long { (x : IsTerm) → Holds terms.now n x → count ≤ elements terms.now.spec x }
    ensures clip { IfOk result (λ c. (x : IsTerm) → Holds terms.now n x → c ≡ run_kept terms.now.spec count x) }
    ensures fits { IfOk result (λ c. Fits terms.now.spec c.term c.phylum) }
{
    terms.facts();
    Ok(Clip {
        phylum: terms.phylum(n),
        term: front(alloc, terms, n, count)?,
        count,
    })
}

/// `copy`: the term under a node, or a run of elements from there on, with what phylum it fits.
pub fn copied(alloc: Global, terms: &Terms, at: NodeId, count: usize) -> Result<Clip, NoMemory>
    requires live { IsLive (nodes terms.now) at }
    requires run { IsRun terms.now at count }
    ensures clip { IfOk result (λ c. (root : _) (t : IsTerm) (u : Place) → IsPlaced terms.now root t u at
        → c ≡ clip_of terms.now.spec t u count) }
    ensures fits { IfOk result (λ c. Fits terms.now.spec c.term c.phylum) }
{
    terms.facts();
    if count == 1 {
        return Ok(term_kept(alloc, terms, at)?);
    }
    match spine_of(terms, at) {
        Some(n) => Ok(run_kept(alloc, terms, n, count)?),
        None => Ok(term_kept(alloc, terms, at)?),
    }
}
