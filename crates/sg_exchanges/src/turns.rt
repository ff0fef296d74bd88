//! Turns of a term: another tree in the place of a node, or other marks, and what is seen then.
ghost use Rattle.std.specs.Prelude.{◌≡◌, ◌≢◌, ◌<◌, ℕ, None, Some, IfOk, OnErr};
ghost use Rattle.sg_kinds.specs.Places.{Place};
ghost use Rattle.sg_kinds.specs.Specification.{rules_of};
ghost use Rattle.sg_kinds.specs.Terms.{Term};
ghost use Rattle.sg_kinds.specs.ValidPlans.{AreValid};
ghost use Rattle.sg_pool.specs.Pools.{IsGrown};
ghost use Rattle.sg_eval.specs.Journal.{now_of, total_of};
ghost use Rattle.sg_forest.specs.Trees.{Climbs, IsLive};
ghost use Rattle.sg_forest.specs.Steps.{IsPartSet};
ghost use Rattle.sg_groves.specs.Grove.{nodes};
ghost use Rattle.sg_groves.specs.Stored.{number_at};
ghost use Rattle.sg_terms.specs.Kept.{ChangesTerms, KeepsTermsWithout};
ghost use Rattle.sg_trail.specs.Trails.{LeadsBack};
ghost use Rattle.sg_changes.specs.Changes.{with_marks};
ghost use Rattle.sg_exchanges.specs.Known.{ReachesThen};
ghost use Rattle.sg_exchanges.specs.Noted.{IsTreeThen};
ghost use Rattle.sg_exchanges.specs.Turns.{IsSeen, IsTurned, MayTurn, Notes, NotesSome, stands_there};

use sg_changes::{Marks, Selection};
use sg_eval::{Evaluator, Journal};
use sg_forest::NodeId;
use sg_kinds::memory::NoMemory;
use sg_kinds::plans::Plans;
use sg_propagate::replace;
use sg_states::{Look, look_at};
use sg_terms::Terms;
use sg_trail::Trail;
use std::alloc::Global;

/// What comes into the place of a node.
#[derive(Clone, Copy)]
pub enum What {
    /// the tree of a detached root, of the node's phylum
    Tree(NodeId),
    /// the node as it is, shown with these marks
    Shown(Marks),
}

/// The term's root once a tree came into the place of a node, the way back, and the node that the change reaches.
#[derive(Drop)]
pub struct Swapped {
    pub root: NodeId,
    pub trail: Trail,
    pub reach: NodeId,
}

/// The term's root after a turn, and what is seen.
#[derive(Drop)]
pub struct Turned {
    pub root: NodeId,
    pub look: Look,
}

// the root of the edited term once a detached tree took the place of a node
fn root_after(root: NodeId, at: NodeId, detached: NodeId) -> NodeId
    ensures here { at ≡ root → result ≡ detached }
    ensures there { at ≢ root → result ≡ root }
{
    if at == root { detached } else { root }
}

/// The tree of a detached root in the place of a node, with the way back. Where memory is wanting each node is as
/// before, and only the pool and the journal may have grown.
pub fn exchanged(
    alloc: Global,
    terms: &mut Terms,
    root: NodeId,
    at: NodeId,
    detached: NodeId,
    plans: &Plans,
    ev: &Evaluator,
    journal: &mut Journal,
) -> Result<Swapped, NoMemory>
    requires valid { AreValid (rules_of terms.old.spec) plans.now }
    requires same { ev.now ≡ terms.old.spec }
    requires may { (t : Term) × (u : Place) × MayTurn terms.old root at (What.Tree detached) t u }
    ensures turned { (t : Term) (u : Place) → MayTurn terms.old root at (What.Tree detached) t u → IfOk result (λ r.
        IsTurned terms.old terms.new root at (What.Tree detached) t u r.root) }
    ensures noted { (t : Term) (u : Place) → MayTurn terms.old root at (What.Tree detached) t u → IfOk result (λ r.
        Notes terms.old terms.new r.root t u (What.Tree detached) (now_of journal.old) (now_of journal.new)) }
    ensures some { (t : Term) (u : Place) → MayTurn terms.old root at (What.Tree detached) t u → OnErr result
        (NotesSome terms.old root t u (What.Tree detached) (now_of journal.old) (now_of journal.new)) }
    ensures reach { (t : Term) (u : Place) → MayTurn terms.old root at (What.Tree detached) t u → IfOk result (λ r.
        ReachesThen terms.old terms.new detached r.root t u r.reach) }
    ensures tree { (t : Term) (u : Place) → MayTurn terms.old root at (What.Tree detached) t u → IfOk result (λ r.
        IsTreeThen terms.old root u (Some detached) terms.new r.root) }
    ensures leads_back { IfOk result (λ r. LeadsBack terms.old terms.new r.trail) }
    ensures as_before { OnErr result ((n : _) → nodes terms.new n ≡ nodes terms.old n) }
    ensures spec { terms.new.spec ≡ terms.old.spec }
    ensures view { terms.new.view ≡ terms.old.view }
    ensures grown { IsGrown terms.old.pool terms.new.pool }
    ensures total { total_of journal.new ≡ total_of journal.old }
{
    terms.facts();
    let done = replace(alloc, terms, at, detached, plans, ev, journal)?;
    terms.facts();
    let root = root_after(root, at, detached);
    Ok(Swapped {
        root,
        trail: done.trail,
        reach: done.reach,
    })
}

/// The node that stands in the place of another once something came there.
pub(crate) fn standing(what: What, at: NodeId) -> NodeId
    ensures { result ≡ stands_there what at }
{
    match what {
        What::Tree(detached) => detached,
        What::Shown(_) => at,
    }
}

// the marks of a node of an operator
fn put_marks(terms: &mut Terms, n: NodeId, marks: Marks)
    requires node { (x : _) → nodes terms.old n ≡ Some x → x.label.op ≢ None }
    requires live { IsLive (nodes terms.old) n }
    requires scheme { marks.scheme < 16 }
    ensures set { (x : _) → nodes terms.old n ≡ Some x → IsPartSet (nodes terms.old) (nodes terms.new) n
        (record x.part { scheme = marks.scheme; elided = marks.elided }) }
    ensures over { ChangesTerms terms.old terms.new n (λ s. with_marks s marks) }
    ensures others { KeepsTermsWithout terms.old terms.new n }
    ensures numbers { (m : _) (slot : ℕ) → number_at terms.new m slot ≡ number_at terms.old m slot }
    ensures spec { terms.new.spec ≡ terms.old.spec }
    ensures view { terms.new.view ≡ terms.old.view }
    ensures pool { terms.new.pool ≡ terms.old.pool }
{
    terms.set_scheme(n, marks.scheme);
    terms.set_elided(n, marks.elided);
}

/// Other marks of a node of an operator, and what is seen then. Where memory is wanting each node is as before.
pub fn remarked(
    alloc: Global,
    terms: &mut Terms,
    root: NodeId,
    at: NodeId,
    marks: Marks,
    select: &Selection,
    height: usize,
    top: usize,
) -> Result<Turned, NoMemory>
    requires tall { 0 < height }
    requires may { (t : Term) × (u : Place) × MayTurn terms.old root at (What.Shown marks) t u }
    ensures turned { (t : Term) (u : Place) → MayTurn terms.old root at (What.Shown marks) t u → IfOk result
        (IsSeen terms.old terms.new root at (What.Shown marks) t u height select.now top) }
    ensures as_before { OnErr result ((n : _) → nodes terms.new n ≡ nodes terms.old n) }
    ensures spec { terms.new.spec ≡ terms.old.spec }
    ensures view { terms.new.view ≡ terms.old.view }
    ensures grown { IsGrown terms.old.pool terms.new.pool }
{
    terms.facts();
    let was = Marks {
        scheme: terms.scheme(at),
        elided: terms.elided(at),
    };
    put_marks(terms, at, marks);
    terms.facts();
    match look_at(alloc, terms, root, select, height, top) {
        Ok(look) => Ok(Turned { root, look }),
        Err(e) => {
            put_marks(terms, at, was);
            Err(e)
        }
    }
}

/// Puts a tree or marks in the place of a node, and gives the term's root then. Where memory is wanting each node is as
/// before, and only the pool and the journal may have grown.
pub fn turn(
    alloc: Global,
    terms: &mut Terms,
    root: NodeId,
    at: NodeId,
    what: What,
    plans: &Plans,
    ev: &Evaluator,
    journal: &mut Journal,
) -> Result<NodeId, NoMemory>
    requires valid { AreValid (rules_of terms.old.spec) plans.now }
    requires same { ev.now ≡ terms.old.spec }
    requires may { (t : Term) × (u : Place) × MayTurn terms.old root at what t u }
    ensures turned { (t : Term) (u : Place) → MayTurn terms.old root at what t u → IfOk result
        (IsTurned terms.old terms.new root at what t u) }
    ensures there { (t : Term) (u : Place) → MayTurn terms.old root at what t u → IfOk result
        (Climbs (nodes terms.new) u (stands_there what at)) }
    ensures noted { (t : Term) (u : Place) → MayTurn terms.old root at what t u → IfOk result (λ r.
        Notes terms.old terms.new r t u what (now_of journal.old) (now_of journal.new)) }
    ensures some { (t : Term) (u : Place) → MayTurn terms.old root at what t u → OnErr result
        (NotesSome terms.old root t u what (now_of journal.old) (now_of journal.new)) }
    ensures as_before { OnErr result ((n : _) → nodes terms.new n ≡ nodes terms.old n) }
    ensures spec { terms.new.spec ≡ terms.old.spec }
    ensures view { terms.new.view ≡ terms.old.view }
    ensures grown { IsGrown terms.old.pool terms.new.pool }
    ensures total { total_of journal.new ≡ total_of journal.old }
{
    terms.facts();
    match what {
        What::Tree(detached) => {
            match exchanged(alloc, terms, root, at, detached, plans, ev, journal) {
                Ok(done) => Ok(done.root),
                Err(e) => Err(e),
            }
        }
        What::Shown(marks) => {
            put_marks(terms, at, marks);
            terms.facts();
            Ok(root)
        }
    }
}
