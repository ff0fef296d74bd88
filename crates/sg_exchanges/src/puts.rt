//! A term in the place of a node, and what is selected and seen before it comes there.
ghost use Rattle.std.specs.Prelude.{◌≡◌, ◌<◌, None, Some, IfOk, IfSome, OnErr};
ghost use Rattle.sg_kinds.specs.Places.{Place, place_of, put, sub};
ghost use Rattle.sg_kinds.specs.Specification.{rules_of};
ghost use Rattle.sg_kinds.specs.Terms.{Term as IsTerm};
ghost use Rattle.sg_kinds.specs.ValidPlans.{AreValid};
ghost use Rattle.sg_pool.specs.Pools.{IsGrown};
ghost use Rattle.sg_eval.specs.Journal.{now_of, total_of};
ghost use Rattle.sg_forest.specs.Trees.{Climbs, IsRoot};
ghost use Rattle.sg_groves.specs.Evaluated.{IsEvaluated};
ghost use Rattle.sg_groves.specs.Grove.{nodes};
ghost use Rattle.sg_groves.specs.Holds.{Holds};
ghost use Rattle.sg_terms.specs.Entries.{GainedAll};
ghost use Rattle.sg_exchanges.specs.Known.{IsKnown};
ghost use Rattle.sg_exchanges.specs.Noted.{NotedPut};
ghost use Rattle.sg_exchanges.specs.Puts.{IsPut, MayPut};

use crate::forecast::{Known, forecast_after, forecast_before};
use crate::turns::{Turned, exchanged};
use sg_build::build;
use sg_changes::{Selection, Spot};
use sg_eval::{Evaluator, Journal};
use sg_forest::NodeId;
use sg_kinds::memory::NoMemory;
use sg_kinds::plans::Plans;
use sg_kinds::row::Path;
use sg_kinds::term::Term;
use sg_select::node_near;
use sg_states::look_after;
use sg_terms::Terms;
use std::alloc::Global;

/// The node at a path of the term that a root holds, found from another node on, whose path is `way`. The term has that
/// place.
pub fn node_at(terms: &Terms, root: NodeId, path: &Path, near: NodeId, way: &Path) -> NodeId
    requires root { IsRoot (nodes terms.now) root }
    requires near { Climbs (nodes terms.now) (place_of way.now) near root }
    requires there { (t : IsTerm) × (x : IsTerm) × Holds terms.now root t × (sub t (place_of path.now) ≡ Some x) }
    ensures { Climbs (nodes terms.now) (place_of path.now) result root }
{
    node_near(terms, root, path.as_slice(), near, way.as_slice()).unwrap()
}

/// A spot: so many nodes from the node at a path on, in a window from a line on, in a view.
pub fn spot_at(
    alloc: Global,
    path: &Path,
    count: usize,
    top: usize,
    view: u32,
) -> Result<Spot, NoMemory>
    ensures { IfOk result (λ s. s
        ≡ record { selection = record { path = path.now; count = count }; top = top; view = view }) }
{
    let path = path.copy(alloc)?;
    Ok(Spot {
        selection: Selection { path, count },
        top,
        view,
    })
}

/// Puts a term in the place of a node of the edited term, whose path is `way`, where the whole stays in the limits, and
/// looks at it then; the subtree that stood there hangs. What is known of the term before may save its page. Where
/// memory is wanting each node is as before, and only the pool and the journal may have grown.
pub fn put_term(
    alloc: Global,
    terms: &mut Terms,
    root: NodeId,
    at: NodeId,
    way: &Path,
    t: &Term,
    select: &Selection,
    height: usize,
    top: usize,
    known: Option<Known>,
    plans: &Plans,
    ev: &Evaluator,
    journal: &mut Journal,
) -> Result<Turned, NoMemory>
    requires valid { AreValid (rules_of terms.old.spec) plans.now }
    requires same { ev.now ≡ terms.old.spec }
    requires tall { 0 < height }
    requires may { (whole : IsTerm) × (u : Place) × MayPut terms.old root at whole u t.now }
    requires way { Climbs (nodes terms.old) (place_of way.now) at root }
    requires known { IfSome known (IsKnown terms.old root) }
    ensures put { (whole : IsTerm) (u : Place) → MayPut terms.old root at whole u t.now → IfOk result
        (IsPut terms.old terms.new root at whole u t.now height select.now top) }
    ensures noted { (whole : IsTerm) (u : Place) → MayPut terms.old root at whole u t.now → IfOk result (λ r.
        GainedAll terms.new r.root (put whole u t.now) (IsEvaluated terms.old.spec whole u t.now)
        (now_of journal.old) (now_of journal.new)) }
    ensures some { (whole : IsTerm) (u : Place) → MayPut terms.old root at whole u t.now → OnErr result
        (NotedPut terms.old root None whole u t.now (now_of journal.old) (now_of journal.new)) }
    ensures as_before { OnErr result ((n : _) → nodes terms.new n ≡ nodes terms.old n) }
    ensures spec { terms.new.spec ≡ terms.old.spec }
    ensures view { terms.new.view ≡ terms.old.view }
    ensures grown { IsGrown terms.old.pool terms.new.pool }
    ensures total { total_of journal.new ≡ total_of journal.old }
{
    terms.facts();
    let before = forecast_before(alloc, terms, root, at, known)?;
    let Ok(built) = build(alloc, terms, t) else {
        return Err(NoMemory);
    };
    terms.facts();
    let done = match exchanged(alloc, terms, root, at, built, plans, ev, journal) {
        Ok(done) => done,
        Err(e) => {
            terms.drop_tree(built);
            return Err(e);
        }
    };
    terms.facts();
    let before = forecast_after(terms, done.root, built, done.reach, before);
    let place = way.as_slice();
    match look_after(
        alloc, terms, done.root, built, place, select, height, top, before,
    ) {
        Ok(look) => Ok(Turned {
            root: done.root,
            look,
        }),
        Err(e) => {
            done.trail.back(terms);
            terms.facts();
            terms.drop_tree(built);
            Err(e)
        }
    }
}
