//! Steps of the history along which a way goes, back or forth.
ghost use Rattle.std.specs.Prelude.{◌≡◌, ◌↔◌, ◌<◌, ℕ, IfOk, IsTrue, OnErr};
ghost use Rattle.sg_kinds.specs.Places.{Place, place_of};
ghost use Rattle.sg_kinds.specs.Sound.{IsSmall};
ghost use Rattle.sg_kinds.specs.Specification.{rules_of};
ghost use Rattle.sg_kinds.specs.Terms.{Term, nodes_of};
ghost use Rattle.sg_kinds.specs.ValidPlans.{AreValid};
ghost use Rattle.sg_pool.specs.Pools.{IsGrown};
ghost use Rattle.sg_eval.specs.Journal.{now_of, total_of};
ghost use Rattle.sg_forest.specs.Trees.{Climbs};
ghost use Rattle.sg_groves.specs.Grove.{nodes};
ghost use Rattle.sg_groves.specs.TermAt.{term_at};
ghost use Rattle.sg_changes.specs.Changes.{chosen};
ghost use Rattle.sg_exchanges.specs.Stepped.{IsStepped, MayGo, MayStep, coming, seen_along, settled_then, spot_then, step_path, step_place};
ghost use Rattle.sg_exchanges.specs.Turns.{IsSeen, MayTurn, Notes, NotesSome, made};

use crate::puts::node_at;
use crate::turns::{Turned, What, exchanged, remarked, standing, turn};
use sg_build::counts_below;
use sg_changes::{Direction, Spot, Step};
use sg_eval::{Evaluator, Journal};
use sg_forest::NodeId;
use sg_kinds::memory::NoMemory;
use sg_kinds::plans::Plans;
use sg_kinds::row::Path;
use sg_states::look_after;
use sg_terms::Terms;
use sg_unparse::{Beginning, Page};
use std::alloc::Global;

/// What came of a step that was gone along.
#[derive(Drop)]
pub struct Stepped {
    /// the node at the step's place, which hangs now where a tree came for it
    pub out: NodeId,
    /// how many nodes the term has
    pub nodes: usize,
    /// its root
    pub root: NodeId,
    /// the selected node, of a run its first element
    pub selected: NodeId,
    /// its path
    pub way: Path,
    pub count: usize,
    pub top: usize,
    /// the page, where it was made
    pub page: Option<Page>,
    /// where the selected node begins, where that is told
    pub begins: Option<Beginning>,
}

// how many nodes the edited term has once something comes into the place of a node; both terms are in the limits
fn nodes_after(terms: &Terms, at: NodeId, what: What, nodes: usize) -> usize
    requires { (root : _) × (t : Term) × (u : Place) × MayTurn terms.now root at what t u }
    ensures { (root : _) (t : Term) (u : Place) → MayTurn terms.now root at what t u → nodes ≡ nodes_of t → IsSmall t
        → IsSmall (made (term_at terms.now) t u what) → result ≡ nodes_of (made (term_at terms.now) t u what) }
{
    terms.facts();
    match what {
        What::Tree(detached) => {
            let rest = nodes.saturating_sub(counts_below(terms, at).nodes);
            rest.saturating_add(counts_below(terms, detached).nodes)
        }
        What::Shown(_) => nodes,
    }
}

// a tree comes into the place of a node, and this selection is settled then
fn exchanged_anew(
    alloc: Global,
    terms: &mut Terms,
    root: NodeId,
    path: &Path,
    out: NodeId,
    detached: NodeId,
    spot: &Spot,
    height: usize,
    plans: &Plans,
    ev: &Evaluator,
    journal: &mut Journal,
) -> Result<Turned, NoMemory>
    requires valid { AreValid (rules_of terms.old.spec) plans.now }
    requires same { ev.now ≡ terms.old.spec }
    requires tall { 0 < height }
    requires may { (t : Term) × MayTurn terms.old root out (What.Tree detached) t (place_of path.now) }
    ensures turned { (t : Term) → MayTurn terms.old root out (What.Tree detached) t (place_of path.now) → IfOk result
        (IsSeen terms.old terms.new root out (What.Tree detached) t (place_of path.now) height spot.now.selection
        spot.now.top) }
    ensures noted { (t : Term) → MayTurn terms.old root out (What.Tree detached) t (place_of path.now) → IfOk result
        (λ r. Notes terms.old terms.new r.root t (place_of path.now) (What.Tree detached)
        (now_of journal.old) (now_of journal.new)) }
    ensures some { (t : Term) → MayTurn terms.old root out (What.Tree detached) t (place_of path.now) → OnErr result
        (NotesSome terms.old root t (place_of path.now) (What.Tree detached)
        (now_of journal.old) (now_of journal.new)) }
    ensures as_before { OnErr result ((n : _) → nodes terms.new n ≡ nodes terms.old n) }
    ensures spec { terms.new.spec ≡ terms.old.spec }
    ensures view { terms.new.view ≡ terms.old.view }
    ensures grown { IsGrown terms.old.pool terms.new.pool }
    ensures total { total_of journal.new ≡ total_of journal.old }
{
    terms.facts();
    let done = exchanged(alloc, terms, root, out, detached, plans, ev, journal)?;
    terms.facts();
    match look_after(
        alloc,
        terms,
        done.root,
        detached,
        path.as_slice(),
        &spot.selection,
        height,
        spot.top,
        None,
    ) {
        Ok(look) => Ok(Turned {
            root: done.root,
            look,
        }),
        Err(e) => {
            done.trail.back(terms);
            Err(e)
        }
    }
}

// a tree or marks come into the place of a node, and this selection is settled then
fn turned_anew(
    alloc: Global,
    terms: &mut Terms,
    root: NodeId,
    path: &Path,
    out: NodeId,
    what: What,
    spot: &Spot,
    height: usize,
    plans: &Plans,
    ev: &Evaluator,
    journal: &mut Journal,
) -> Result<Turned, NoMemory>
    requires valid { AreValid (rules_of terms.old.spec) plans.now }
    requires same { ev.now ≡ terms.old.spec }
    requires tall { 0 < height }
    requires may { (t : Term) × MayTurn terms.old root out what t (place_of path.now) }
    ensures turned { (t : Term) → MayTurn terms.old root out what t (place_of path.now) → IfOk result
        (IsSeen terms.old terms.new root out what t (place_of path.now) height spot.now.selection spot.now.top) }
    ensures noted { (t : Term) → MayTurn terms.old root out what t (place_of path.now) → IfOk result (λ r.
        Notes terms.old terms.new r.root t (place_of path.now) what (now_of journal.old) (now_of journal.new)) }
    ensures some { (t : Term) → MayTurn terms.old root out what t (place_of path.now) → OnErr result
        (NotesSome terms.old root t (place_of path.now) what (now_of journal.old) (now_of journal.new)) }
    ensures as_before { OnErr result ((n : _) → nodes terms.new n ≡ nodes terms.old n) }
    ensures spec { terms.new.spec ≡ terms.old.spec }
    ensures view { terms.new.view ≡ terms.old.view }
    ensures grown { IsGrown terms.old.pool terms.new.pool }
    ensures total { total_of journal.new ≡ total_of journal.old }
{
    match what {
        What::Tree(detached) => exchanged_anew(
            alloc, terms, root, path, out, detached, spot, height, plans, ev, journal,
        ),
        What::Shown(marks) => remarked(
            alloc,
            terms,
            root,
            out,
            marks,
            &spot.selection,
            height,
            spot.top,
        ),
    }
}

// something comes into a place of the edited term, and this spot is settled then in the present view
fn settled_at(
    alloc: Global,
    terms: &mut Terms,
    root: NodeId,
    path: &Path,
    what: What,
    spot: &Spot,
    height: usize,
    known: usize,
    near: NodeId,
    way: &Path,
    plans: &Plans,
    ev: &Evaluator,
    journal: &mut Journal,
) -> Result<Stepped, NoMemory>
    requires valid { AreValid (rules_of terms.old.spec) plans.now }
    requires same { ev.now ≡ terms.old.spec }
    requires tall { 0 < height }
    requires may { (t : Term) × MayStep terms.old root t (place_of path.now) what height spot.now known }
    requires near { Climbs (nodes terms.old) (place_of way.now) near root }
    ensures stepped { (t : Term) → MayStep terms.old root t (place_of path.now) what height spot.now known → IfOk result
        (IsStepped terms.old terms.new root t (place_of path.now) what
        (settled_then terms.old t (place_of path.now) what height spot.now)) }
    ensures noted { (t : Term) → MayStep terms.old root t (place_of path.now) what height spot.now known → IfOk result
        (λ r. Notes terms.old terms.new r.root t (place_of path.now) what (now_of journal.old) (now_of journal.new)) }
    ensures some { (t : Term) → MayStep terms.old root t (place_of path.now) what height spot.now known → OnErr result
        (NotesSome terms.old root t (place_of path.now) what (now_of journal.old) (now_of journal.new)) }
    ensures as_before { OnErr result ((n : _) → nodes terms.new n ≡ nodes terms.old n) }
    ensures spec { terms.new.spec ≡ terms.old.spec }
    ensures view { terms.new.view ≡ terms.old.view }
    ensures grown { IsGrown terms.old.pool terms.new.pool }
    ensures total { total_of journal.new ≡ total_of journal.old }
{
    terms.facts();
    let out = node_at(terms, root, path, near, way);
    let nodes = nodes_after(terms, out, what, known);
    let turned = turned_anew(
        alloc, terms, root, path, out, what, spot, height, plans, ev, journal,
    )?;
    let look = turned.look;
    Ok(Stepped {
        out,
        nodes,
        root: turned.root,
        selected: look.selected,
        way: look.way,
        count: look.spot.selection.count,
        top: look.spot.top,
        page: look.page,
        begins: look.begins,
    })
}

// something comes into a place of the edited term, and this spot is seen then; the place is found from another node on,
// whose path is `way`, and what is selected then from the place on
fn turned_at(
    alloc: Global,
    terms: &mut Terms,
    root: NodeId,
    path: &Path,
    what: What,
    spot: &Spot,
    known: usize,
    near: NodeId,
    way: &Path,
    plans: &Plans,
    ev: &Evaluator,
    journal: &mut Journal,
) -> Result<Stepped, NoMemory>
    requires valid { AreValid (rules_of terms.old.spec) plans.now }
    requires same { ev.now ≡ terms.old.spec }
    requires may { (t : Term) × (height : ℕ) × MayStep terms.old root t (place_of path.now) what height spot.now known }
    requires near { Climbs (nodes terms.old) (place_of way.now) near root }
    ensures stepped { (t : Term) (height : ℕ) → MayStep terms.old root t (place_of path.now) what height spot.now known
        → IfOk result (IsStepped terms.old terms.new root t (place_of path.now) what spot.now) }
    ensures noted { (t : Term) (height : ℕ) → MayStep terms.old root t (place_of path.now) what height spot.now known
        → IfOk result (λ r. Notes terms.old terms.new r.root t (place_of path.now) what
        (now_of journal.old) (now_of journal.new)) }
    ensures some { (t : Term) (height : ℕ) → MayStep terms.old root t (place_of path.now) what height spot.now known
        → OnErr result (NotesSome terms.old root t (place_of path.now) what
        (now_of journal.old) (now_of journal.new)) }
    ensures as_before { OnErr result ((n : _) → nodes terms.new n ≡ nodes terms.old n) }
    ensures spec { terms.new.spec ≡ terms.old.spec }
    ensures view { terms.new.view ≡ terms.old.view }
    ensures grown { IsGrown terms.old.pool terms.new.pool }
    ensures total { total_of journal.new ≡ total_of journal.old }
{
    terms.facts();
    let out = node_at(terms, root, path, near, way);
    let nodes = nodes_after(terms, out, what, known);
    let to = spot.selection.path.copy(alloc)?;
    match turn(alloc, terms, root, out, what, plans, ev, journal) {
        Ok(now) => {
            let there = standing(what, out);
            let selected = node_at(terms, now, &spot.selection.path, there, path);
            Ok(Stepped {
                out,
                nodes,
                root: now,
                selected,
                way: to,
                count: spot.selection.count,
                top: spot.top,
                page: None,
                begins: None,
            })
        }
        Err(e) => Err(e),
    }
}

// the path of a step
fn path_of(step: &Step) -> &Path
    ensures { result.now ≡ step_path step.now }
{
    match step {
        Step::Replaced { path, .. } => path,
        Step::Marked { path, .. } => path,
    }
}

// the first of two for the way back, the second for the way forth
fn spot_of<'a>(direction: Direction, before: &'a Spot, after: &'a Spot) -> &'a Spot
    ensures { result.now ≡ chosen direction before.now after.now }
{
    match direction {
        Direction::Back => before,
        Direction::Forth => after,
    }
}

// what was selected and seen where the way along a step leads
fn spot_along(step: &Step, direction: Direction) -> &Spot
    ensures { result.now ≡ seen_along direction step.now }
{
    match step {
        Step::Replaced { before, after, .. } => spot_of(direction, before, after),
        Step::Marked { before, after, .. } => spot_of(direction, before, after),
    }
}

// whether a spot is of the view in which the terms are shown
fn is_present(terms: &Terms, spot: &Spot) -> bool
    ensures { IsTrue result ↔ (spot.now.view ≡ terms.now.view) }
{
    spot.view == terms.view()
}

// what comes into the place of a step where a way goes along it
fn what_of(step: &Step, direction: Direction) -> What
    ensures { result ≡ coming direction step.now }
{
    match step {
        Step::Replaced { hangs, .. } => What::Tree(*hangs),
        Step::Marked { old, new, .. } => match direction {
            Direction::Back => What::Shown(*old),
            Direction::Forth => What::Shown(*new),
        },
    }
}

/// Goes along a step in the edited term; what was selected where the way leads is found again, and settled where the
/// present view is another one. The step's place is found from another node on, whose path is `way`. Where memory is wanting each node is as before, and only the pool and the
/// journal may have grown.
pub fn step_along(
    alloc: Global,
    terms: &mut Terms,
    root: NodeId,
    direction: Direction,
    step: &Step,
    height: usize,
    known: usize,
    near: NodeId,
    way: &Path,
    plans: &Plans,
    ev: &Evaluator,
    journal: &mut Journal,
) -> Result<Stepped, NoMemory>
    requires valid { AreValid (rules_of terms.old.spec) plans.now }
    requires same { ev.now ≡ terms.old.spec }
    requires tall { 0 < height }
    requires may { (t : Term) × MayGo terms.old root t direction step.now height known }
    requires near { Climbs (nodes terms.old) (place_of way.now) near root }
    ensures stepped { (t : Term) → MayGo terms.old root t direction step.now height known → IfOk result
        (IsStepped terms.old terms.new root t (step_place step.now) (coming direction step.now)
        (spot_then terms.old t direction step.now height)) }
    ensures noted { (t : Term) → MayGo terms.old root t direction step.now height known → IfOk result
        (λ r. Notes terms.old terms.new r.root t (step_place step.now) (coming direction step.now)
        (now_of journal.old) (now_of journal.new)) }
    ensures some { (t : Term) → MayGo terms.old root t direction step.now height known → OnErr result
        (NotesSome terms.old root t (step_place step.now) (coming direction step.now)
        (now_of journal.old) (now_of journal.new)) }
    ensures as_before { OnErr result ((n : _) → nodes terms.new n ≡ nodes terms.old n) }
    ensures spec { terms.new.spec ≡ terms.old.spec }
    ensures view { terms.new.view ≡ terms.old.view }
    ensures grown { IsGrown terms.old.pool terms.new.pool }
    ensures total { total_of journal.new ≡ total_of journal.old }
{
    let path = path_of(step);
    let what = what_of(step, direction);
    let spot = spot_along(step, direction);
    if is_present(terms, spot) {
        turned_at(
            alloc, terms, root, path, what, spot, known, near, way, plans, ev, journal,
        )
    } else {
        settled_at(
            alloc, terms, root, path, what, spot, height, known, near, way, plans, ev, journal,
        )
    }
}
