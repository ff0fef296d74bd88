//! The way up from a change, as far as what the nodes on it give becomes another.
ghost use Rattle.std.specs.Prelude.{◌≡◌, ◌⊎◌, ◌+◌, ◌-◌, ◌<◌, ◌≤◌, ℕ, false, length, [], Some, slice_get};
ghost use Rattle.std.specs.Prelude.{IfOk, IfSome, IfNone, IsFalse};
ghost use Rattle.sg_kinds.specs.Specification.{is_inherited, rules_of};
ghost use Rattle.sg_kinds.specs.ValidPlans.{AreValid};
ghost use Rattle.sg_kinds.specs.declared.plans.PlanStep.TheVariants.{Visit};
ghost use Rattle.sg_dependencies.specs.Vertices.{AreInRange};
ghost use Rattle.sg_eval.specs.Journal.{now_of, total_of};
ghost use Rattle.sg_forest.specs.Trees.{IsChild, IsInside, IsLive, IsRoot, room_below};
ghost use Rattle.sg_groves.specs.Grove.{nodes};
ghost use Rattle.sg_attrib.specs.Visited.{HasEquation, IsNothing, IsVisited};
ghost use Rattle.sg_propagate.specs.Moves.{IsOnStage, IsQuiet, IsSeat, IsUp, Repairs};
ghost use Rattle.sg_propagate.specs.Exchanged.{IsReach};
ghost use Rattle.sg_propagate.specs.Scenes.{AreStale, AreTops, Scene, term_now};

use crate::repair::repair;
use crate::start::{attr_count, is_handed};
use crate::work::Work;
use sg_eval::{Evaluator, Journal};
use sg_forest::NodeId;
use sg_kinds::ids::OpId;
use sg_kinds::memory::NoMemory;
use sg_kinds::plans::{PlanStep, Plans};
use sg_kinds::row::item;
use sg_plans::{steps, visit_count, visit_of};
use sg_terms::Terms;
use sg_trail::Trail;

// whether a synthesized attribute of visit `k` of a node is noted
fn gives_other(terms: &Terms, n: NodeId, k: u32, plans: &Plans, work: &Work) -> bool
    requires valid { AreValid (rules_of terms.now.spec) plans.now }
    requires live { IsLive (nodes terms.now) n }
    ensures { IsFalse result → IsQuiet plans.now terms.now n k work.now }
{
    terms.facts();
    let phylum = terms.phylum(n);
    for slot in 0..attr_count(terms.spec(), phylum) {
        if !is_handed(terms.spec(), phylum, slot)
            && visit_of(plans, phylum, slot as u32) == k
            && work.is_noted(n, slot as u32)
        {
            return true;
        }
    }
    false
}

// the place behind the step that makes visit `k` of child `kid`
fn step_of(all: &[PlanStep], kid: usize, k: u32) -> Option<usize>
    ensures there { IfSome result (λ from. (1 ≤ from) × (slice_get all.now (from - 1) ≡ Some (Visit kid k))) }
    ensures none { IfNone result ((m : ℕ) → slice_get all.now m ≡ Some (Visit kid k) → ⊥) }
{
    for m in 0..all.len() {
        if let PlanStep::Visit(child, visit) = *item(all, m) {
            if child as usize == kid && visit == k {
                return Some(m + 1);
            }
        }
    }
    None
}

// where that is in the plan of an operator: the visit, and the place in it
fn seat_of(terms: &Terms, plans: &Plans, op: OpId, kid: usize, k: u32) -> Option<(u32, usize)>
    requires valid { AreValid (rules_of terms.now.spec) plans.now }
    requires range { AreInRange (rules_of terms.now.spec) }
    requires there { op < length terms.now.spec.ops }
    ensures there { IfSome result (λ at. IsSeat plans.now op kid k at.0 at.1) }
    ensures none { IfNone result ((i from : ℕ) → IsSeat plans.now op kid k i from → ⊥) }
{
    for i in 0..visit_count(terms.spec(), plans, op) {
        if let Some(from) = step_of(steps(plans, op, i + 1), kid, k) {
            return Some((i + 1, from));
        }
    }
    None
}

// where the way up goes on behind visit `k` of a node that gives another value: the node above, its visit, and the step
// to begin with
fn way_up(
    terms: &Terms,
    n: NodeId,
    k: u32,
    plans: &Plans,
    work: &Work,
) -> Option<(NodeId, u32, usize)>
    requires valid { AreValid (rules_of terms.now.spec) plans.now }
    requires live { IsLive (nodes terms.now) n }
    requires visited { 1 ≤ k → IsVisited plans.now terms.now n k }
    ensures up { IfSome result (λ up. IsUp plans.now terms.now n k up.0 up.1 up.2) }
    ensures rises { IfSome result (λ up. room_below terms.now.trees n < room_below terms.now.trees up.0) }
    ensures stays { IfNone result (IsRoot (nodes terms.now) n ⊎ IsQuiet plans.now terms.now n k work.now) }
{
    terms.facts();
    if k == 0 || !gives_other(terms, n, k, plans, work) {
        return None;
    }
    let (above, kid) = terms.parent(n)?;
    let op = terms.op(above)?;
    let (i, from) = seat_of(terms, plans, op, kid, k)?;
    Some((above, i, from))
}

// how many visits a node has, none where it is a leaf
fn visits(terms: &Terms, n: NodeId, plans: &Plans) -> u32
    requires valid { AreValid (rules_of terms.now.spec) plans.now }
    requires live { IsLive (nodes terms.now) n }
    ensures each { (k : ℕ) → k < result → IsVisited plans.now terms.now n (k + 1) }
    ensures all { (k : ℕ) → IsVisited plans.now terms.now n k → k ≤ result }
{
    terms.facts();
    match terms.op(n) {
        Some(op) => visit_count(terms.spec(), plans, op),
        None => 0,
    }
}

/// Brings every value of a tree up to date, from the node above the new subterm on: at each node visit by visit, and
/// where a visit gives another value the node above goes on behind it. It returns the node that the change reaches.
pub fn rise(
    terms: &mut Terms,
    first: NodeId,
    top: NodeId,
    left: NodeId,
    plans: &Plans,
    ev: &Evaluator,
    trail: &mut Trail,
    work: &mut Work,
    journal: &mut Journal,
) -> Result<NodeId, NoMemory>
    requires valid { AreValid (rules_of terms.old.spec) plans.now }
    requires same { ev.now ≡ terms.old.spec }
    requires hangs { (kid : ℕ) × IsChild (nodes terms.old) top first kid }
    requires inherits { (root : _) (x : _) → IsRoot (nodes terms.old) root → IsInside (nodes terms.old) top root
        → nodes terms.old root ≡ Some x → (slot : ℕ) → is_inherited terms.old.spec.phyla x.label.phylum slot ≡ false }
    requires tops { AreTops terms.old top left }
    ensures repairs { Repairs plans.now (λ rules. IsNothing) (λ rules. HasEquation rules)
        (λ rules. HasEquation rules) top left first
        terms.old terms.new work.old work.new
        trail.old trail.new (now_of journal.old) (now_of journal.new) result }
    ensures reach { (sc : Scene) (v : _) → IsOnStage plans.now sc terms.old work.old top left first v
        → AreStale sc terms.old (HasEquation (rules_of sc.spec) (term_now sc) []) → IfOk result (IsReach sc terms.new) }
    ensures total { total_of journal.new ≡ total_of journal.old }
{
    terms.facts();
    let mut at = first;
    let mut k = 0;
    loop {
        terms.facts();
        if let Some((above, i, from)) = way_up(terms, at, k, plans, work) {
            work.activate(at)?;
            repair(
                terms, above, i, from, top, left, plans, ev, trail, work, journal,
            )?;
            at = above;
            k = i;
        } else if k < visits(terms, at, plans) {
            k += 1;
            repair(terms, at, k, 0, top, left, plans, ev, trail, work, journal)?;
        } else {
            return Ok(at);
        }
    }
}
