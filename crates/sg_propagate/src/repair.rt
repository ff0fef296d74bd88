//! The visits of the nodes outside the new subterm, as far as they are touched.
ghost use Rattle.std.specs.Prelude.{◌≡◌, ◌≤◌, Some};
ghost use Rattle.sg_kinds.specs.Specification.{rules_of};
ghost use Rattle.sg_kinds.specs.ValidPlans.{AreValid};
ghost use Rattle.sg_kinds.specs.Visits.{visit_count};
ghost use Rattle.sg_eval.specs.Journal.{now_of, total_of};
ghost use Rattle.sg_forest.specs.Trees.{IsLive};
ghost use Rattle.sg_groves.specs.Grove.{nodes};
ghost use Rattle.sg_attrib.specs.Visited.{IsNeeded, IsStepAt, IsStepGiven};
ghost use Rattle.sg_propagate.specs.Scenes.{AreTops};
ghost use Rattle.sg_propagate.specs.Moves.{IsGivenFrom, IsKnownFrom, Repairs};

use crate::update::update;
use crate::work::Work;
use sg_attrib::visit;
use sg_eval::{Evaluator, Journal};
use sg_forest::NodeId;
use sg_kinds::memory::NoMemory;
use sg_kinds::plans::{PlanStep, Plans};
use sg_kinds::row::item;
use sg_plans::steps;
use sg_terms::Terms;
use sg_trail::Trail;

// a step of a visit of a node: an equation, the new top's visit in its turn, or an active child's
#[cycle(repair)]
fn take(
    terms: &mut Terms,
    n: NodeId,
    step: PlanStep,
    top: NodeId,
    left: NodeId,
    plans: &Plans,
    ev: &Evaluator,
    trail: &mut Trail,
    work: &mut Work,
    journal: &mut Journal,
) -> Result<(), NoMemory>
    requires valid { AreValid (rules_of terms.old.spec) plans.now }
    requires same { ev.now ≡ terms.old.spec }
    requires step { IsStepAt plans.now terms.old n step }
    requires tops { AreTops terms.old top left }
    ensures repairs { Repairs plans.now (λ rules. IsNeeded rules plans.now step)
        (λ rules. IsStepGiven rules plans.now step)
        (λ rules. IsStepGiven rules plans.now step) top left n terms.old terms.new work.old work.new
        trail.old trail.new (now_of journal.old) (now_of journal.new) result }
    ensures total { total_of journal.new ≡ total_of journal.old }
{
    terms.facts();
    match step {
        PlanStep::Eval(rule) => update(terms, n, rule, top, left, plans, ev, trail, work, journal),
        PlanStep::Visit(kid, k) => {
            let below = terms.kid(n, kid as usize);
            if below == top {
                return visit(terms, top, k, plans, ev, journal);
            }
            if work.is_active(below) {
                return repair(
                    terms, below, k, 0, top, left, plans, ev, trail, work, journal,
                );
            }
            Ok(())
        }
    }
}

/// Brings what visit `k` of a node gives up to date, visits counted from 1, by its steps from step `from` on: what the
/// steps before give is so already.
#[cycle(repair)]
pub fn repair(
    terms: &mut Terms,
    n: NodeId,
    k: u32,
    from: usize,
    top: NodeId,
    left: NodeId,
    plans: &Plans,
    ev: &Evaluator,
    trail: &mut Trail,
    work: &mut Work,
    journal: &mut Journal,
) -> Result<(), NoMemory>
    requires valid { AreValid (rules_of terms.old.spec) plans.now }
    requires same { ev.now ≡ terms.old.spec }
    requires live { IsLive (nodes terms.old) n }
    requires low { 1 ≤ k }
    requires high { (x : _) → nodes terms.old n ≡ Some x → k ≤ visit_count plans.now x.label.phylum }
    requires tops { AreTops terms.old top left }
    ensures repairs { Repairs plans.now (IsKnownFrom plans.now k from) (IsGivenFrom plans.now k from)
        (IsGivenFrom plans.now k from) top left n terms.old terms.new work.old work.new
        trail.old trail.new (now_of journal.old) (now_of journal.new) result }
    ensures total { total_of journal.new ≡ total_of journal.old }
{
    terms.facts();
    let Some(op) = terms.op(n) else {
        return Ok(());
    };
    let all = steps(plans, op, k);
    for m in from..all.len() {
        terms.facts();
        take(
            terms,
            n,
            *item(all, m),
            top,
            left,
            plans,
            ev,
            trail,
            work,
            journal,
        )?;
    }
    Ok(())
}
