// One visit of a node.
ghost use Rattle.std.specs.Prelude.{◌≡◌, ◌≤◌, Some, slice_get, OnOk, MatchResult};
ghost use Rattle.sg_kinds.specs.Specification.{rules_of};
ghost use Rattle.sg_kinds.specs.Terms.{Term};
ghost use Rattle.sg_kinds.specs.Places.{Place};
ghost use Rattle.sg_kinds.specs.ValidPlans.{AreValid};
ghost use Rattle.sg_kinds.specs.Visits.{visit_count};
ghost use Rattle.sg_kinds.specs.declared.plans.PlanStep.TheVariants.{Eval};
ghost use Rattle.sg_kinds.specs.declared.spec.Rule.{Rule};
ghost use Rattle.sg_eval.specs.Journal.{now_of, total_of};
ghost use Rattle.sg_forest.specs.Trees.{IsLive};
ghost use Rattle.sg_groves.specs.Grove.{nodes};
ghost use Rattle.sg_groves.specs.Holds.{IsPlaced};
ghost use Rattle.sg_groves.specs.Unchanged.{OnlyStored};
ghost use Rattle.sg_terms.specs.Found.{op_at};
ghost use Rattle.sg_terms.specs.Entries.{Gained, GainedAll};
ghost use Rattle.sg_attrib.specs.Visited.{AreRight, IsKnown, IsGiven, IsNeeded, IsStepGiven, IsSlotOf, IsStepAt, Gives};

use sg_eval::{Evaluator, Journal};
use sg_forest::NodeId;
use sg_kinds::ids::RuleId;
use sg_kinds::memory::NoMemory;
use sg_kinds::plans::{PlanStep, Plans};
use sg_plans::steps;
use sg_terms::Terms;

// an equation of a node's operator, evaluated and stored
fn evaluate(
    terms: &mut Terms,
    n: NodeId,
    rule: RuleId,
    plans: &Plans,
    ev: &Evaluator,
    journal: &mut Journal,
) -> Result<(), NoMemory>
    requires valid { AreValid (rules_of terms.old.spec) plans.now }
    requires same { ev.now ≡ terms.old.spec }
    requires operator { (x : Rule) × (slice_get terms.old.spec.rules rule ≡ Some x) × (op_at terms.old n ≡ Some x.op) }
    ensures gives { Gives (IsNeeded (rules_of terms.old.spec) plans.now (Eval rule))
        (IsStepGiven (rules_of terms.old.spec) plans.now (Eval rule)) terms.old terms.new
        (now_of journal.old) (now_of journal.new) n result }
    ensures total { total_of journal.new ≡ total_of journal.old }
{
    terms.facts();
    terms.evaluate_at(ev, n, rule, journal)?;
    Ok(())
}

// a step of a visit of a node
#[cycle(visit)]
fn take(
    terms: &mut Terms,
    n: NodeId,
    step: PlanStep,
    plans: &Plans,
    ev: &Evaluator,
    journal: &mut Journal,
) -> Result<(), NoMemory>
    requires valid { AreValid (rules_of terms.old.spec) plans.now }
    requires same { ev.now ≡ terms.old.spec }
    requires step { IsStepAt plans.now terms.old n step }
    ensures gives { Gives (IsNeeded (rules_of terms.old.spec) plans.now step)
        (IsStepGiven (rules_of terms.old.spec) plans.now step) terms.old terms.new
        (now_of journal.old) (now_of journal.new) n result }
    ensures total { total_of journal.new ≡ total_of journal.old }
{
    terms.facts();
    match step {
        PlanStep::Eval(rule) => evaluate(terms, n, rule, plans, ev, journal),
        PlanStep::Visit(kid, k) => {
            let below = terms.kid(n, kid as usize);
            visit(terms, below, k, plans, ev, journal)
        }
    }
}

/// Evaluates the equations of visit `k` of a node, counted from 1, each once, and stores their values: the piece of
/// which attribution is made. At a leaf it does nothing. It is refused for want of memory alone, with some of them
/// evaluated.
#[cycle(visit)]
pub fn visit(
    terms: &mut Terms,
    n: NodeId,
    k: u32,
    plans: &Plans,
    ev: &Evaluator,
    journal: &mut Journal,
) -> Result<(), NoMemory>
    requires valid { AreValid (rules_of terms.old.spec) plans.now }
    requires same { ev.now ≡ terms.old.spec }
    requires live { IsLive (nodes terms.old) n }
    requires low { 1 ≤ k }
    requires high { (x : _) → nodes terms.old n ≡ Some x → k ≤ visit_count plans.now x.label.phylum }
    ensures values { (root : _) (t : Term) (u : Place) → IsPlaced terms.old root t u n
        → AreRight terms.old root t (IsKnown (rules_of terms.old.spec) plans.now k t u)
        → OnOk result (AreRight terms.new root t (IsGiven (rules_of terms.old.spec) plans.now k t u)) }
    ensures frame { OnlyStored terms.old terms.new
        (IsSlotOf (IsGiven (rules_of terms.old.spec) plans.now k) terms.old n) }
    ensures noted { (root : _) (t : Term) (u : Place) → IsPlaced terms.old root t u n → MatchResult result
        (λ _. GainedAll terms.old root t (IsGiven (rules_of terms.old.spec) plans.now k t u)
        (now_of journal.old) (now_of journal.new))
        (λ _. Gained terms.old root t (IsGiven (rules_of terms.old.spec) plans.now k t u)
        (now_of journal.old) (now_of journal.new)) }
    ensures total { total_of journal.new ≡ total_of journal.old }
{
    terms.facts();
    let Some(op) = terms.op(n) else {
        return Ok(());
    };
    for step in steps(plans, op, k) {
        terms.facts();
        take(terms, n, *step, plans, ev, journal)?;
    }
    Ok(())
}
