//! One equation outside the new subterm.
ghost use Rattle.std.specs.Prelude.{◌≡◌, Some, slice_get};
ghost use Rattle.sg_kinds.specs.Specification.{rules_of};
ghost use Rattle.sg_kinds.specs.ValidPlans.{AreValid};
ghost use Rattle.sg_kinds.specs.declared.plans.PlanStep.TheVariants.{Eval};
ghost use Rattle.sg_kinds.specs.declared.spec.Rule.{Rule};
ghost use Rattle.sg_eval.specs.Journal.{now_of, total_of};
ghost use Rattle.sg_terms.specs.Found.{op_at};
ghost use Rattle.sg_terms.specs.Occurrences.{IsBearer};
ghost use Rattle.sg_attrib.specs.Visited.{IsNeeded, IsStepGiven};
ghost use Rattle.sg_propagate.specs.Scenes.{AreTops};
ghost use Rattle.sg_propagate.specs.Moves.{Announces, Repairs};

use crate::asked::has_other;
use crate::work::Work;
use sg_eval::{Evaluator, Journal};
use sg_forest::NodeId;
use sg_kinds::ids::RuleId;
use sg_kinds::memory::NoMemory;
use sg_kinds::plans::Plans;
use sg_kinds::row::item;
use sg_terms::{Renewed, Terms};
use sg_trail::{Trail, WasStored};

// what an equation defines at a node: the node at its target, and the slot
fn bearer(terms: &Terms, n: NodeId, rule: RuleId) -> (NodeId, u32)
    requires { (r : Rule) × (slice_get terms.now.spec.rules rule ≡ Some r) × (op_at terms.now n ≡ Some r.op) }
    ensures { (r : Rule) → slice_get terms.now.spec.rules rule ≡ Some r → IsBearer terms.now n r result.0 result.1 }
{
    terms.facts();
    let target = item(terms.spec().rules.as_slice(), rule.number as usize).target;
    if target.at == 0 {
        (n, target.slot)
    } else {
        (terms.kid(n, target.at as usize - 1), target.slot)
    }
}

// what became of a value: where it is another one its slot is noted, and its node is active where it hangs under the
// equation's
fn announce(work: &mut Work, n: NodeId, it: Renewed) -> Result<(), NoMemory>
    ensures { Announces work.old work.new n it.node it.slot it.before it.after result }
{
    if it.before == it.after {
        return Ok(());
    }
    work.note(it.node, it.slot)?;
    if it.node != n {
        work.activate(it.node)?;
    }
    Ok(())
}

/// Evaluates an equation at a node where some argument shows another value, and notes what it defines where that is
/// another one. The number before is in the trail before another is stored.
pub fn update(
    terms: &mut Terms,
    n: NodeId,
    rule: RuleId,
    top: NodeId,
    left: NodeId,
    plans: &Plans,
    ev: &Evaluator,
    trail: &mut Trail,
    work: &mut Work,
    journal: &mut Journal,
) -> Result<(), NoMemory>
    requires valid { AreValid (rules_of terms.old.spec) plans.now }
    requires same { ev.now ≡ terms.old.spec }
    requires operator { (r : Rule) × (slice_get terms.old.spec.rules rule ≡ Some r) × (op_at terms.old n ≡ Some r.op) }
    requires tops { AreTops terms.old top left }
    ensures repairs { Repairs plans.now (λ rules. IsNeeded rules plans.now (Eval rule))
        (λ rules. IsStepGiven rules plans.now (Eval rule))
        (λ rules. IsStepGiven rules plans.now (Eval rule)) top left n terms.old terms.new work.old work.new
        trail.old trail.new (now_of journal.old) (now_of journal.new) result }
    ensures total { total_of journal.new ≡ total_of journal.old }
{
    terms.facts();
    if !has_other(terms, n, rule, top, left, work) {
        return Ok(());
    }
    let (node, slot) = bearer(terms, n, rule);
    let number = terms.stored(node, slot);
    trail.push(WasStored { node, slot, number })?;
    let it = terms.evaluate_at(ev, n, rule, journal)?;
    terms.facts();
    terms.pool().sound();
    announce(work, n, it)
}
