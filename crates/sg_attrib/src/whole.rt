// The attribution of a tree.
ghost use Rattle.std.specs.Prelude.{◌≡◌, ℕ, false, Some, Contains, OnOk, MatchResult};
ghost use Rattle.sg_kinds.specs.Instances.{instances};
ghost use Rattle.sg_kinds.specs.Specification.{is_inherited, rules_of};
ghost use Rattle.sg_kinds.specs.Terms.{Term};
ghost use Rattle.sg_kinds.specs.ValidPlans.{AreValid};
ghost use Rattle.sg_eval.specs.Journal.{now_of, total_of};
ghost use Rattle.sg_forest.specs.Trees.{IsInside, IsRoot};
ghost use Rattle.sg_groves.specs.Grove.{nodes};
ghost use Rattle.sg_groves.specs.Holds.{Holds};
ghost use Rattle.sg_groves.specs.IsRight.{IsRight};
ghost use Rattle.sg_groves.specs.Unchanged.{OnlyStored};
ghost use Rattle.sg_terms.specs.Entries.{Gained, GainedAll};
ghost use Rattle.sg_attrib.specs.Visited.{HasEquation, IsNothing, IsSolved, Gives};

use crate::visits::visit;
use sg_eval::{Evaluator, Journal};
use sg_forest::NodeId;
use sg_kinds::memory::NoMemory;
use sg_kinds::plans::Plans;
use sg_plans::visit_count;
use sg_terms::Terms;

// the visits of a root, one after another
fn all_visits(
    terms: &mut Terms,
    root: NodeId,
    plans: &Plans,
    ev: &Evaluator,
    journal: &mut Journal,
) -> Result<(), NoMemory>
    requires valid { AreValid (rules_of terms.old.spec) plans.now }
    requires same { ev.now ≡ terms.old.spec }
    requires root { IsRoot (nodes terms.old) root }
    requires inherits { (x : _) → nodes terms.old root ≡ Some x → (slot : ℕ)
        → is_inherited terms.old.spec.phyla x.label.phylum slot ≡ false }
    ensures gives { Gives IsNothing (HasEquation (rules_of terms.old.spec)) terms.old terms.new
        (now_of journal.old) (now_of journal.new) root result }
    ensures total { total_of journal.new ≡ total_of journal.old }
{
    terms.facts();
    let Some(op) = terms.op(root) else {
        return Ok(());
    };
    let last = visit_count(terms.spec(), plans, op);
    for k in 0..last {
        terms.facts();
        visit(terms, root, k + 1, plans, ev, journal)?;
    }
    Ok(())
}

/// Gives every attribute of a tree its from-scratch value: evaluates each equation of the tree once and stores its
/// value. It is refused for want of memory alone, with some of them evaluated. It allocates nothing but values and
/// entries of the journal.
pub fn attribute(
    terms: &mut Terms,
    root: NodeId,
    plans: &Plans,
    ev: &Evaluator,
    journal: &mut Journal,
) -> Result<(), NoMemory>
    requires valid { AreValid (rules_of terms.old.spec) plans.now }
    requires same { ev.now ≡ terms.old.spec }
    requires root { IsRoot (nodes terms.old) root }
    requires inherits { (x : _) → nodes terms.old root ≡ Some x → (slot : ℕ)
        → is_inherited terms.old.spec.phyla x.label.phylum slot ≡ false }
    ensures term { (t : Term) → Holds terms.old root t → Holds terms.new root t }
    ensures right { OnOk result (IsRight terms.new root) }
    ensures solved { OnOk result (IsSolved terms.new root) }
    ensures noted { (t : Term) → Holds terms.old root t → MatchResult result
        (λ _. GainedAll terms.old root t (Contains (instances (rules_of terms.old.spec) t))
        (now_of journal.old) (now_of journal.new))
        (λ _. Gained terms.old root t (Contains (instances (rules_of terms.old.spec) t))
        (now_of journal.old) (now_of journal.new)) }
    ensures frame { OnlyStored terms.old terms.new (λ n _. IsInside (nodes terms.old) n root) }
    ensures total { total_of journal.new ≡ total_of journal.old }
{
    terms.facts();
    all_visits(terms, root, plans, ev, journal)?;
    terms.facts();
    Ok(())
}
