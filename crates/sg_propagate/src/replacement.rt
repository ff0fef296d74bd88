//! The exchange of a subtree for a detached tree.
ghost use Rattle.std.specs.Prelude.{◌≡◌, ◌≢◌, ℕ, false, Some, IfOk, OnOk, OnErr};
ghost use Rattle.sg_kinds.specs.Places.{Place, put};
ghost use Rattle.sg_kinds.specs.Specification.{is_inherited, rules_of};
ghost use Rattle.sg_kinds.specs.Terms.{Term};
ghost use Rattle.sg_kinds.specs.ValidPlans.{AreValid};
ghost use Rattle.sg_pool.specs.Pools.{IsGrown};
ghost use Rattle.sg_eval.specs.Journal.{now_of, total_of};
ghost use Rattle.sg_forest.specs.Steps.{SameSort};
ghost use Rattle.sg_forest.specs.Trees.{IsInside, IsLive, IsRoot};
ghost use Rattle.sg_groves.specs.Evaluated.{IsEvaluated};
ghost use Rattle.sg_groves.specs.Grove.{Grove, nodes};
ghost use Rattle.sg_groves.specs.Holds.{Holds};
ghost use Rattle.sg_groves.specs.IsRight.{IsRight};
ghost use Rattle.sg_groves.specs.Stored.{number_at};
ghost use Rattle.sg_groves.specs.Unchanged.{OnlyStored};
ghost use Rattle.sg_terms.specs.Entries.{Gained, GainedAll};
ghost use Rattle.sg_terms.specs.Kept.{KeepsTermsNotOver};
ghost use Rattle.sg_trail.specs.Trails.{IsAnySlot, IsExchanged, LeadsBack};
ghost use Rattle.sg_propagate.specs.Asked.{IsAsked, root_then};
ghost use Rattle.sg_propagate.specs.Exchanged.{Exchanges, IsReach, IsRenewed, KeepsOtherRoots, Reaches};
ghost use Rattle.sg_propagate.specs.Moves.{Finishes, IsTracked};
ghost use Rattle.sg_propagate.specs.Scenes.{AreTops, IsSetUp, Scene};

use crate::rise::rise;
use crate::start::take_over;
use crate::work::Work;
use sg_attrib::attribute;
use sg_eval::{Evaluator, Journal};
use sg_forest::NodeId;
use sg_kinds::memory::NoMemory;
use sg_kinds::plans::Plans;
use sg_terms::Terms;
use sg_trail::Trail;
use std::alloc::Global;

// Every value of a tree in which a subtree has just taken another's place: the way up begins at the node above. It
// returns the node that the change reaches.
fn bring_up_to_date(
    alloc: Global,
    terms: &mut Terms,
    top: NodeId,
    left: NodeId,
    plans: &Plans,
    ev: &Evaluator,
    trail: &mut Trail,
    journal: &mut Journal,
) -> Result<NodeId, NoMemory>
    requires valid { AreValid (rules_of terms.old.spec) plans.now }
    requires same { ev.now ≡ terms.old.spec }
    requires tops { AreTops terms.old top left }
    requires hangs { IsRoot (nodes terms.old) top → ⊥ }
    requires inherits { (root : _) (x : _) → IsRoot (nodes terms.old) root → IsInside (nodes terms.old) top root
        → nodes terms.old root ≡ Some x → (slot : ℕ) → is_inherited terms.old.spec.phyla x.label.phylum slot ≡ false }
    ensures stored { OnlyStored terms.old terms.new IsAnySlot }
    ensures at { trail.new.at ≡ trail.old.at }
    ensures detached { trail.new.detached ≡ trail.old.detached }
    ensures tracked { (first : Grove) → IsTracked first terms.old top trail.old
        → IsTracked first terms.new top trail.new }
    ensures finishes { (sc : Scene) → IsSetUp plans.now sc terms.old → sc.top ≡ top → sc.left ≡ left
        → Finishes sc terms.old terms.new (now_of journal.old) (now_of journal.new) result }
    ensures reach { (sc : Scene) → IsSetUp plans.now sc terms.old → sc.top ≡ top → sc.left ≡ left
        → IfOk result (IsReach sc terms.new) }
    ensures total { total_of journal.new ≡ total_of journal.old }
{
    terms.facts();
    take_over(terms, top, left);
    terms.facts();
    let Some((first, _)) = terms.parent(top) else {
        return Ok(top);
    };
    let mut work = Work::new(alloc);
    rise(
        terms, first, top, left, plans, ev, trail, &mut work, journal,
    )
}

// The exchange itself and what follows, all of which the trail leads back from. It returns the node that the change
// reaches.
fn change_places(
    alloc: Global,
    terms: &mut Terms,
    at: NodeId,
    detached: NodeId,
    plans: &Plans,
    ev: &Evaluator,
    trail: &mut Trail,
    journal: &mut Journal,
) -> Result<NodeId, NoMemory>
    requires valid { AreValid (rules_of terms.old.spec) plans.now }
    requires same { ev.now ≡ terms.old.spec }
    requires live { IsLive (nodes terms.old) at }
    requires root { IsRoot (nodes terms.old) detached }
    requires apart { IsInside (nodes terms.old) at detached → ⊥ }
    requires phyla { SameSort (λ k. k.phylum) (nodes terms.old) at detached }
    requires inherits { (root : _) (x : _) → IsRoot (nodes terms.old) root → IsInside (nodes terms.old) at root
        → nodes terms.old root ≡ Some x → (slot : ℕ) → is_inherited terms.old.spec.phyla x.label.phylum slot ≡ false }
    ensures exchanges { Exchanges terms.old terms.new at detached trail.old trail.new
        (now_of journal.old) (now_of journal.new) result }
    ensures reach { (root : _) (t : Term) (u : Place) (s : Term) → IsAsked terms.old at detached root t u s
        → IfOk result (Reaches terms.old.spec terms.new (root_then u root detached) t u s) }
    ensures total { total_of journal.new ≡ total_of journal.old }
{
    terms.facts();
    let above = terms.parent(at);
    terms.swap(at, detached);
    terms.facts();
    match above {
        None => {
            attribute(terms, detached, plans, ev, journal)?;
            Ok(detached)
        }
        Some(_) => bring_up_to_date(alloc, terms, detached, at, plans, ev, trail, journal),
    }
}

/// What a replacement leaves: the way back, and the node that the change reaches. That is the new root where the root
/// was exchanged.
#[derive(Drop)]
pub struct Exchange {
    pub trail: Trail,
    pub reach: NodeId,
}

/// The tree under `at` and that of the root `detached`, of one phylum, change places: afterwards every attribute of the
/// tree has its from-scratch value, and the journal lists exactly the equations of the new subtree and those outside it
/// with a changed argument, each once. The trail leads back. Where memory is wanting each node is as before, and only
/// pool and journal may have grown.
///
/// It takes time in the nodes of the new subtree, the evaluated equations and the nodes above that the change reaches,
/// times the plan of one operator: it goes up from the change, to a node above only where a synthesized attribute of the
/// node below has become another one.
pub fn replace(
    alloc: Global,
    terms: &mut Terms,
    at: NodeId,
    detached: NodeId,
    plans: &Plans,
    ev: &Evaluator,
    journal: &mut Journal,
) -> Result<Exchange, NoMemory>
    requires valid { AreValid (rules_of terms.old.spec) plans.now }
    requires same { ev.now ≡ terms.old.spec }
    requires live { IsLive (nodes terms.old) at }
    requires root { IsRoot (nodes terms.old) detached }
    requires apart { IsInside (nodes terms.old) at detached → ⊥ }
    requires phyla { SameSort (λ k. k.phylum) (nodes terms.old) at detached }
    requires inherits { (root : _) (x : _) → IsRoot (nodes terms.old) root → IsInside (nodes terms.old) at root
        → nodes terms.old root ≡ Some x → (slot : ℕ) → is_inherited terms.old.spec.phyla x.label.phylum slot ≡ false }
    ensures right { (root : _) (t : Term) (u : Place) (s : Term) → IsAsked terms.old at detached root t u s
        → OnOk result (IsRight terms.new (root_then u root detached)) }
    ensures term { (root : _) (t : Term) (u : Place) (s : Term) → IsAsked terms.old at detached root t u s
        → OnOk result (Holds terms.new (root_then u root detached) (put t u s)) }
    ensures evaluated { (root : _) (t : Term) (u : Place) (s : Term) → IsAsked terms.old at detached root t u s
        → OnOk result (GainedAll terms.new (root_then u root detached) (put t u s)
        (IsEvaluated terms.old.spec t u s) (now_of journal.old) (now_of journal.new)) }
    ensures noted { (root : _) (t : Term) (u : Place) (s : Term) → IsAsked terms.old at detached root t u s
        → OnErr result ((g : Grove) × IsExchanged terms.old g at detached × Gained g (root_then u root detached)
        (put t u s) (IsEvaluated terms.old.spec t u s) (now_of journal.old) (now_of journal.new)) }

    // Nodes and links, and what else is stored.
    ensures links { OnOk result ((g : Grove) × IsExchanged terms.old g at detached
        × OnlyStored g terms.new IsAnySlot) }
    ensures freed { OnOk result (IsRoot (nodes terms.new) at) }
    ensures roots { OnOk result (KeepsOtherRoots terms.old terms.new at detached) }
    ensures terms { OnOk result (KeepsTermsNotOver terms.old terms.new at) }
    ensures others { (root : _) (t : Term) (u : Place) (s : Term) → IsAsked terms.old at detached root t u s
        → OnOk result ((m : _) (slot : ℕ) → number_at terms.new m slot ≢ number_at terms.old m slot
        → IsRenewed terms.old.spec terms.new detached root t u s m slot) }

    // How far it reaches, and the way back.
    ensures reach { (root : _) (t : Term) (u : Place) (s : Term) → IsAsked terms.old at detached root t u s
        → IfOk result (λ e. Reaches terms.old.spec terms.new (root_then u root detached) t u s e.reach) }
    ensures leads_back { IfOk result (λ e. LeadsBack terms.old terms.new e.trail) }
    ensures as_before { OnErr result ((n : _) → nodes terms.new n ≡ nodes terms.old n) }
    ensures spec { terms.new.spec ≡ terms.old.spec }
    ensures view { terms.new.view ≡ terms.old.view }
    ensures grown { IsGrown terms.old.pool terms.new.pool }
    ensures total { total_of journal.new ≡ total_of journal.old }
{
    terms.facts();
    let mut trail = Trail::save(alloc, terms, at, detached)?;
    match change_places(alloc, terms, at, detached, plans, ev, &mut trail, journal) {
        Ok(reach) => Ok(Exchange { trail, reach }),
        Err(e) => {
            trail.back(terms);
            Err(e)
        }
    }
}
