//! Laws of the ordering, each as the contract of a function without code.
ghost use Rattle.std.specs.Prelude.{◌≡◌, ◌≢◌, ℕ, ◌<◌, ◌≤◌, ◌⊎◌, List, length, slice_index, Some, Contains};
ghost use Rattle.sg_kinds.specs.Dependencies.{IsAttr};
ghost use Rattle.sg_kinds.specs.Fits.{Fits};
ghost use Rattle.sg_kinds.specs.FromScratch.{leaf_or, site_value, value_in};
ghost use Rattle.sg_kinds.specs.Instances.{Site, instances, site_of};
ghost use Rattle.sg_orders.specs.Keys.{key, IsLess};
ghost use Rattle.sg_kinds.specs.Layers.{IsLayering};
ghost use Rattle.sg_kinds.specs.Nets.{Reference, referred, net_of};
ghost use Rattle.sg_dependencies.specs.Ordered.{IsOrdered};
ghost use Rattle.sg_kinds.specs.Places.{Place};
ghost use Rattle.sg_kinds.specs.Specification.{rules_of};
ghost use Rattle.sg_kinds.specs.Terms.{Term};
ghost use Rattle.sg_kinds.specs.ValidPlans.{AreValid};
ghost use Rattle.sg_kinds.specs.Visits.{row_at, visit_count};
ghost use Rattle.sg_kinds.specs.declared.plans.Plans.{Plans};
ghost use Rattle.sg_kinds.specs.declared.spec.Occurrence.{Occurrence};
ghost use Rattle.sg_kinds.specs.declared.spec.Rules.{Rules};
ghost use Rattle.sg_kinds.specs.declared.spec.Spec.{Spec};
ghost use Rattle.sg_dependencies.specs.Faults.{IsFault};
ghost use Rattle.sg_dependencies.specs.Proper.{AreProper};
ghost use Rattle.sg_dependencies.specs.Vertices.{AreInRange};
ghost use Rattle.sg_dependencies.specs.declared.fault.OrderFault.TheVariants as fault;
ghost use Rattle.sg_dependencies.specs.declared.fault.OrderFault.{OrderFault};
ghost use Rattle.sg_orders.specs.LiveSites.{IsLive};
ghost use Rattle.sg_orders.specs.PlanFacts.{HasPlanFacts};
ghost use Rattle.sg_orders.specs.StepFacts.{HasStepFacts};

/// A phylum has at most one layering.
pub fn unique_layers()
    ensures { (rules : Rules) (X : ℕ) (layer other : ℕ → ℕ) → IsLayering rules X layer → IsLayering rules X other
        → (a : ℕ) → IsAttr rules X a → layer a ≡ other a }
{}

/// Visits rise with positions, inherited attributes come before the visits that need them, synthesized ones in their
/// own, and what an equation names before what it defines.
pub fn plan_facts()
    ensures { (rules : Rules) (plans : Plans) → AreInRange rules → AreValid rules plans → (p : ℕ)
        → p < length rules.ops → HasPlanFacts rules plans p }
{}

/// Each attribute has one of the visits of its phylum, counted from 1.
pub fn visits_are_counted()
    ensures low { (rules : Rules) (plans : Plans) → AreValid rules plans → (X a : ℕ) → X < length rules.phyla
        → IsAttr rules X a → 1 ≤ slice_index (row_at plans.visits X) a }
    ensures high { (rules : Rules) (plans : Plans) → AreValid rules plans → (X a : ℕ) → X < length rules.phyla
        → IsAttr rules X a → slice_index (row_at plans.visits X) a ≤ visit_count plans X }
{}

/// No two vertices of an operator stand at one position, nor do two of its steps.
#[tactic(auto, using(crate::proofs::ValidFacts::step_facts))]
pub fn step_facts()
    ensures { (rules : Rules) (plans : Plans) → AreInRange rules → AreProper rules → AreValid rules plans → (p : ℕ)
        → p < length rules.ops → HasStepFacts rules plans p }
{}

/// Keys are in a strict order: none is less than itself, what is less than a lesser one is less, and of two that
/// differ one is less.
#[tactic(auto, using(crate::proofs::Fixpoint::less_itself, crate::proofs::Fixpoint::less_on, crate::proofs::Fixpoint::one_less))]
pub fn keys_are_ordered()
    ensures irreflexive { (xs : List ℕ) → IsLess xs xs → ⊥ }
    ensures transitive { (xs ys zs : List ℕ) → IsLess xs ys → IsLess ys zs → IsLess xs zs }
    ensures total { (xs ys : List ℕ) → xs ≢ ys → IsLess xs ys ⊎ IsLess ys xs }
{}

/// Each argument of an equation of a term that has an equation itself has a smaller key than what names it.
pub fn keys_fall()
    ensures { (spec : Spec) (plans : Plans) (t : Term) (root : ℕ) → AreInRange (rules_of spec)
        → AreValid (rules_of spec) plans → Fits spec t root → (i : Site Place) → IsLive (rules_of spec) t i
        → (o : Occurrence) → Contains i.rule.args o → (j : Site Place)
        → site_of (rules_of spec) (net_of t) (referred (net_of t) i.node o) ≡ Some j
        → IsLess (key (rules_of spec) plans t j) (key (rules_of spec) plans t i) }
{}

/// The sites of equations in a term have ranks: that of a site which some instance has is below the number of all
/// instances, and a site with a smaller key has a smaller rank.
pub fn ranks()
    ensures { (spec : Spec) (plans : Plans) (t : Term) (root : ℕ) → AreInRange (rules_of spec)
        → AreValid (rules_of spec) plans → Fits spec t root → (rank : Site Place → ℕ)
        × ((a : Reference Place) (i : Site Place) → site_of (rules_of spec) (net_of t) a ≡ Some i
        → rank i < length (instances (rules_of spec) t))
        × ((i j : Site Place) (b : Reference Place) → site_of (rules_of spec) (net_of t) b ≡ Some j
        → IsLess (key (rules_of spec) plans t j) (key (rules_of spec) plans t i) → rank j < rank i) }
{}

/// A from-scratch value is the outcome of its equation on the from-scratch values of its arguments: the bound on
/// chains of equations is never reached.
pub fn from_scratch_values()
    ensures { (spec : Spec) (plans : Plans) (t : Term) (root : ℕ) → AreInRange (rules_of spec)
        → AreValid (rules_of spec) plans → Fits spec t root → (a : Reference Place)
        → value_in spec t a ≡ leaf_or ((net_of t).label a.node)
        (site_value spec (net_of t) (value_in spec t) (site_of (rules_of spec) (net_of t) a)) }
{}

/// Equations have one fault at most, besides want of memory.
pub fn one_fault()
    ensures { (rules : Rules) → AreInRange rules → (e f : OrderFault) → IsFault rules e → IsFault rules f
        → e ≢ fault.NoMemory → f ≢ fault.NoMemory → e ≡ f }
{}

/// Ordered equations have no fault.
pub fn no_fault()
    ensures { (rules : Rules) → AreInRange rules → IsOrdered rules → (e : OrderFault) → IsFault rules e
        → e ≢ fault.NoMemory → ⊥ }
{}
