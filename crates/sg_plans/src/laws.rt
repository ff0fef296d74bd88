//! Laws of plans and visits, each as the contract of a function without code.
ghost use Rattle.std.specs.Prelude.{◌≡◌, ◌⊎◌, ◌≤◌, ◌<◌, ◌+◌, ◌-◌, ℕ, [], ◌∷◌, ◌++◌, Some, false, length, map, slice_get, Contains};
ghost use Rattle.sg_kinds.specs.Dependencies.{occurrence};
ghost use Rattle.sg_kinds.specs.Fits.{Fits};
ghost use Rattle.sg_kinds.specs.FromScratch.{value_in};
ghost use Rattle.sg_kinds.specs.Instances.{Site, args_at, site_of};
ghost use Rattle.sg_orders.specs.Keys.{operator_in};
ghost use Rattle.sg_kinds.specs.Nets.{Reference, Holding, label_of, net_of, referred};
ghost use Rattle.sg_kinds.specs.Outcome.{outcome};
ghost use Rattle.sg_kinds.specs.Places.{Place, put, sub};
ghost use Rattle.sg_kinds.specs.Sound.{IsSound, is_owed};
ghost use Rattle.sg_kinds.specs.Specification.{is_inherited, rules_of};
ghost use Rattle.sg_kinds.specs.Terms.{Term};
ghost use Rattle.sg_kinds.specs.Values.{Value};
ghost use Rattle.sg_kinds.specs.declared.plans.PlanStep.{PlanStep};
ghost use Rattle.sg_kinds.specs.declared.plans.PlanStep.TheVariants.{Eval, Visit};
ghost use Rattle.sg_kinds.specs.Visits.{row_at};
ghost use Rattle.sg_kinds.specs.declared.plans.Plans.{Plans};
ghost use Rattle.sg_kinds.specs.declared.spec.Occurrence.{Occurrence};
ghost use Rattle.sg_kinds.specs.declared.spec.Rule.{Rule};
ghost use Rattle.sg_kinds.specs.declared.spec.Rules.{Rules};
ghost use Rattle.sg_kinds.specs.declared.spec.Spec.{Spec};
ghost use Rattle.sg_dependencies.specs.Proper.{is_owed as is_owed_by_rules};
ghost use Rattle.sg_dependencies.specs.Vertices.{IsVertex};
ghost use Rattle.sg_orders.specs.LiveSites.{IsLive};
ghost use Rattle.sg_plans.specs.Planned.{IsPlanned};
ghost use Rattle.sg_plans.specs.Segments.{HasVisit, IsGivenBy, IsLeafSlot, IsNodeAt, IsOfVisit, IsOutside, IsTaken, bearer, visit_at};
ghost use Rattle.sg_plans.specs.Stepping.{IsGivenBefore, IsOfStep, IsReady, steps_of};

/// An equation of a term is what is found for the reference that it defines, which is no leaf's slot, and what is
/// found for a reference is an equation of the term that defines it.
#[tactic(auto, using(crate::proofs::Bearers::bearer_found, crate::proofs::Bearers::bearer_no_leaf, crate::proofs::Bearers::found_bears))]
pub fn bearers()
    ensures found { (spec : Spec) (t : Term) (root : ℕ) → IsSound spec → Fits spec t root → (i : Site Place) →
        IsLive (rules_of spec) t i → site_of (rules_of spec) (net_of t) (bearer t i) ≡ Some i }
    ensures no_leaf { (spec : Spec) (t : Term) (root : ℕ) → IsSound spec → Fits spec t root → (i : Site Place) →
        IsLive (rules_of spec) t i → (p : ℕ) (v : Value) → label_of (sub t (bearer t i).node) ≡ Holding p v → ⊥ }
    ensures live { (rules : Rules) (t : Term) (a : Reference Place) (i : Site Place) →
        site_of rules (net_of t) a ≡ Some i → IsLive rules t i }
    ensures bears { (rules : Rules) (t : Term) (a : Reference Place) (i : Site Place) →
        site_of rules (net_of t) a ≡ Some i → bearer t i ≡ a }
{}

/// From-scratch values solve the equations of a term, and a leaf's slot has the leaf's own value.
pub fn solves()
    ensures equation { (spec : Spec) (plans : Plans) (t : Term) → IsPlanned spec plans t → (i : Site Place) →
        IsLive (rules_of spec) t i →
        value_in spec t (bearer t i) ≡ outcome spec i.rule (map (value_in spec t) (args_at (net_of t) i)) }
    ensures leaf { (spec : Spec) (plans : Plans) (t : Term) → IsPlanned spec plans t →
        (a : Reference Place) (p : ℕ) (v : Value) →
        label_of (sub t a.node) ≡ Holding p v → value_in spec t a ≡ v }
{}

/// An equation at a node or below it is of exactly one visit of the node, which is one that the node has.
pub fn one_visit()
    ensures some { (rules : Rules) (plans : Plans) (t : Term) (u w : Place) (i : Site Place) →
        IsLive rules t i → i.node ≡ w ++ u → (j : ℕ) × IsOfVisit rules plans t u j i }
    ensures one { (rules : Rules) (plans : Plans) (t : Term) (u : Place) (j k : ℕ) (i : Site Place) →
        IsOfVisit rules plans t u j i → IsOfVisit rules plans t u k i → j ≡ k }
    ensures there { (spec : Spec) (plans : Plans) (t : Term) → IsPlanned spec plans t →
        (u : Place) (j : ℕ) (i : Site Place) →
        IsOfVisit (rules_of spec) plans t u j i → HasVisit (rules_of spec) plans t u j }
{}

/// The visits of a node never fall as positions of a node at it or below it rise.
#[tactic(auto, using(crate::proofs::Visiting::visits_rise))]
pub fn visits_rise()
    ensures { (spec : Spec) (plans : Plans) (t : Term) → IsPlanned spec plans t →
        (w u : Place) → IsNodeAt t (w ++ u) →
        (q r : ℕ) → q ≤ r → visit_at (rules_of spec) plans t w u q ≤ visit_at (rules_of spec) plans t w u r }
{}

/// What an equation of a visit names is a leaf's slot, or the visit takes it, or it or an earlier one gives it.
#[tactic(auto, using(crate::proofs::Closed::closed))]
pub fn visits_are_closed()
    ensures { (spec : Spec) (plans : Plans) (t : Term) → IsPlanned spec plans t →
        (u : Place) (j : ℕ) (i : Site Place) →
        IsOfVisit (rules_of spec) plans t u j i → (o : Occurrence) → Contains i.rule.args o →
        IsLeafSlot t (referred (net_of t) i.node o) ⊎
        IsTaken (rules_of spec) plans t u j (referred (net_of t) i.node o) ⊎
        ((h : ℕ) × (h ≤ j) × IsGivenBy (rules_of spec) plans t u h (referred (net_of t) i.node o)) }
{}

/// The steps of a visit evaluate exactly its equations, each in one step. A step evaluates an equation of the node's
/// operator, or a visit that a child has.
#[tactic(auto, using(crate::proofs::Visiting::step_some, crate::proofs::Visiting::step_row, crate::proofs::Visiting::step_child))]
pub fn steps_are_exact()
    ensures some { (spec : Spec) (plans : Plans) (t : Term) → IsPlanned spec plans t →
        (u : Place) (j : ℕ) (i : Site Place) →
        IsOfVisit (rules_of spec) plans t u j i → (m : ℕ) × (s : PlanStep) ×
        (slice_get (steps_of plans (operator_in t u) j) m ≡ Some s) × IsOfStep (rules_of spec) plans t u s i }
    ensures row { (spec : Spec) (plans : Plans) (t : Term) → IsPlanned spec plans t → (u : Place) (j : ℕ) →
        HasVisit (rules_of spec) plans t u j → j - 1 < length (row_at plans.steps (operator_in t u)) }
    ensures within { (spec : Spec) (plans : Plans) (t : Term) → IsPlanned spec plans t →
        (u : Place) (j m : ℕ) (s : PlanStep) →
        HasVisit (rules_of spec) plans t u j → slice_get (steps_of plans (operator_in t u) j) m ≡ Some s →
        (i : Site Place) → IsOfStep (rules_of spec) plans t u s i → IsOfVisit (rules_of spec) plans t u j i }
    ensures once { (spec : Spec) (plans : Plans) (t : Term) → IsPlanned spec plans t →
        (u : Place) (j m n : ℕ) (s r : PlanStep) →
        HasVisit (rules_of spec) plans t u j → slice_get (steps_of plans (operator_in t u) j) m ≡ Some s →
        slice_get (steps_of plans (operator_in t u) j) n ≡ Some r → (i : Site Place) →
        IsOfStep (rules_of spec) plans t u s i → IsOfStep (rules_of spec) plans t u r i → m ≡ n }
    ensures equation { (spec : Spec) (plans : Plans) (t : Term) → IsPlanned spec plans t → (u : Place) (j m r : ℕ) →
        HasVisit (rules_of spec) plans t u j → slice_get (steps_of plans (operator_in t u) j) m ≡ Some (Eval r) →
        (x : Rule) × (slice_get spec.rules r ≡ Some x) × (x.op ≡ operator_in t u) }
    ensures child { (spec : Spec) (plans : Plans) (t : Term) → IsPlanned spec plans t → (u : Place) (j m k i : ℕ) →
        HasVisit (rules_of spec) plans t u j → slice_get (steps_of plans (operator_in t u) j) m ≡ Some (Visit k i) →
        HasVisit (rules_of spec) plans t (k ∷ u) i }
{}

/// The first steps of a visit give what the first of them gave and what the next one gives, and all of them what the
/// visit gives.
pub fn steps_give()
    ensures nothing { (rules : Rules) (plans : Plans) (t : Term) (u : Place) (j : ℕ) (a : Reference Place) →
        IsGivenBefore rules plans t u j 0 a → ⊥ }
    ensures next { (rules : Rules) (plans : Plans) (t : Term) (u : Place) (j m : ℕ) (s : PlanStep) →
        slice_get (steps_of plans (operator_in t u) j) m ≡ Some s → (a : Reference Place) →
        IsGivenBefore rules plans t u j (m + 1) a → IsGivenBefore rules plans t u j m a ⊎
        ((i : Site Place) × (site_of rules (net_of t) a ≡ Some i) × IsOfStep rules plans t u s i) }
    ensures all { (spec : Spec) (plans : Plans) (t : Term) → IsPlanned spec plans t →
        (u : Place) (j : ℕ) (a : Reference Place) →
        IsGivenBy (rules_of spec) plans t u j a →
        IsGivenBefore (rules_of spec) plans t u j (length (steps_of plans (operator_in t u) j)) a }
    ensures only { (spec : Spec) (plans : Plans) (t : Term) → IsPlanned spec plans t → (u : Place) (j m : ℕ) →
        HasVisit (rules_of spec) plans t u j → (a : Reference Place) →
        IsGivenBefore (rules_of spec) plans t u j m a → IsGivenBy (rules_of spec) plans t u j a }
{}

/// As a step of a visit begins, what it needs is there: each argument of its equation, or what the child's visit
/// takes and what the child's visits before it gave.
pub fn steps_are_ready()
    ensures argument { (spec : Spec) (plans : Plans) (t : Term) → IsPlanned spec plans t → (u : Place) (j m r : ℕ) →
        HasVisit (rules_of spec) plans t u j → slice_get (steps_of plans (operator_in t u) j) m ≡ Some (Eval r) →
        (x : Rule) (o : Occurrence) → slice_get spec.rules r ≡ Some x → Contains x.args o →
        IsReady (rules_of spec) plans t u j m (referred (net_of t) u o) }
    ensures taken { (spec : Spec) (plans : Plans) (t : Term) → IsPlanned spec plans t → (u : Place) (j m k i : ℕ) →
        HasVisit (rules_of spec) plans t u j → slice_get (steps_of plans (operator_in t u) j) m ≡ Some (Visit k i) →
        (a : Reference Place) → IsTaken (rules_of spec) plans t (k ∷ u) i a →
        IsReady (rules_of spec) plans t u j m a }
    ensures given { (spec : Spec) (plans : Plans) (t : Term) → IsPlanned spec plans t → (u : Place) (j m k i h : ℕ) →
        HasVisit (rules_of spec) plans t u j →
        slice_get (steps_of plans (operator_in t u) j) m ≡ Some (Visit k i) → h < i →
        (a : Reference Place) → IsGivenBy (rules_of spec) plans t (k ∷ u) h a →
        IsReady (rules_of spec) plans t u j m a }
{}

/// The visits of the root give every reference that has an equation, and take nothing where its phylum has no
/// inherited attribute, as a specification's root has none.
#[tactic(auto, using(crate::proofs::Solved::root_takes_nothing, crate::proofs::Solved::root_inherits_nothing))]
pub fn roots()
    ensures all { (spec : Spec) (plans : Plans) (t : Term) → IsPlanned spec plans t →
        (a : Reference Place) (i : Site Place) →
        site_of (rules_of spec) (net_of t) a ≡ Some i → (j : ℕ) × IsGivenBy (rules_of spec) plans t [] j a }
    ensures nothing { (spec : Spec) (plans : Plans) (t : Term) (X : ℕ) → Fits spec t X →
        ((slot : ℕ) → is_inherited spec.phyla X slot ≡ false) → (j : ℕ) (a : Reference Place) →
        IsTaken (rules_of spec) plans t [] j a → ⊥ }
    ensures root { (spec : Spec) → IsSound spec → (slot : ℕ) → is_inherited spec.phyla spec.root slot ≡ false }
{}

/// What is put at a place changes no node outside it, and so no equation there, nor what it names and defines.
#[tactic(auto, using(crate::proofs::Outside::label_outside))]
pub fn outside_stays()
    ensures label { (t : Term) (u : Place) (s : Term) (v : Place) → IsOutside u v →
        label_of (sub (put t u s) v) ≡ label_of (sub t v) }
    ensures before { (rules : Rules) (t : Term) (u : Place) (s : Term) (i : Site Place) → IsOutside u i.node →
        IsLive rules (put t u s) i → IsLive rules t i }
    ensures after { (rules : Rules) (t : Term) (u : Place) (s : Term) (i : Site Place) → IsOutside u i.node →
        IsLive rules t i → IsLive rules (put t u s) i }
    ensures bearer { (t s : Term) (i : Site Place) → bearer t i ≡ bearer s i }
    ensures args { (t s : Term) (i : Site Place) → args_at (net_of t) i ≡ args_at (net_of s) i }
{}

/// Of a slot that is there, the rules alone say what soundness says of it: whether the operator's equations define it.
#[tactic(auto, using(crate::proofs::Equations::owed_alike))]
pub fn owed_alike()
    ensures { (spec : Spec) (op k slot : ℕ) → IsVertex (rules_of spec) op (occurrence k slot) →
        is_owed_by_rules (rules_of spec) op k slot ≡ is_owed spec op k slot }
{}
