// Laws of evaluation, each as the contract of a function without code.
ghost use Rattle.std.specs.Prelude.{◌≡◌, ℕ, List, Some, slice_get};
ghost use Rattle.sg_kinds.specs.Values.{Value};
ghost use Rattle.sg_kinds.specs.Expressions.{Pattern};
ghost use Rattle.sg_kinds.specs.Evaluation.{bound_by};
ghost use Rattle.sg_kinds.specs.Outcome.{outcome, outcome_of};
ghost use Rattle.sg_kinds.specs.OfType.{IsOfType};
ghost use Rattle.sg_kinds.specs.Sound.{IsSound, symbol_types};
ghost use Rattle.sg_kinds.specs.Typing.{bound_types, types_at, slot_type};
ghost use Rattle.sg_kinds.specs.declared.spec.Spec.{Spec};
ghost use Rattle.sg_kinds.specs.declared.spec.Rule.{Rule};
ghost use Rattle.sg_kinds.specs.declared.spec.Transform.{Transform};
ghost use Rattle.sg_kinds.specs.declared.spec.Production.{Production};
ghost use Rattle.sg_pool.specs.Pools.{IsGrown};
ghost use Rattle.sg_eval.specs.MadeTerms.{AreMade};
ghost use Rattle.sg_eval.specs.Typed.{AreOfTypes};
ghost use Rattle.sg_eval.specs.declared.made.MadeTerms.{MadeTerms};

/// Over a sound specification the outcome of an equation is of the type of what it defines, that of a transform of
/// its phylum, and that of an input production of its result's phylum, where the bindings are of their types.
#[tactic(auto, using(crate::proofs::OfTypes::rule_typed, crate::proofs::OfTypes::transform_typed, crate::proofs::OfTypes::production_typed))]
pub fn outcomes_are_of_their_types()
    ensures rule { (spec : Spec) → IsSound spec → (n : ℕ) (r : Rule) → slice_get spec.rules n ≡ Some r →
        (G : List ℕ) (args : List Value) (p : ℕ) → types_at spec r.op r.args ≡ Some G → AreOfTypes spec G args →
        slot_type spec r.op r.target.at r.target.slot ≡ Some p → IsOfType spec p (outcome spec r args) }
    ensures transform { (spec : Spec) → IsSound spec → (n : ℕ) (x : Transform) → slice_get spec.transforms n ≡ Some x →
        (G : List ℕ) (bound : List Value) → bound_types spec x.pattern x.phylum ≡ Some G → AreOfTypes spec G bound →
        IsOfType spec x.phylum (outcome_of spec x.expr bound) }
    ensures production { (spec : Spec) → IsSound spec →
        (n : ℕ) (r : Production) → slice_get spec.productions n ≡ Some r →
        (G : List ℕ) (bound : List Value) → symbol_types spec r.right ≡ Some G → AreOfTypes spec G bound →
        IsOfType spec r.of (outcome_of spec r.expr bound) }
{}

/// Over a sound specification what a pattern binds is of its variables' types, where the value is of the pattern's
/// type.
#[tactic(auto, using(crate::proofs::OfTypes::pattern_typed))]
pub fn bindings_are_of_their_types()
    ensures { (spec : Spec) → IsSound spec → (x : Pattern) (p : ℕ) (v : Value) (types : List ℕ) (bound : List Value) →
        bound_types spec x p ≡ Some types → bound_by spec x v ≡ Some bound → IsOfType spec p v →
        AreOfTypes spec types bound }
{}

/// The numbers of made terms that are kept stay right where the pool grows.
#[tactic(auto, using(crate::proofs::MadeLater::made_later))]
pub fn made_terms_stay()
    ensures { (spec : Spec) (made : MadeTerms) (old new : List Value) →
        AreMade spec made old → IsGrown old new → AreMade spec made new }
{}
