//! Laws of the definitions, each as the contract of a function without code.
ghost use Rattle.std.specs.Prelude.{◌≡◌, ◌<◌, ◌≤◌, ◌^◌, List, None, length, All};
ghost use Rattle.sg_kinds.specs.Sound.{AreCounted, AreDistinct, HasNames, IsNamed, IsNumbered};
ghost use Rattle.sg_kinds.specs.declared.spec.Operator.{Operator};
ghost use Rattle.sg_kinds.specs.declared.spec.Production.{Production};
ghost use Rattle.sg_kinds.specs.declared.spec.Scheme.{Scheme};
ghost use Rattle.sg_kinds.specs.declared.spec.Spec.{Spec};
ghost use Rattle.sg_ast.specs.Declarations.{Decl};
ghost use Rattle.sg_counts.specs.Duplicates.{duplicate};
ghost use Rattle.sg_counts.specs.Limits.{limit};
ghost use Rattle.sg_names.specs.Drafted.{HasTable};
ghost use Rattle.sg_names.specs.Names.{names_of};
ghost use Rattle.sg_resolve.specs.Limited.{IsLimited};

/// Where no count of declarations is over its limit, each is within its own.
#[tactic(auto, using(crate::proofs::Limiting::within_limits))]
pub fn counts_are_limited()
    ensures { (ds : List Decl) → limit ds ≡ None → IsLimited ds }
{}

/// Then a specification with these names is counted as soundness asks, if its transformations, schemes, productions,
/// equations and views are.
pub fn names_are_counted()
    ensures { (ds : List Decl) (spec : Spec) → limit ds ≡ None → HasTable (names_of ds) spec
        → length spec.transforms ≤ 1024 → All (λ (o : Operator). length o.schemes ≤ 16) spec.ops
        → length spec.productions ≤ 1024 → All (λ (r : Production). length r.right ≤ 16) spec.productions
        → length spec.rules < 2 ^ 32 → length spec.views.names ≤ 16
        → All (λ row. All (λ (ss : List Scheme). length ss ≤ 16) row) spec.views.rows → AreCounted spec }
{}

/// Where no definition is a second one, a specification with these names has the names that soundness asks for, if its
/// nonterminals and views have.
pub fn names_are_distinct()
    ensures { (ds : List Decl) (spec : Spec) → duplicate ds ≡ None → HasTable (names_of ds) spec
        → All (IsNamed spec) spec.productions → IsNumbered spec.productions → AreDistinct spec.views.names
        → HasNames spec }
{}
