//! Laws of the rules of the record, each as the contract of a function without code.
ghost use Rattle.std.specs.Prelude.{◌≡◌, ℕ, suc, List, [], ◌∷◌, ◌++◌, All, flat_map, length, map, None, Some, slice_get, true};
ghost use Rattle.std.specs.List.{filter};
ghost use Rattle.sg_ast.specs.Declarations.{Decl};
ghost use Rattle.sg_ast.specs.FirstFault.{repeats};
ghost use Rattle.sg_ast.specs.Rising.{places_of, RiseFrom, SomeOf};
ghost use Rattle.sg_ast.specs.Written.{HaveWritten};
ghost use Rattle.sg_kinds.specs.Dependencies.{occurrence};
ghost use Rattle.sg_kinds.specs.Expressions.{Named};
ghost use Rattle.sg_kinds.specs.Far.{is_far};
ghost use Rattle.sg_kinds.specs.Instances.{rule_for};
ghost use Rattle.sg_kinds.specs.Sound.{HasRules};
ghost use Rattle.sg_kinds.specs.Specification.{attrs_of, args_of};
ghost use Rattle.sg_kinds.specs.Values.{Bytes};
ghost use Rattle.sg_kinds.specs.declared.fault.Position.{Position};
ghost use Rattle.sg_kinds.specs.declared.fault.SpecFault.TheVariants.{Missing, NotDefinedHere, Twice};
ghost use Rattle.sg_kinds.specs.declared.spec.Attr.{Attr};
ghost use Rattle.sg_kinds.specs.declared.spec.Spec.{Spec};
ghost use Rattle.sg_names.specs.Drafted.{HasTable};
ghost use Rattle.sg_names.specs.declared.table.Table.{Table};
ghost use Rattle.sg_remote.specs.Handing.{handing, rule};
ghost use Rattle.sg_remote.specs.Longer.{names_of};
ghost use Rattle.sg_typing.specs.Bodies.{exprs_in, first_mismatch};
ghost use Rattle.sg_typing.specs.Written.{HasLists};
ghost use Rattle.sg_typing.specs.declared.bodies.TypedExpr.{TypedExpr};
ghost use Rattle.sg_equations.specs.Complete.{incomplete, is_same_target, missing, not_defined_here, twice};
ghost use Rattle.sg_equations.specs.DefinedPlaces.{defined_places, is_not_owed, IsFirst, IsFirstLacking};
ghost use Rattle.sg_equations.specs.Handed.{AreHandedDown, HasSource};
ghost use Rattle.sg_equations.specs.Literals.{HasLiterals};
ghost use Rattle.sg_equations.specs.RulesOf.{rules_in};
ghost use Rattle.sg_equations.specs.Targets.{defined_in};

/// Where no equation has a fault, what an operator owes and each far attribute of an argument has exactly one rule, there
/// is no other rule, and each is well typed. Of the declarations it asks that the literals of their equations are values,
/// as those of what is written are.
#[tactic(auto, using(crate::proofs::RulesSound::written_literals))]
pub fn rules_are_sound()
    ensures sound { (t : Table) (ds : List Decl) (spec : Spec) →
        HasTable t spec → HasLists t → length t.op_places ≡ length t.ops → All HasLiterals ds → AreHandedDown t →
        spec.rules ≡ rules_in t (exprs_in t ds) 0 ds ++ handing t (length (exprs_in t ds)) →
        spec.exprs ≡ map (λ (x : TypedExpr). x.expr) (exprs_in t ds) ++ Named 0 ∷ [] →
        first_mismatch t ds ≡ None → incomplete t ds ≡ None → HasRules spec }
    ensures handed { (t : Table) (ds : List Decl) (e op k q s : ℕ) (a : Attr) →
        incomplete t ds ≡ None → slice_get (args_of t.ops op) k ≡ Some q → slice_get (attrs_of t.phyla q) s ≡ Some a →
        is_far a ≡ true → (x : HasSource t op a) →
        rule_for (rules_in t (exprs_in t ds) 0 ds ++ handing t e) op (occurrence (suc k) s)
        ≡ Some (rule e op (occurrence (suc k) s) x.slot) }
    ensures written { (ds : List Decl) → HaveWritten ds → All HasLiterals ds }
{}

/// The equations and the operators that the rows of equations go along are met in the order of the text.
pub fn equations_follow_the_text()
    ensures targets { (t : Table) (ds : List Decl) → SomeOf (defined_places (defined_in t ds)) (flat_map places_of ds) }
    ensures operators { (ds : List Decl) → SomeOf (names_of ds).op_places (flat_map places_of ds) }
{}

/// So of declarations whose places rise, as those of a text do, the first fault of each of the three rows stands before
/// all others of its row.
pub fn first_is_first_in_the_text()
    ensures not_owed { (ds : List Decl) → RiseFrom 0 (flat_map places_of ds) → (t : Table) (p : Position)
        → not_defined_here t (defined_in t ds) ≡ Some (NotDefinedHere p)
        → IsFirst (filter (is_not_owed t) (defined_in t ds)) p }
    ensures twice { (ds : List Decl) → RiseFrom 0 (flat_map places_of ds) → (t : Table) (p : Position)
        → twice (defined_in t ds) ≡ Some (Twice p) → IsFirst (repeats is_same_target (defined_in t ds)) p }
    ensures missing { (ds : List Decl) → RiseFrom 0 (flat_map places_of ds) → (p : Position) (n : Bytes)
        → missing (names_of ds) (defined_in (names_of ds) ds) ≡ Some (Missing p n)
        → IsFirstLacking (names_of ds) (defined_in (names_of ds) ds) p }
{}
