//! Laws of what is kept of declarations, each as the contract of a function without code.
ghost use Rattle.std.specs.Prelude.{◌≡◌, ◌≤◌, ℕ, List, map, flat_map, slice_get, ◌++◌, Option, Some, None, is_some, true, false};
ghost use Rattle.std.specs.List.{AllByRecursion};
ghost use Rattle.sg_ast.specs.Declarations.{Decl, Equation, Right};
ghost use Rattle.sg_ast.specs.Expressions.{Expr};
ghost use Rattle.sg_ast.specs.Patterns.{Pattern};
ghost use Rattle.sg_ast.specs.Rising.{RiseFrom, places_of};
ghost use Rattle.sg_ast.specs.Written.{HasValues, AreWritten};
ghost use Rattle.sg_ast.specs.declared.name.Name.{Name};
ghost use Rattle.sg_ast.specs.declared.name.Typed.{Typed};
ghost use Rattle.sg_kinds.specs.Sound.{HasShapes};
ghost use Rattle.sg_kinds.specs.Typing.{bound_types, is_found, type_of, types_at};
ghost use Rattle.sg_kinds.specs.Values.{Bytes};
ghost use Rattle.sg_kinds.specs.declared.fault.Position.{Position};
ghost use Rattle.sg_kinds.specs.declared.spec.Occurrence.{Occurrence};
ghost use Rattle.sg_kinds.specs.declared.spec.Spec.{Spec};
ghost use Rattle.sg_names.specs.Drafted.{HasTable, drafted};
ghost use Rattle.sg_names.specs.Lookups.{phylum_named};
ghost use Rattle.sg_names.specs.Uses.{InOperator, equation_uses, expr_uses, in_function, in_transform, local_scope};
ghost use Rattle.sg_names.specs.Uses.{pattern_uses, right_uses, uses};
ghost use Rattle.sg_names.specs.declared.table.Table.{Table};
ghost use Rattle.sg_types.specs.Bindings.{Owner, OfEquation, OfProduction};
ghost use Rattle.sg_types.specs.Expressions as expr;
ghost use Rattle.sg_types.specs.Patterns.{mismatch_in, recorded, variables_of};
ghost use Rattle.sg_types.specs.declared.scope.Variable.{Variable};
ghost use Rattle.sg_typing.specs.Arguments.{args_in};
ghost use Rattle.sg_typing.specs.Bodies as body;
ghost use Rattle.sg_typing.specs.Known.{AreKnown, HasArguments, HasFars, SeesVariables, site_of};
ghost use Rattle.sg_typing.specs.Mismatches.{mismatches};
ghost use Rattle.sg_typing.specs.ShownTypes.{all_hidden, first_hidden};
ghost use Rattle.sg_typing.specs.Written.{HasLists, AreOutside, known};

/// A pattern without a mismatch binds its variables in the record too, each with its type.
#[tactic(auto, using(crate::proofs::Kept::pattern_kept))]
pub fn patterns_are_typed()
    ensures { (t : Table) (q : Pattern) (p : ℕ) → HasValues q → mismatch_in t q (Some p) ≡ None
        → bound_types (drafted t) (recorded t q) p ≡ known (variables_of t q (Some p)) }
{}

/// An expression without a mismatch has a type, and its expression in the record has the same, where the bindings
/// before the variables have the types of what names them.
pub fn expressions_are_typed()
    ensures kept { (t : Table) → HasLists t → (w : Owner) (outer : List ℕ) → AreOutside t w outer
        → (vs : List Variable) (types : List ℕ) (e : Expr) → known vs ≡ Some types → AreWritten e
        → expr.mismatch_in t w vs e ≡ None → type_of (drafted t) (outer ++ types) (expr.recorded t w vs e)
        ≡ expr.type_in t w vs e }
    ensures typed { (t : Table) → HasLists t → (w : Owner) (outer : List ℕ) → AreOutside t w outer
        → (vs : List Variable) (types : List ℕ) (e : Expr) → known vs ≡ Some types → AreWritten e
        → expr.mismatch_in t w vs e ≡ None → is_some (expr.type_in t w vs e) ≡ true }
{}

/// The bindings of an equation have the types of its arguments' slots.
pub fn equations_have_arguments()
    ensures { (t : Table) (op : ℕ) (args : List Occurrence) (types : List ℕ)
        → types_at (drafted t) op args ≡ Some types → AreOutside t (OfEquation op args) types }
{}

/// What an equation's expression names has types.
pub fn arguments_have_types()
    ensures { (t : Table) (op : ℕ) (e : Expr) → (types : List ℕ)
        × (types_at (drafted t) op (args_in t op e) ≡ Some types) }
{}

/// An expression that fits where a type is wanted has, in each record with these names, a type that is accepted there.
pub fn bodies_are_typed()
    ensures { (t : Table) (spec : Spec) → HasTable t spec → HasLists t → (w : Owner) (outer : List ℕ)
        → AreOutside t w outer → (vs : List Variable) (types : List ℕ) → known vs ≡ Some types
        → (wanted : Option ℕ) (e : Expr) → AreWritten e → expr.mismatch_at t w vs wanted e ≡ None
        → (p : ℕ) × (wanted ≡ Some p) × (is_found spec p (type_of spec (outer ++ types) (expr.recorded t w vs e))
        ≡ true) }
{}

/// A pattern with a mismatch binds nothing in any record with these names, where its names mean something.
pub fn mismatched_patterns_are_untyped()
    ensures { (t : Table) (spec : Spec) → HasTable t spec → (q : Pattern) (p : ℕ) (scope : List Bytes)
        → AreKnown t (pattern_uses scope q) → (place : Position) → mismatch_in t q (Some p) ≡ Some place
        → bound_types spec (recorded t q) p ≡ None }
{}

/// An expression with a mismatch where a type is wanted has, in each record with these names, no type that is accepted
/// there, where its names mean something and its attributes of enclosing nodes are there.
#[tactic(auto, using(crate::proofs::BodyUntyped::body_untyped))]
pub fn mismatches_are_untyped()
    ensures { (t : Table) (spec : Spec) → HasTable t spec → HasShapes spec → (w : Owner) (outer : List ℕ)
        → AreOutside t w outer → (vs : List Variable) (types : List ℕ) → known vs ≡ Some types
        → (e : Expr) (scope : List Bytes) → HasArguments t w e → SeesVariables t w vs scope
        → AreKnown t (expr_uses (site_of w) scope e) → HasFars t w e → (p : ℕ) (place : Position)
        → expr.mismatch_at t w vs (Some p) e ≡ Some place
        → is_found spec p (type_of spec (outer ++ types) (expr.recorded t w vs e)) ≡ false }
{}

/// So it is with the bodies of declarations whose uses are known: where one has a mismatch, its expression in each record
/// with these names has no type that is accepted where it stands, or its pattern binds nothing. Of an equation it asks
/// that its attributes of enclosing nodes are there.
pub fn mismatched_bodies_are_untyped()
    ensures equations { (t : Table) (spec : Spec) → HasTable t spec → HasShapes spec → (op : ℕ) (q : Equation)
        (types : List ℕ) → AreKnown t (equation_uses (InOperator op) (local_scope t op) q)
        → HasFars t (body.equation_owner t op q) q.expr → types_at spec op (args_in t op q.expr) ≡ Some types
        → (p : ℕ) (place : Position)
        → body.target_type t op q.target ≡ Some p → body.equation_mismatch t op q ≡ Some place
        → is_found spec p (type_of spec types (body.equation_typed t op q).expr) ≡ false }
    ensures functions { (t : Table) (spec : Spec) → HasTable t spec → HasShapes spec → (of : Name)
        (params : List Typed) (e : Expr) (types : List ℕ) → AreKnown t (in_function of params e)
        → known (map (body.parameter t) params) ≡ Some types → (p : ℕ) (place : Position)
        → phylum_named t of.text ≡ Some p → body.function_mismatch t of params e ≡ Some place
        → is_found spec p (type_of spec types (body.function_typed t params e).expr) ≡ false }
    ensures transforms { (t : Table) (spec : Spec) → HasTable t spec → HasShapes spec → (n : Name) (q : Pattern)
        (e : Expr) (types : List ℕ) → AreKnown t (in_transform n q e) → (p : ℕ) (place : Position)
        → phylum_named t n.text ≡ Some p → bound_types spec (recorded t q) p ≡ Some types
        → body.transform_mismatch t n q e ≡ Some place
        → is_found spec p (type_of spec types (body.transform_typed t n q e).expr) ≡ false }
    ensures productions { (t : Table) (spec : Spec) → HasTable t spec → HasShapes spec → (n : Name) (r : Right)
        (types : List ℕ) → AreKnown t (right_uses n.text r) → AreOutside t (OfProduction n.text r.parts) types
        → (p : ℕ) (place : Position) → body.result_type t n ≡ Some p → body.right_mismatch t n r ≡ Some place
        → is_found spec p (type_of spec types (body.right_typed t n r).expr) ≡ false }
{}

/// Where uses are known, what an equation defines, a function gives and a transformation is on has a type, and so have
/// parameters.
pub fn wanted_types_are_known()
    ensures equations { (t : Table) (op : ℕ) (q : Equation)
        → AreKnown t (equation_uses (InOperator op) (local_scope t op) q)
        → is_some (body.target_type t op q.target) ≡ true }
    ensures functions { (t : Table) (of : Name) (params : List Typed) (e : Expr) → AreKnown t (in_function of params e)
        → (is_some (phylum_named t of.text) ≡ true) × (is_some (known (map (body.parameter t) params)) ≡ true) }
    ensures transforms { (t : Table) (n : Name) (q : Pattern) (e : Expr) → AreKnown t (in_transform n q e)
        → is_some (phylum_named t n.text) ≡ true }
{}

/// Of all mismatches of declarations whose uses are known the walk answers the first, and where the places of the
/// declarations rise, as those of a text do, none of the others stands before it.
pub fn mismatches_follow_the_text()
    ensures first { (t : Table) (ds : List Decl) → AreKnown t (uses t ds)
        → body.first_mismatch t ds ≡ slice_get (mismatches t ds) 0 }
    ensures least { (t : Table) (ds : List Decl) → AreKnown t (uses t ds) → RiseFrom 0 (flat_map places_of ds)
        → (p : Position) → body.first_mismatch t ds ≡ Some p
        → AllByRecursion (λ (q : Position). p.token ≤ q.token) (mismatches t ds) }
{}

/// Of all that schemes cannot show the walk answers the first, and where the places of the declarations rise, as those
/// of a text do, none of the others stands before it.
pub fn hidden_types_follow_the_text()
    ensures first { (t : Table) (ds : List Decl) → first_hidden t ds ≡ slice_get (all_hidden t ds) 0 }
    ensures least { (t : Table) (ds : List Decl) → RiseFrom 0 (flat_map places_of ds) → (p : Position)
        → first_hidden t ds ≡ Some p
        → AllByRecursion (λ (q : Position). p.token ≤ q.token) (all_hidden t ds) }
{}

/// Where the shapes are sound, each list phylum has its binary operator.
pub fn lists_are_there()
    ensures { (t : Table) (spec : Spec) → HasTable t spec → HasShapes spec → HasLists t }
{}
