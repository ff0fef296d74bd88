//! Laws of what names mean, and of a specification whose names are those of a table, each as the contract of a function
//! without code.
ghost use Rattle.std.specs.Prelude.{◌≡◌, ℕ, List, filter, length};
ghost use Rattle.sg_ast.specs.Declarations.{Decl};
ghost use Rattle.sg_kinds.specs.Completing.{completing_within};
ghost use Rattle.sg_kinds.specs.Expressions.{Expr, Pattern};
ghost use Rattle.sg_kinds.specs.Far.{is_written};
ghost use Rattle.sg_kinds.specs.Placeholder.{placeholder_within};
ghost use Rattle.sg_kinds.specs.Sound.{IsFinite, is_owed};
ghost use Rattle.sg_kinds.specs.Specification.{args_of, attrs_of, locals_of, phylum_of};
ghost use Rattle.sg_kinds.specs.Typing.{bound_types, is_accepted, is_usable, slots_there, slot_type, type_of, types_at};
ghost use Rattle.sg_kinds.specs.declared.spec.Occurrence.{Occurrence};
ghost use Rattle.sg_kinds.specs.declared.spec.Spec.{Spec};
ghost use Rattle.sg_names.specs.Drafted.{HasTable, drafted};
ghost use Rattle.sg_names.specs.Names.{names_of};
ghost use Rattle.sg_names.specs.declared.table.Table.{Table};

/// Each operator that the declarations define has the place of its name.
pub fn operators_have_places()
    ensures { (ds : List Decl) → length (names_of ds).op_places ≡ length (names_of ds).ops }
{}

/// The declarations give each phylum written attributes alone.
pub fn attributes_are_written()
    ensures { (ds : List Decl) (p : ℕ) → filter is_written (attrs_of (names_of ds).phyla p)
        ≡ attrs_of (names_of ds).phyla p }
{}

/// The operators of a specification with the names of a table are those of the table.
pub fn operators_are_kept()
    ensures args { (t : Table) (spec : Spec) → HasTable t spec → (op : ℕ) → args_of spec.ops op ≡ args_of t.ops op }
    ensures phylum { (t : Table) (spec : Spec) → HasTable t spec → (op : ℕ)
        → phylum_of spec.ops op ≡ phylum_of t.ops op }
    ensures locals { (t : Table) (spec : Spec) → HasTable t spec → (op : ℕ)
        → locals_of spec.ops op ≡ locals_of t.ops op }
    ensures count { (t : Table) (spec : Spec) → HasTable t spec → length spec.ops ≡ length t.ops }
{}

/// Its slots have the types that the table gives, and its operators owe the same slots.
pub fn slots_are_kept()
    ensures slots { (t : Table) (spec : Spec) → HasTable t spec → (op k : ℕ)
        → slots_there spec op k ≡ slots_there (drafted t) op k }
    ensures slot { (t : Table) (spec : Spec) → HasTable t spec → (op k slot : ℕ)
        → slot_type spec op k slot ≡ slot_type (drafted t) op k slot }
    ensures types { (t : Table) (spec : Spec) → HasTable t spec → (op : ℕ) (os : List Occurrence)
        → types_at spec op os ≡ types_at (drafted t) op os }
    ensures owed { (t : Table) (spec : Spec) → HasTable t spec → (op k slot : ℕ)
        → is_owed spec op k slot ≡ is_owed (drafted t) op k slot }
{}

/// Its expressions and patterns have the types that the table gives.
pub fn types_are_kept()
    ensures usable { (t : Table) (spec : Spec) → HasTable t spec → (p : ℕ)
        → is_usable spec p ≡ is_usable (drafted t) p }
    ensures accepted { (t : Table) (spec : Spec) → HasTable t spec → (p wanted : ℕ)
        → is_accepted spec p wanted ≡ is_accepted (drafted t) p wanted }
    ensures bound { (t : Table) (spec : Spec) → HasTable t spec → (x : Pattern) (p : ℕ)
        → bound_types spec x p ≡ bound_types (drafted t) x p }
    ensures expr { (t : Table) (spec : Spec) → HasTable t spec → (G : List ℕ) (e : Expr)
        → type_of spec G e ≡ type_of (drafted t) G e }
{}

/// Its completing terms and placeholders are those that the table gives.
pub fn terms_are_kept()
    ensures completing { (t : Table) (spec : Spec) → HasTable t spec → (n p : ℕ)
        → completing_within spec n p ≡ completing_within (drafted t) n p }
    ensures placeholder { (t : Table) (spec : Spec) → HasTable t spec → (n p : ℕ)
        → placeholder_within spec n p ≡ placeholder_within (drafted t) n p }
    ensures finite { (t : Table) (spec : Spec) → HasTable t spec → (p : ℕ) → IsFinite (drafted t) p → IsFinite spec p }
{}
