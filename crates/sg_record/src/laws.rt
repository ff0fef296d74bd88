//! Laws of the record, each as the contract of a function without code.
ghost use Rattle.std.specs.Prelude.{◌≡◌, List, None, Some, All, flat_map};
ghost use Rattle.sg_ast.specs.Declarations.{Decl};
ghost use Rattle.sg_ast.specs.FirstFault.{repeats};
ghost use Rattle.sg_ast.specs.Rising.{places_of, RiseFrom, SomeOf};
ghost use Rattle.sg_kinds.specs.Lexemes.{Lexeme};
ghost use Rattle.sg_kinds.specs.Sound.{HasEntries, HasSchemes, HasShapes, IsNamed, IsNumbered, IsTyped};
ghost use Rattle.sg_kinds.specs.declared.fault.Position.{Position};
ghost use Rattle.sg_kinds.specs.declared.spec.Rule.{Rule};
ghost use Rattle.sg_names.specs.Drafted.{HasTable};
ghost use Rattle.sg_names.specs.Shapes.{result_count};
ghost use Rattle.sg_names.specs.UnknownName.{unknown_name};
ghost use Rattle.sg_names.specs.declared.table.Table.{Table};
ghost use Rattle.sg_record.specs.Entries.{entered, entry_twice, entry_type, type_fault};
ghost use Rattle.sg_record.specs.EntryPlaces.{entry_places, fault_place, is_same_phylum, IsFirstEntry};
ghost use Rattle.sg_ast.specs.Written.{HaveWritten};
ghost use Rattle.sg_record.specs.Premises.{AreApart, HasNoSchemes};
ghost use Rattle.sg_record.specs.Record.{record_of};
ghost use Rattle.sg_remote.specs.Longer.{names_of};
ghost use Rattle.sg_schemes.specs.NoScheme.{IsNoScheme};
ghost use Rattle.sg_schemes.specs.Places.{scheme_kids};
ghost use Rattle.sg_schemes.specs.Spots.{IsFirst};
ghost use Rattle.sg_typing.specs.Checked.{first_fault};

/// The record has the names of its table, whose operators have no schemes.
pub fn names_are_kept()
    ensures table { (t : Table) (ds : List Decl) (rules : List Rule) (lexemes : List Lexeme) → HasNoSchemes t
        → HasTable t (record_of t ds rules lexemes) }
    ensures bare { (ds : List Decl) → HasNoSchemes (names_of ds) }
{}

/// Functions, transformations and input productions of declarations without faults of names and types are well typed.
pub fn records_are_typed()
    ensures { (ds : List Decl) (rules : List Rule) (lexemes : List Lexeme) → HaveWritten ds →
        unknown_name (names_of ds) ds ≡ None → result_count (names_of ds) ≡ None → first_fault (names_of ds) ds ≡ None →
        HasShapes (record_of (names_of ds) ds rules lexemes) → IsTyped (record_of (names_of ds) ds rules lexemes) }
{}

/// Operators of shown phyla have schemes in the ordinary view, and each scheme of each view fits its operator.
pub fn records_have_schemes()
    ensures { (ds : List Decl) (rules : List Rule) (lexemes : List Lexeme) → HaveWritten ds →
        IsNoScheme (names_of ds) ds None → scheme_kids (names_of ds) ds ≡ None → first_fault (names_of ds) ds ≡ None →
        HasShapes (record_of (names_of ds) ds rules lexemes) → HasSchemes (record_of (names_of ds) ds rules lexemes) }
{}

/// No phylum has two entries, and each entry's result is accepted.
pub fn records_have_entries()
    ensures { (ds : List Decl) (rules : List Rule) (lexemes : List Lexeme) → HaveWritten ds →
        unknown_name (names_of ds) ds ≡ None → result_count (names_of ds) ≡ None →
        entry_twice (names_of ds) ds ≡ None → entry_type (names_of ds) ds ≡ None
        → HasEntries (record_of (names_of ds) ds rules lexemes) }
{}

/// Nonterminals are told by their names and by their numbers, which are those of their first productions.
pub fn records_have_nonterminals()
    ensures named { (ds : List Decl) (rules : List Rule) (lexemes : List Lexeme) → HaveWritten ds →
        AreApart (names_of ds) → result_count (names_of ds) ≡ None →
        All (IsNamed (record_of (names_of ds) ds rules lexemes))
        (record_of (names_of ds) ds rules lexemes).productions }
    ensures numbered { (ds : List Decl) (rules : List Rule) (lexemes : List Lexeme) → HaveWritten ds →
        IsNumbered (record_of (names_of ds) ds rules lexemes).productions }
{}

/// The entries are met in the order of the text. So of declarations whose places rise, as those of a text do, the first
/// second entry of a phylum stands before all others, and so does the first whose attribute has a type that is not
/// accepted.
pub fn entries_follow_the_text()
    ensures entries { (ds : List Decl) → SomeOf (entry_places (entered ds)) (flat_map places_of ds) }
    ensures entry_twice { (ds : List Decl) → RiseFrom 0 (flat_map places_of ds) → (t : Table) (p : Position)
        → fault_place (entry_twice t ds) ≡ Some p → IsFirstEntry (repeats (is_same_phylum t) (entered ds)) p }
    ensures entry_type { (ds : List Decl) → RiseFrom 0 (flat_map places_of ds) → (t : Table) (p : Position)
        → fault_place (entry_type t ds) ≡ Some p → IsFirst (λ d. fault_place (type_fault t d)) ds p }
{}
