//! Laws of the definitions, each as the contract of a function without code.
ghost use Rattle.std.specs.Prelude.{◌≡◌, ℕ, List, Option, Some, flat_map, map, true};
ghost use Rattle.sg_ast.specs.Declarations.{Decl};
ghost use Rattle.sg_ast.specs.FirstFault.{first};
ghost use Rattle.sg_ast.specs.Rising.{places_of, RiseFrom, SomeOf};
ghost use Rattle.sg_ast.specs.declared.name.Quoted.{Quoted};
ghost use Rattle.sg_kinds.specs.Sound.{IsShown};
ghost use Rattle.sg_kinds.specs.declared.fault.Position.{Position};
ghost use Rattle.sg_kinds.specs.declared.fault.SpecFault.{SpecFault};
ghost use Rattle.sg_names.specs.Drafted.{drafted};
ghost use Rattle.sg_names.specs.declared.table.Table.{Table};
ghost use Rattle.sg_remote.specs.Longer.{names_of};
ghost use Rattle.sg_schemes.specs.NoScheme.{IsNoScheme};
ghost use Rattle.sg_schemes.specs.Places.{kids_fault, scheme_kids};
ghost use Rattle.sg_schemes.specs.ShownFlags.{flag, shown, no_scheme};
ghost use Rattle.sg_schemes.specs.Spots.{each_scheme, scheme_places, strings_at, fault_place, IsFirst, IsFirstWithout};
ghost use Rattle.sg_schemes.specs.Strings.{string_fault, scheme_text};

/// The passes put up the flags of the shown phyla and no others.
pub fn flags_are_of_shown_phyla()
    ensures only { (t : Table) (p : ℕ) → flag (shown t) p ≡ true → IsShown (drafted t) p }
    ensures all { (t : Table) (p : ℕ) → IsShown (drafted t) p → flag (shown t) p ≡ true }
{}

/// There is one answer to which operator of a shown phylum is the first without a scheme, and it is the computed one.
pub fn missing_schemes_have_one_answer()
    ensures holds { (t : Table) (ds : List Decl) → IsNoScheme t ds (no_scheme t ds) }
    ensures one { (t : Table) (ds : List Decl) (a b : Option SpecFault) → IsNoScheme t ds a → IsNoScheme t ds b
        → a ≡ b }
{}

/// The operators, the schemes and the strings that the rows of schemes go along are met in the order of the text, and
/// each row is that of its spots one by one.
pub fn schemes_follow_the_text()
    ensures operators { (ds : List Decl) → SomeOf (names_of ds).op_places (flat_map places_of ds) }
    ensures schemes { (ds : List Decl) → SomeOf (flat_map scheme_places ds) (flat_map places_of ds) }
    ensures strings { (ds : List Decl) → SomeOf (map (λ (s : Quoted). s.place) (flat_map strings_at ds))
        (flat_map places_of ds) }
    ensures by_scheme { (t : Table) (ds : List Decl) → scheme_kids t ds ≡ first (kids_fault t)
        (flat_map each_scheme ds) }
    ensures by_string { (ds : List Decl) → scheme_text ds ≡ first string_fault (flat_map strings_at ds) }
{}

/// So of declarations whose places rise, as those of a text do, the first fault of each of the three rows stands before
/// all others of its row.
pub fn first_is_first_in_the_text()
    ensures no_scheme { (ds : List Decl) → RiseFrom 0 (flat_map places_of ds)
        → (f : Option SpecFault) (p : Position) → IsNoScheme (names_of ds) ds f → fault_place f ≡ Some p
        → IsFirstWithout (names_of ds) ds p }
    ensures scheme_kids { (ds : List Decl) → RiseFrom 0 (flat_map places_of ds)
        → (t : Table) (p : Position) → fault_place (scheme_kids t ds) ≡ Some p
        → IsFirst (λ d. fault_place (kids_fault t d)) (flat_map each_scheme ds) p }
    ensures scheme_text { (ds : List Decl) → RiseFrom 0 (flat_map places_of ds)
        → (p : Position) → fault_place (scheme_text ds) ≡ Some p
        → IsFirst (λ s. fault_place (string_fault s)) (flat_map strings_at ds) p }
{}
