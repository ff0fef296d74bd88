//! Laws of the definitions, each as the contract of a function without code.
ghost use Rattle.std.specs.Prelude.{◌≡◌, ◌<◌, ℕ, List, Some, None, drop, flat_map, length, map, slice_get, false};
ghost use Rattle.sg_kinds.specs.Sound.{IsFinite};
ghost use Rattle.sg_kinds.specs.declared.spec.Phylum.{Phylum};
ghost use Rattle.sg_kinds.specs.Specification.{is_leaf_shape};
ghost use Rattle.sg_ast.specs.Declarations.{Decl};
ghost use Rattle.sg_ast.specs.Rising.{places_of, SomeOf};
ghost use Rattle.sg_ast.specs.declared.name.Name.{Name};
ghost use Rattle.sg_names.specs.Names.{names_of};
ghost use Rattle.sg_names.specs.Shapes.{roots, list_names, optional_names};
ghost use Rattle.sg_names.specs.declared.table.Nonterminal.{Nonterminal};
ghost use Rattle.sg_names.specs.declared.table.Table.{Table};
ghost use Rattle.sg_names.specs.Drafted.{drafted};
ghost use Rattle.sg_shapes.specs.Unfinished.{unfinished};

/// Where no phylum is unfinished, the made terms of each phylum are finite, as soundness asks, and the other way
/// round. Of the phylum that is found they are not, those of the phyla before it are, and it is no base or lexeme
/// phylum.
pub fn finished_phyla_are_finite()
    ensures finite { (t : Table) → unfinished t ≡ None → (p : ℕ) → p < length t.phyla → IsFinite (drafted t) p }
    ensures only { (t : Table) → ((p : ℕ) → p < length t.phyla → IsFinite (drafted t) p) → unfinished t ≡ None }
    ensures found { (t : Table) (p : ℕ) → unfinished t ≡ Some p → IsFinite (drafted t) p → ⊥ }
    ensures first { (t : Table) (p q : ℕ) → unfinished t ≡ Some p → q < p → IsFinite (drafted t) q }
    ensures operators { (t : Table) (p : ℕ) (x : Phylum) → unfinished t ≡ Some p → slice_get t.phyla p ≡ Some x
        → is_leaf_shape x.shape ≡ false }
{}

/// The names and the nonterminals that the rows of shapes go along, and the phyla behind BOOL, INT and STR, are met
/// in the order of the text, so the first of them is the first in the text.
pub fn shapes_follow_the_text()
    ensures roots { (ds : List Decl) → SomeOf (map (λ (n : Name). n.place) (roots ds)) (flat_map places_of ds) }
    ensures lists { (ds : List Decl) → SomeOf (map (λ (n : Name). n.place) (flat_map list_names ds))
        (flat_map places_of ds) }
    ensures optionals { (ds : List Decl) → SomeOf (map (λ (n : Name). n.place) (flat_map optional_names ds))
        (flat_map places_of ds) }
    ensures phyla { (ds : List Decl) → SomeOf (drop 3 (names_of ds).phylum_places) (flat_map places_of ds) }
    ensures nonterminals { (ds : List Decl) → SomeOf (map (λ (n : Nonterminal). n.place) (names_of ds).nonterminals)
        (flat_map places_of ds) }
{}
