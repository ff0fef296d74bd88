//! Laws of the walk along uses, each as the contract of a function without code.
ghost use Rattle.std.specs.Prelude.{◌≡◌, ℕ, List, flat_map, Some};
ghost use Rattle.sg_text.specs.declared.tokens.Token.{Token};
ghost use Rattle.sg_kinds.specs.declared.fault.Position.{Position};
ghost use Rattle.sg_ast.specs.Declarations.{Decl};
ghost use Rattle.sg_ast.specs.Rising.{places_of, SomeOf};
ghost use Rattle.sg_ast.specs.Spells.{EachSpells, declarations};
ghost use Rattle.sg_names.specs.Arity.{arity, arity_at};
ghost use Rattle.sg_names.specs.TwiceBound.{twice_bound, twice_at};
ghost use Rattle.sg_names.specs.UnknownName.{unknown_name, unknown_at};
ghost use Rattle.sg_names.specs.Uses.{uses};
ghost use Rattle.sg_names.specs.declared.table.Table.{Table};
ghost use Rattle.sg_uses.specs.UsePlaces.{walked_places, fault_place, IsFirst};

/// The walk meets uses in the order of the text: their places are some of those that the declarations keep.
pub fn uses_follow_the_text()
    ensures { (t : Table) (ds : List Decl) → SomeOf (walked_places (uses t ds)) (flat_map places_of ds) }
{}

/// So the first fault of each of the three rows stands before all others of its row in the text.
#[tactic(auto, using(crate::proofs::FirstInText::unknown_first, crate::proofs::FirstInText::twice_first, crate::proofs::FirstInText::arity_first))]
pub fn first_is_first_in_the_text()
    ensures unknown { (bytes : List ℕ) (ts : List Token) (ds : List Decl) → EachSpells (declarations bytes ts) ds
        → (t : Table) (p : Position) → fault_place (unknown_name t ds) ≡ Some p → IsFirst (unknown_at t) (uses t ds) p }
    ensures twice { (bytes : List ℕ) (ts : List Token) (ds : List Decl) → EachSpells (declarations bytes ts) ds
        → (t : Table) (p : Position) → fault_place (twice_bound t ds) ≡ Some p → IsFirst twice_at (uses t ds) p }
    ensures arity { (bytes : List ℕ) (ts : List Token) (ds : List Decl) → EachSpells (declarations bytes ts) ds
        → (t : Table) (p : Position) → fault_place (arity t ds) ≡ Some p → IsFirst (arity_at t) (uses t ds) p }
{}
