//! Laws of the spread grammar, each as the contract of a function without code.
ghost use Rattle.std.specs.Prelude.{ℕ, ◌≤◌, ◌↔◌, List, [], ◌∷◌, Some};
ghost use Rattle.sg_kinds.specs.InputPieces.{InputPiece};
ghost use Rattle.sg_kinds.specs.Values.{Value};
ghost use Rattle.sg_kinds.specs.declared.spec.Production.{Production};
ghost use Rattle.sg_kinds.specs.declared.spec.Spec.{Spec};
ghost use Rattle.sg_kinds.specs.declared.spec.Symbol.TheVariants.{Nonterminal};
ghost use Rattle.sg_prec.specs.LevelDerives.{level_derives};
ghost use Rattle.sg_prec.specs.Levels.{height, level_of};
ghost use Rattle.sg_prec.specs.WellGrouped.{Derives, derives};

/// By the spread grammar the first level of a nonterminal derives what the nonterminal derives by well grouped
/// derivations, with the same results; and a level derives what has such a derivation whose top is of that level or
/// a later one.
pub fn levels_derive_what_is_written()
    ensures same { (spec : Spec) (N : ℕ) (ts : List InputPiece) (v : Value) →
        level_derives spec N 0 ts v ↔ derives spec N ts v }
    ensures levels { (spec : Spec) (N i : ℕ) (ts : List InputPiece) (v : Value) →
        level_derives spec N i ts v ↔ ((r : Production) × (n : ℕ)
        × Derives spec (Nonterminal N ∷ []) ts (v ∷ []) (Some r ∷ []) n
        × (i ≤ level_of spec.levels spec.productions r)) }
{}

/// All levels of a nonterminal derive something or none does.
pub fn all_levels_derive_or_none()
    ensures { (spec : Spec) (N i : ℕ) → i ≤ height spec.levels spec.productions N →
        ((ts : List InputPiece) × (v : Value) × level_derives spec N i ts v)
        ↔ ((ts : List InputPiece) × (v : Value) × level_derives spec N 0 ts v) }
{}
