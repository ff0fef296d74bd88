//! Laws of samples, each as the contract of a function without code.
ghost use Rattle.std.specs.Prelude.{◌≡◌, ℕ, List, map};
ghost use Rattle.sg_grammar.specs.Grammar.{Grammar};
ghost use Rattle.sg_grammar.specs.Derives.{Token};
ghost use Rattle.sg_samples.specs.Expands.{AreTerminals, Expands};
ghost use Rattle.sg_samples.specs.Samples.{DerivesTokens};

/// Terminals that a string becomes are those of tokens that it derives.
#[tactic(auto, using(crate::proofs::Derived::terminals_derived))]
pub fn terminals_are_derived()
    ensures { (g : Grammar) (Xs Ys : List ℕ) → Expands g Xs Ys → AreTerminals g Ys
        → (ts : List Token) × (map (λ (t : Token). t.terminal) ts ≡ Ys) × DerivesTokens g Xs ts }
{}
