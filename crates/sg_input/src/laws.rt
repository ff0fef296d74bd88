//! Laws of what texts become, each as the contract of a function without code.
ghost use Rattle.std.specs.Prelude.{◌≡◌, ℕ, ◌<◌, ◌↔◌, List, length};
ghost use Rattle.sg_kinds.specs.InputPieces.{InputPiece};
ghost use Rattle.sg_prec.specs.WellGrouped.{IsSentence};
ghost use Rattle.sg_kinds.specs.Sound.{IsSound};
ghost use Rattle.sg_kinds.specs.Values.{Bytes};
ghost use Rattle.sg_kinds.specs.declared.spec.Spec.{Spec};
ghost use Rattle.sg_patterns.specs.LexemesOf.{AreLexemesOf};
ghost use Rattle.sg_patterns.specs.declared.lexemes.Lexemes.{Lexemes};
ghost use Rattle.sg_grammar.specs.Derives.{IsFirstUnproductive};
ghost use Rattle.sg_grammar.specs.Numbered.{grammar_of};
ghost use Rattle.sg_lalr.specs.Tables.{View, IsTables, Decided};
ghost use Rattle.sg_input.specs.Failing.{FailsAt};
ghost use Rattle.sg_input.specs.Unproductive.{IsFirstWithoutSentence};
ghost use Rattle.sg_input.specs.Entered.{Entered, IsEntered, ReadsEachText};

/// Pieces that fail to be a sentence of a nonterminal fail at one place, and sentences fail nowhere.
pub fn one_failure()
    ensures apart { (spec : Spec) (N : ℕ) (ps : List InputPiece) (k : ℕ) →
        FailsAt spec N ps k → IsSentence spec N ps → ⊥ }
    ensures place { (spec : Spec) (N : ℕ) (ps : List InputPiece) (k j : ℕ) →
        FailsAt spec N ps k → FailsAt spec N ps j → k ≡ j }
{}

/// Over a sound specification with tables a text becomes one thing from an entry.
pub fn one_reading()
    ensures { (spec : Spec) → IsSound spec → (v : View) → v.grammar ≡ grammar_of spec → IsTables v → Decided v →
        (entry : ℕ) → entry < length spec.entries → (text : Bytes) (a b : Entered) →
        IsEntered spec entry text a → IsEntered spec entry text b → a ≡ b }
{}

/// Over a sound specification with tables each text becomes something from each entry: a value or a fault, or a place
/// of it is wrong.
pub fn each_text_is_read()
    ensures { (spec : Spec) → IsSound spec → (l : Lexemes) → AreLexemesOf spec l →
        (v : View) → v.grammar ≡ grammar_of spec → IsTables v → Decided v → ReadsEachText spec }
{}

/// The first symbol of the grammar of a sound specification that derives nothing is the first level of the first
/// nonterminal without a sentence.
pub fn unproductive_is_written()
    ensures { (spec : Spec) → IsSound spec → (X : ℕ) →
        IsFirstUnproductive (grammar_of spec) X ↔ IsFirstWithoutSentence spec X }
{}
