//! Laws of patterns and of scans, each as the contract of a function without code.
ghost use Rattle.std.specs.Prelude.{◌≡◌, ◌↔◌, ℕ, ◌-◌, ◌≤◌, ◌⊎◌, List, length, take, drop};
ghost use Rattle.sg_kinds.specs.Fits.{Fits};
ghost use Rattle.sg_kinds.specs.Lexemes as plain;
ghost use Rattle.sg_kinds.specs.Matches.{Matches, MatchesFrom};
ghost use Rattle.sg_kinds.specs.Terms.{Term};
ghost use Rattle.sg_kinds.specs.Values.{Bytes};
ghost use Rattle.sg_kinds.specs.declared.spec.Spec.{Spec};
ghost use Rattle.sg_patterns.specs.LexemesOf.{AreLexemesOf};
ghost use Rattle.sg_patterns.specs.Scan.{Scanned, StopsAt};
ghost use Rattle.sg_patterns.specs.declared.lexemes.Lexemes.{Lexemes};
ghost use Rattle.sg_patterns.specs.declared.scanning.InToken.{InToken};

/// Whether a pattern matches a text, or a part of it, is decided.
pub fn matching_is_decided()
    ensures whole { (p : plain.Lexeme) (text : Bytes) → Matches p text ⊎ (Matches p text → ⊥) }
    ensures part { (p : plain.Lexeme) (text : Bytes) (i j : ℕ) → MatchesFrom p text i j ⊎ (MatchesFrom p text i j → ⊥) }
{}

/// A pattern matches a part of a text where it matches that part alone.
pub fn matches_in_place()
    ensures { (p : plain.Lexeme) (text : Bytes) (i j : ℕ) → i ≤ j → j ≤ length text
        → MatchesFrom p text i j ↔ Matches p (take (j - i) (drop i text)) }
{}

/// Whether a term fits a phylum is decided.
pub fn fitting_is_decided()
    ensures { (spec : Spec) (t : Term) (p : ℕ) → Fits spec t p ⊎ (Fits spec t p → ⊥) }
{}

/// Each text has its tokens, or a first place where nothing matches.
pub fn each_text_is_scanned()
    ensures { (l : Lexemes) (text : Bytes) → ((ts : List InToken) × Scanned l text (length text) ts)
        ⊎ ((k : ℕ) × StopsAt l text k) }
{}

/// A text has its tokens once, or one first place where nothing matches, and not both; so it is with all lexemes of one
/// specification.
pub fn scans_are_unique()
    ensures tokens { (l : Lexemes) (text : Bytes) (ts us : List InToken) → Scanned l text (length text) ts
        → Scanned l text (length text) us → ts ≡ us }
    ensures either { (l : Lexemes) (text : Bytes) (ts : List InToken) (k : ℕ) → Scanned l text (length text) ts
        → StopsAt l text k → ⊥ }
    ensures place { (l : Lexemes) (text : Bytes) (k n : ℕ) → StopsAt l text k → StopsAt l text n → k ≡ n }
    ensures same { (spec : Spec) (l m : Lexemes) → AreLexemesOf spec l → AreLexemesOf spec m
        → (text : Bytes) (at : ℕ) (ts : List InToken) → Scanned l text at ts → Scanned m text at ts }
    ensures same_stop { (spec : Spec) (l m : Lexemes) → AreLexemesOf spec l → AreLexemesOf spec m
        → (text : Bytes) (k : ℕ) → StopsAt l text k → StopsAt m text k }
{}
