//! Laws of the machine, each as the contract of a function without code. Tokens derive a list of values here, as what
//! stands on a stack for a symbol.
ghost use Rattle.std.specs.Prelude.{◌≡◌, ◌⊎◌, ℕ, List, [], ◌∷◌, ◌++◌, length};
ghost use Rattle.sg_kinds.specs.Values.{Value};
ghost use Rattle.sg_grammar.specs.Grammar.{Grammar};
ghost use Rattle.sg_grammar.specs.Derives.{Algebra, Derives, Token};
ghost use Rattle.sg_lalr.specs.Tables.{View, IsTables, Decided};
ghost use Rattle.sg_machine.specs.Machine.{begun, ended, Accepts, StopsBefore};
ghost use Rattle.sg_machine.specs.Sentences.{AreTokens, FailsAt, IsEntry, IsSentenceOf};

/// Where a grammar has tables, all derivations of the same tokens from an entry's nonterminal have one result, and one
/// number of nodes.
pub fn one_derivation()
    ensures result { (v : View) → IsTables v → Decided v → (k N : ℕ) → IsEntry v.grammar k N →
        (alg : Algebra (List Value)) (ts : List Token) (b c : List Value) (i j : ℕ) →
        Derives v.grammar alg (N ∷ []) ts (b ∷ []) i → Derives v.grammar alg (N ∷ []) ts (c ∷ []) j → b ≡ c }
    ensures nodes { (v : View) → IsTables v → Decided v → (k N : ℕ) → IsEntry v.grammar k N →
        (alg : Algebra (List Value)) (ts : List Token) (b c : List Value) (i j : ℕ) →
        Derives v.grammar alg (N ∷ []) ts (b ∷ []) i → Derives v.grammar alg (N ∷ []) ts (c ∷ []) j → i ≡ j }
{}

/// From an entry the machine accepts exactly the sentences of its nonterminal, each with its result and in as many
/// steps as its derivation has nodes.
pub fn accepts_sentences()
    ensures accepts { (v : View) → IsTables v → (m : Decided v) (k N : ℕ) → IsEntry v.grammar k N →
        (alg : Algebra (List Value)) (a : List Value) (ts : List Token) (b : List Value) (n : ℕ) →
        Derives v.grammar alg (N ∷ []) ts (b ∷ []) n → Accepts alg m n (begun m k a) ts (ended m k N a b) }
    ensures only { (v : View) → IsTables v → (m : Decided v) (k N : ℕ) → IsEntry v.grammar k N →
        (alg : Algebra (List Value)) (a : List Value) (ts : List Token) → AreTokens v.grammar ts →
        (n : ℕ) (z : List (ℕ × List Value)) → Accepts alg m n (begun m k a) ts z →
        (b : List Value) × Derives v.grammar alg (N ∷ []) ts (b ∷ []) n × (z ≡ ended m k N a b) }
{}

/// Where the machine stops, what was read begins a sentence, and no sentence goes on with the next token, or ends
/// there if there is none.
pub fn stops_at_the_first_failure()
    ensures { (v : View) → IsTables v → (m : Decided v) (k N : ℕ) → IsEntry v.grammar k N →
        (alg : Algebra (List Value)) (a : List Value) (ts : List Token) → AreTokens v.grammar ts →
        (rest : List Token) → StopsBefore alg m (begun m k a) ts rest →
        (read : List Token) × (ts ≡ read ++ rest) × FailsAt v.grammar N ts (length read) }
{}

/// Tokens are a sentence, or they fail at one place, and not both.
pub fn one_answer()
    ensures apart { (g : Grammar) (N : ℕ) (ts : List Token) (k : ℕ) → FailsAt g N ts k → IsSentenceOf g N ts → ⊥ }
    ensures place { (g : Grammar) (N : ℕ) (ts : List Token) (k j : ℕ) → FailsAt g N ts k → FailsAt g N ts j → k ≡ j }
{}

/// The machine always comes to an end: from an entry it accepts the tokens, or stops before some of them or at their
/// end.
pub fn always_ends()
    ensures { (v : View) → IsTables v → (m : Decided v) (k N : ℕ) → IsEntry v.grammar k N →
        (alg : Algebra (List Value)) (a : List Value) (ts : List Token) → AreTokens v.grammar ts →
        ((n : ℕ) × (z : List (ℕ × List Value)) × Accepts alg m n (begun m k a) ts z)
        ⊎ ((rest : List Token) × StopsBefore alg m (begun m k a) ts rest) }
{}

/// Where a grammar has tables, all tokens have an answer: an entry's nonterminal derives them with some result, or
/// they fail at some place.
pub fn each_input_has_an_answer()
    ensures { (v : View) → IsTables v → Decided v → (k N : ℕ) → IsEntry v.grammar k N →
        (alg : Algebra (List Value)) (ts : List Token) → AreTokens v.grammar ts →
        ((b : List Value) × (n : ℕ) × Derives v.grammar alg (N ∷ []) ts (b ∷ []) n)
        ⊎ ((j : ℕ) × FailsAt v.grammar N ts j) }
{}
