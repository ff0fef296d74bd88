//! Laws of spelling and reading, each as the contract of a function without code.
ghost use Rattle.std.specs.Prelude.{◌≡◌, ℕ, Bool, if◌then◌else◌, List, [], ◌++◌, map, flat_map, Option, Some, None};
ghost use Rattle.std.specs.List.{AllByRecursion, filter};
ghost use Rattle.sg_text.specs.declared.tokens.Token.{Token};
ghost use Rattle.sg_kinds.specs.declared.fault.Position.{Position};
ghost use Rattle.sg_ast.specs.Declarations.{Decl};
ghost use Rattle.sg_ast.specs.FirstFault.{or_else, first, first_of, repeats, first_repeat};
ghost use Rattle.sg_ast.specs.Reading.{decl_of};
ghost use Rattle.sg_ast.specs.Spelling.{Mark};
ghost use Rattle.sg_ast.specs.Rising.{places_of, RiseFrom, SomeOf};
ghost use Rattle.sg_ast.specs.Spells.{Spells, EachSpells, marks_from, declarations};

/// What spells a tree is read as this tree, and what is read spells what was read. So where nothing is read, no tree is
/// spelled.
#[tactic(auto, using(crate::proofs::Exact::spelling_reads, crate::proofs::Exact::reading_spells))]
pub fn reading_is_exact()
    ensures reads { (ms : List Mark) (d : Decl) → Spells ms d → decl_of ms ≡ Some d }
    ensures spells { (ms : List Mark) (d : Decl) → decl_of ms ≡ Some d → Spells ms d }
{}

/// No two trees are spelled alike.
#[tactic(auto, using(crate::proofs::Exact::one_tree))]
pub fn no_two_trees_spell_alike()
    ensures { (ms : List Mark) (d e : Decl) → Spells ms d → Spells ms e → d ≡ e }
{}

/// First faults of lists that are joined, mapped or filtered, and of lists of rules.
pub fn first_faults<X, A>()
    ensures before { (a b c : Option A) → or_else (or_else a b) c ≡ or_else a (or_else b c) }
    ensures append { (f : X → Option A) (xs ys : List X) → first f (xs ++ ys) ≡ or_else (first f xs) (first f ys) }
    ensures joined { (f : X → Option A) (g : X → List X) (xs : List X)
        → first f (flat_map g xs) ≡ first (λ x. first f (g x)) xs }
    ensures mapped { (f : X → Option A) (g : X → X) (xs : List X) → first f (map g xs) ≡ first (λ x. f (g x)) xs }
    ensures filtered { (f : X → Option A) (p : X → Bool) (xs : List X)
        → first f (filter p xs) ≡ first (λ x. if p x then f x else None) xs }
    ensures absent { (f : X → Option A) (xs : List X) → first f xs ≡ None → AllByRecursion (λ x. f x ≡ None) xs }
    ensures all_absent { (f : X → Option A) (xs : List X) → AllByRecursion (λ x. f x ≡ None) xs → first f xs ≡ None }
    ensures rules { (rules more : List (Option A)) → first_of (rules ++ more)
        ≡ or_else (first_of rules) (first_of more) }
{}

/// Where no key repeats, there are no repeats.
pub fn no_repeats<X>()
    ensures { (same : X → X → Bool) (xs : List X) → first_repeat same xs ≡ None → repeats same xs ≡ [] }
{}

/// The places that trees keep rise with the tokens of their text, in one declaration and over all of them; so do some
/// of these places, in their order.
#[tactic(auto, using(crate::proofs::RisingLaws::one_rises, crate::proofs::RisingLaws::all_rise, crate::proofs::RisingLaws::some_rise))]
pub fn places_rise()
    ensures one { (bytes : List ℕ) (n : ℕ) (ts : List Token) (d : Decl) → Spells (marks_from bytes n ts) d
        → RiseFrom n (places_of d) }
    ensures all { (bytes : List ℕ) (ts : List Token) (ds : List Decl) → EachSpells (declarations bytes ts) ds
        → RiseFrom 0 (flat_map places_of ds) }
    ensures some { (ps qs : List Position) (n : ℕ) → SomeOf ps qs → RiseFrom n qs → RiseFrom n ps }
{}
