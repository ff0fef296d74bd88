//! Laws of the trees of a text and of the record of declarations, each as the contract of a function without code.
ghost use Rattle.sg_ast.specs.Declarations.{Decl};
ghost use Rattle.sg_ast.specs.Rising.{places_of, RiseFrom, SomeOf};
ghost use Rattle.sg_counts.specs.Duplicates.{duplicate};
ghost use Rattle.sg_equations.specs.Complete.{incomplete};
ghost use Rattle.sg_kinds.specs.Far.{HasFar};
ghost use Rattle.sg_kinds.specs.Lexemes.{Lexeme};
ghost use Rattle.sg_kinds.specs.Sound.{AreCounted, HasNames, HasShapes};
ghost use Rattle.sg_kinds.specs.Values.{Bytes};
ghost use Rattle.sg_kinds.specs.declared.fault.Position.{Position};
ghost use Rattle.sg_kinds.specs.declared.fault.SpecFault.TheVariants.{EmptyLexeme, PatternForm};
ghost use Rattle.sg_kinds.specs.declared.spec.Rule.{Rule};
ghost use Rattle.sg_load.specs.PatternPlaces.{pattern_places, IsFirstPattern};
ghost use Rattle.sg_load.specs.Patterns.{AreLexemes, HasNoForm, IsEmptyLexeme, IsPatternForm, MatchesEmpty};
ghost use Rattle.sg_load.specs.SpecOf.{spec_with};
ghost use Rattle.sg_kinds.specs.declared.spec.Operator.{Operator};
ghost use Rattle.sg_kinds.specs.declared.spec.Spec.{Spec};
ghost use Rattle.sg_load.specs.FreeNames.{IsFreeName, operator_names};
ghost use Rattle.sg_load.specs.OwnExprs.{HasOwnExprs};
ghost use Rattle.sg_load.specs.Trees.{trees_in};
ghost use Rattle.sg_load.specs.Verdict.{Accepted, IsVerdict};
ghost use Rattle.sg_names.specs.Names as written_names;
ghost use Rattle.sg_remote.specs.Lists.{lists};
ghost use Rattle.sg_remote.specs.Longer.{names_of};
ghost use Rattle.sg_remote.specs.NoEnclosing.{IsNoEnclosing};
ghost use Rattle.sg_resolve.specs.Resolved.{resolve_fault};
ghost use Rattle.sg_typing.specs.Checked.{first_fault};
ghost use Rattle.sg_ast.specs.Written.{HaveWritten};
ghost use Rattle.sg_record.specs.Premises.{AreApart};
ghost use Rattle.sg_record.specs.Record.{record_of};
ghost use Rattle.std.specs.Prelude.{◌≡◌, ◌<◌, ◌≤◌, ◌^◌, All, List, None, Ok, flat_map, length};

/// The trees that are read of a text have values as their literals, and lists that may not be empty are not.
#[tactic(auto, using(crate::proofs::WrittenLaws::read_written))]
pub fn read_trees_are_written()
    ensures { (bytes : Bytes) (ds : List Decl) → trees_in bytes ≡ Ok ds → HaveWritten ds }
{}

/// The operators that a text declares have names of at most 64 bytes that are not reserved.
pub fn read_operators_have_names()
    ensures { (bytes : Bytes) (ds : List Decl) → trees_in bytes ≡ Ok ds → All IsFreeName (flat_map operator_names ds) }
{}

/// So have those of an accepted specification, in which the names of each kind are distinct.
pub fn accepted_names_are_right()
    ensures operators { (bytes : Bytes) (spec : Spec) → IsVerdict bytes (Accepted spec)
        → All (λ (o : Operator). IsFreeName o.name) spec.ops }
    ensures distinct { (bytes : Bytes) (spec : Spec) → IsVerdict bytes (Accepted spec) → HasNames spec }
{}

/// No equation of it has the expression of a function, a transformation or an input production.
pub fn equations_have_own_expressions()
    ensures { (bytes : Bytes) (spec : Spec) → IsVerdict bytes (Accepted spec) → HasOwnExprs spec }
{}

/// The counts of the record are in their limits where names and types have no fault, the rules are numbers of 32 bits,
/// and there are no more lists of references to enclosing nodes than a text has bytes.
pub fn records_are_counted()
    ensures { (ds : List Decl) (rules : List Rule) (lexemes : List Lexeme) → resolve_fault ds ≡ None
        → first_fault (names_of ds) ds ≡ None → length rules < 2 ^ 32
        → length (lists (written_names.names_of ds) ds) ≤ 1048576
        → AreCounted (record_of (names_of ds) ds rules lexemes) }
{}

/// Where no definition is a second one, no nonterminal has the name of a phylum.
pub fn records_are_apart()
    ensures { (ds : List Decl) → duplicate ds ≡ None → AreApart (names_of ds) }
{}

/// Where names and types have no fault, the names of each kind are distinct, and nonterminals are told by their names
/// and by their numbers.
pub fn records_have_names()
    ensures { (ds : List Decl) (rules : List Rule) (lexemes : List Lexeme) → HaveWritten ds → resolve_fault ds ≡ None
        → first_fault (names_of ds) ds ≡ None → HasNames (record_of (names_of ds) ds rules lexemes) }
{}

/// Where names, types, equations and references to enclosing nodes have no fault, the shapes of the record are sound,
/// and its far attributes are named by their lists, list attributes of one type, and are handed down to each argument.
pub fn far_attributes_are_sound()
    ensures shapes { (ds : List Decl) (lexemes : List Lexeme) → HaveWritten ds → resolve_fault ds ≡ None
        → first_fault (names_of ds) ds ≡ None → incomplete (names_of ds) ds ≡ None
        → IsNoEnclosing (names_of ds) ds None → AreLexemes ds lexemes → HasShapes (spec_with ds lexemes) }
    ensures far { (ds : List Decl) (lexemes : List Lexeme) → HaveWritten ds → resolve_fault ds ≡ None
        → first_fault (names_of ds) ds ≡ None → incomplete (names_of ds) ds ≡ None
        → IsNoEnclosing (names_of ds) ds None → AreLexemes ds lexemes → HasFar (spec_with ds lexemes) }
{}

/// The patterns of lexeme phyla are met in the order of the text. So of declarations whose places rise, as those of a
/// text do, the first text that is no pattern stands before all others, and so does the first that matches the empty text.
pub fn patterns_follow_the_text()
    ensures patterns { (ds : List Decl) → SomeOf (pattern_places ds) (flat_map places_of ds) }
    ensures pattern_form { (ds : List Decl) → RiseFrom 0 (flat_map places_of ds) → (p : Position) (n : Bytes)
        → IsPatternForm ds (PatternForm p n) → IsFirstPattern HasNoForm ds p }
    ensures empty_lexeme { (ds : List Decl) → RiseFrom 0 (flat_map places_of ds) → (p : Position) (n : Bytes)
        → IsEmptyLexeme ds (EmptyLexeme p n) → IsFirstPattern MatchesEmpty ds p }
{}
