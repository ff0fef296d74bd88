//! The patterns of lexeme phyla.
ghost use Rattle.std.specs.Prelude.{◌≡◌, ◌≢◌, List, [], IfOk, IfErr, OnOk, MatchOption, All};
ghost use Rattle.sg_kinds.specs.Lexemes as plain;
ghost use Rattle.sg_kinds.specs.Matches.{Matches};
ghost use Rattle.sg_patterns.specs.Spelling.{IsPattern, deepest};
ghost use Rattle.sg_ast.specs.Declarations.{LexemeOf};
ghost use Rattle.sg_ast.specs.View.{tree_of, trees_of};
ghost use Rattle.sg_load.specs.PatternsSoFar as spec;
ghost use Rattle.sg_load.specs.PatternsSoFar.{IsPatternAdded};
ghost use Rattle.sg_load.specs.Patterns.{HasNoForm, MatchesEmpty, IsFormFault, IsEmptyFault, IsLexemeFault, IsOther, AreLexemes};
ghost use Rattle.sg_load.specs.Rows.{HasNone};

use sg_ast::decl::Decl;
use sg_ast::name::{Name, Quoted};
use sg_kinds::fault::SpecFault;
use sg_kinds::lexeme::Lexeme;
use sg_kinds::row::{Row, item};
use sg_patterns::{PatternFault, matches_empty, read};
use std::alloc::Global;

/// The pattern of a lexeme phylum.
fn pattern(alloc: Global, name: &Name, text: &Quoted) -> Result<Lexeme, SpecFault>
    ensures pattern { IfOk result (λ p. IsPattern deepest p text.now.text) }
    ensures only { IfOk result (λ p. (q : plain.Lexeme) → IsPattern deepest q text.now.text → q ≡ p) }
    ensures form { IfErr result (λ f. f ≢ SpecFault.NoMemory → HasNoForm (LexemeOf name.now text.now)) }
    ensures fault { IfErr result (λ f. f ≢ SpecFault.NoMemory → IsFormFault f (LexemeOf name.now text.now)) }
{
    match read(alloc, text.text.as_slice()) {
        Ok(pattern) => Ok(pattern),
        Err(PatternFault::Form(_)) => {
            let name = name.text.copy(alloc)?;
            Err(SpecFault::PatternForm(text.place, name))
        }
        Err(PatternFault::NoMemory) => Err(SpecFault::NoMemory),
    }
}

/// The name and the text of a lexeme phylum.
fn lexeme_phylum(decl: &Decl) -> Option<(&Name, &Quoted)>
    ensures { MatchOption result (IsOther (tree_of decl.now)) (λ x. tree_of decl.now ≡ LexemeOf x.0.now x.1.now) }
{
    match decl {
        Decl::Lexeme(name, text) => Some((name, text)),
        _ => None,
    }
}

/// Puts the pattern of a lexeme phylum last, and tells whether it matches the empty text.
fn add(
    alloc: Global,
    patterns: &mut Vec<Lexeme>,
    name: &Name,
    text: &Quoted,
) -> Result<bool, SpecFault>
    ensures added { IfOk result (λ empty. IsPatternAdded patterns.old.items patterns.new.items text.now empty) }
    ensures form { IfErr result (λ f. f ≢ SpecFault.NoMemory → HasNoForm (LexemeOf name.now text.now)) }
    ensures fault { IfErr result (λ f. f ≢ SpecFault.NoMemory → IsFormFault f (LexemeOf name.now text.now)) }
{
    let pattern = pattern(alloc, name, text)?;
    let is_empty = matches_empty(alloc, &pattern)?;
    patterns.push(pattern)?;
    Ok(is_empty)
}

/// The place of the first pattern that matches the empty text, after the one at a place.
fn first_empty(before: Option<usize>, is_empty: bool, place: usize) -> Option<usize>
    ensures { result ≡ spec.first_empty before is_empty place }
{
    match before {
        Some(before) => Some(before),
        None if is_empty => Some(place),
        None => None,
    }
}

/// The fault of a lexeme phylum whose pattern matches the empty text.
fn empty_fault(alloc: Global, decl: &Decl) -> SpecFault
    ensures { result ≢ SpecFault.NoMemory → IsEmptyFault result (tree_of decl.now) }
{
    let Decl::Lexeme(name, text) = decl else {
        return SpecFault::NoMemory;
    };
    match name.text.copy(alloc) {
        Ok(name) => SpecFault::EmptyLexeme(text.place, name),
        Err(_) => SpecFault::NoMemory,
    }
}

/// The patterns of the lexeme phyla, in the order of the text; else the fault of the first text that is no pattern,
/// else that of the first pattern that matches the empty text.
pub(crate) fn lexemes(alloc: Global, decls: &[Decl]) -> Result<Row<Lexeme>, SpecFault>
    ensures lexemes { IfOk result (AreLexemes (trees_of decls.now)) }
    ensures only { IfOk result (λ ps. (qs : List plain.Lexeme) → AreLexemes (trees_of decls.now) qs → qs ≡ ps) }
    ensures some { IfOk result (λ ps. All (λ p. Matches p [] → ⊥) ps) }
    ensures none { OnOk result (HasNone HasNoForm (trees_of decls.now) × HasNone MatchesEmpty (trees_of decls.now)) }
    ensures fault { IfErr result (λ f. f ≢ SpecFault.NoMemory → IsLexemeFault (trees_of decls.now) f) }
{
    let mut patterns = Vec::new(alloc);
    let mut empty = None;
    for (place, decl) in decls.iter().enumerate() {
        if let Some((name, text)) = lexeme_phylum(decl) {
            let is_empty = add(alloc, &mut patterns, name, text)?;
            empty = first_empty(empty, is_empty, place);
        }
    }
    match empty {
        None => Ok(Row::new(patterns)),
        Some(place) => Err(empty_fault(alloc, item(decls, place))),
    }
}
