//! A text from an entry.
ghost use Rattle.std.specs.Prelude.{◌≡◌, ◌<◌, MatchOption, IfOk, IfErr, IfSome, length, nat_eq, position, ⊤};
ghost use Rattle.sg_kinds.specs.Fits.{Fits};
ghost use Rattle.sg_kinds.specs.Plain.{plain};
ghost use Rattle.sg_kinds.specs.Sound.{IsSound};
ghost use Rattle.sg_kinds.specs.declared.spec.Entry.{Entry as IsEntry};
ghost use Rattle.sg_patterns.specs.LexemesOf.{AreLexemesOf};
ghost use Rattle.sg_patterns.specs.Scan.{Scanned};
ghost use Rattle.sg_grammar.specs.Numbered.{grammar_of};
ghost use Rattle.sg_input.specs.Entered.{entry_at, phylum_at, bad_byte, place_of, AreTokensOf, Entered, IsEntered};
ghost use Rattle.sg_input.specs.Parsed.{entered_of, fault_in, StopsThere};

use crate::parsing::{InputFault, parse};
use sg_eval::Evaluator;
use sg_kinds::ids::PhylumId;
use sg_kinds::marks::FaultKind;
use sg_kinds::spec::{Entry, Spec};
use sg_kinds::value::Value;
use sg_lalr::Tables;
use sg_patterns::{InToken, Lexemes, ScanFault, scan};
use std::alloc::Global;

/// Why a text has no value. Each place is one of its bytes, or its length where it ends too early.
#[derive(Clone, Copy, PartialEq, Eq)]
pub enum EntryFault {
    /// A byte that is not 10 and not 32 to 126.
    Byte(usize),
    /// No literal and no lexeme matches here.
    Lexical(usize),
    /// The token here cannot stand here.
    Parse(usize),
    /// The value is this fault.
    Outcome(FaultKind),
    /// Memory was wanting, or the tokens are not parsed in 2^40 steps.
    NoMemory,
}

/// The place of a phylum's entry among entries.
fn place_in(entries: &[Entry], p: PhylumId) -> Option<usize>
    ensures { result ≡ position (λ (e : IsEntry). nat_eq e.phylum p) entries.now }
{
    entries
        .iter()
        .position(|entry| entry.phylum.number == p.number)
}

/// The place of a phylum's entry among the entries of a specification, which has one for a phylum at most; None exactly
/// where it has none.
pub fn entry_of(spec: &Spec, p: PhylumId) -> Option<u32>
    requires { IsSound spec.now }
    ensures { result ≡ entry_at spec.now p }
{
    match place_in(spec.entries.as_slice(), p) {
        Some(place) => Some(place as u32),
        None => None,
    }
}

/// The place of the first byte that is not allowed.
fn bad_byte(text: &[u8]) -> Option<usize>
    ensures { result ≡ bad_byte text.now }
{
    text.iter()
        .position(|b| !(*b == 10 || 32 <= *b && *b <= 126))
}

/// Where a token begins in a text, or the length of the text.
fn place_of(text: &[u8], tokens: &[InToken], k: usize) -> usize
    ensures { result ≡ place_of text.now tokens.now k }
{
    match tokens.get(k) {
        Some(token) => token.from,
        None => text.len(),
    }
}

/// Why a text has no value, where its tokens have none.
fn fault_in(text: &[u8], tokens: &[InToken], fault: InputFault) -> EntryFault
    ensures { result ≡ fault_in text.now tokens.now fault }
{
    match fault {
        InputFault::At(k) => EntryFault::Parse(place_of(text, tokens, k)),
        InputFault::Outcome(kind) => EntryFault::Outcome(kind),
        InputFault::NoMemory => EntryFault::NoMemory,
    }
}

/// What becomes of a text with these tokens.
fn with_tokens(
    alloc: Global,
    t: &Tables,
    ev: &Evaluator,
    entry: u32,
    text: &[u8],
    tokens: &[InToken],
) -> Result<Value, EntryFault>
    requires grammar { t.now.grammar ≡ grammar_of ev.now }
    requires sound { IsSound ev.now }
    requires entry { entry < length ev.now.entries }
    requires tokens { AreTokensOf ev.now text.now tokens.now }
    ensures { MatchOption (entered_of result) ⊤ (IsEntered ev.now entry text.now) }
{
    match parse(alloc, t, ev, entry, text, tokens) {
        Ok(value) => Ok(value),
        Err(fault) => Err(fault_in(text, tokens, fault)),
    }
}

/// The tokens of a text.
fn tokens_of(alloc: Global, lexemes: &Lexemes, text: &[u8]) -> Result<Vec<InToken>, EntryFault>
    ensures tokens { IfOk result (λ ts. Scanned lexemes.now text.now (length text.now) ts.items) }
    ensures stops { IfErr result (StopsThere lexemes.now text.now) }
{
    match scan(alloc, lexemes, text) {
        Ok(tokens) => Ok(tokens),
        Err(ScanFault::BadAt(place)) => Err(EntryFault::Lexical(place)),
        Err(ScanFault::NoMemory) => Err(EntryFault::NoMemory),
    }
}

/// As `enter`.
fn entered(
    alloc: Global,
    lexemes: &Lexemes,
    t: &Tables,
    ev: &Evaluator,
    entry: u32,
    text: &[u8],
) -> Result<Value, EntryFault>
    requires grammar { t.now.grammar ≡ grammar_of ev.now }
    requires sound { IsSound ev.now }
    requires entry { entry < length ev.now.entries }
    requires lexemes { AreLexemesOf ev.now lexemes.now }
    ensures { MatchOption (entered_of result) ⊤ (IsEntered ev.now entry text.now) }
{
    match bad_byte(text) {
        Some(place) => Err(EntryFault::Byte(place)),
        None => match tokens_of(alloc, lexemes, text) {
            Ok(tokens) => with_tokens(alloc, t, ev, entry, text, tokens.as_slice()),
            Err(fault) => Err(fault),
        },
    }
}

/// What becomes of a text from an entry, a place among the entries of the specification: the value that its nonterminal
/// derives, or the first thing that is wrong with the text. All bytes are looked at first, then all tokens are found,
/// and then they are parsed.
pub fn enter(
    alloc: Global,
    lexemes: &Lexemes,
    t: &Tables,
    ev: &Evaluator,
    entry: u32,
    text: &[u8],
) -> Result<Value, EntryFault>
    requires grammar { t.now.grammar ≡ grammar_of ev.now }
    requires sound { IsSound ev.now }
    requires entry { entry < length ev.now.entries }
    requires lexemes { AreLexemesOf ev.now lexemes.now }
    ensures right { MatchOption (entered_of result) ⊤ (IsEntered ev.now entry text.now) }
    ensures only { (a : Entered) → IsEntered ev.now entry text.now a → IfSome (entered_of result) (λ b. b ≡ a) }
    ensures fits { IfOk result (λ v. Fits ev.now (plain ev.now v (phylum_at ev.now entry)) (phylum_at ev.now entry)) }
{
    t.sound();
    t.decided();
    entered(alloc, lexemes, t, ev, entry, text)
}
