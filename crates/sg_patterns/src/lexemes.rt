//! The literals and the lexeme phyla of an input grammar, with their terminal numbers.
ghost use Rattle.std.specs.Prelude.{◌≡◌, ◌+◌, ◌<◌, ◌^◌, length, map, ◌++◌, ◌∷◌, List, [], nat_lt, nat_eq, ◌&&◌, IfOk, OnOk};
ghost use Rattle.std.specs.List.{starts_with};
ghost use Rattle.sg_kinds.specs.Values.{Bytes};
ghost use Rattle.sg_patterns.specs.LongestMatch.{Literal, IsAnswer};
ghost use Rattle.sg_patterns.specs.Lexemes.{is_blank, with_text, literals_in, literals_of, blank_of, IsTable};
ghost use Rattle.sg_patterns.specs.Programs.{ArePrograms};

mod making;

use crate::longest_match::len_of;
use crate::matcher::Matcher;
use crate::program::Program;
use indexmap::IndexSet;
use sg_kinds::lexeme::Lexeme;
use sg_kinds::marks::Shape;
use sg_kinds::memory::NoMemory;
use sg_kinds::row::{Row, item};
use sg_kinds::spec::{Phylum, Production, Symbol};
use sg_kinds::text::Text;
use std::alloc::Global;

/// What the tokens of a text may be. The terminals before the literals are the end and one marker for each entry;
/// then come the literals by their first occurrence in the productions, and the lexeme phyla in the order of their
/// declarations.
#[derive(Drop)]
pub struct Lexemes {
    /// the number of the first literal
    pub first: usize,
    pub literals: Row<Text>,
    pub patterns: Row<Lexeme>,
    /// the place among the patterns of that of WHITESPACE, whose matches are skipped
    pub blank: Option<u32>,
    /// for each byte the places of the literals that begin with it, in rising order
    table: Vec<Vec<usize>>,
    /// the patterns again, with their programs
    matcher: Matcher,
    ghost rows: { length table.items ≡ 256 },
    ghost in_table: { IsTable literals (map (λ v. v.items) table.items) },
    ghost ready: { matcher ≡ patterns },
    ghost few: { first + length literals + length patterns < 2 ^ 32 },
}

/// Literals that were found, also as a set.
#[derive(Drop)]
struct Literals {
    known: IndexSet<Vec<u8>>,
    texts: Vec<Text>,
}

impl Literals {
    /// Puts a literal behind the others, unless it is among them.
    fn add(&mut self, alloc: Global, text: &Text) -> Result<(), NoMemory>
        requires { map (λ v. v.items) self.old.known.keys ≡ self.old.texts.items }
        ensures known { OnOk result (map (λ v. v.items) self.new.known.keys ≡ self.new.texts.items) }
        ensures added { OnOk result (self.new.texts.items ≡ with_text self.old.texts.items text.now) }
    {
        let bytes = Vec::from_slice(alloc, text.as_slice())?;
        let copy = text.copy(alloc)?;
        if self.known.insert(bytes)? {
            self.texts.push(copy)?;
        }
        Ok(())
    }

    /// Puts the literals of symbols behind the others.
    fn add_all(&mut self, alloc: Global, symbols: &[Symbol]) -> Result<(), NoMemory>
        requires { map (λ v. v.items) self.old.known.keys ≡ self.old.texts.items }
        ensures known { OnOk result (map (λ v. v.items) self.new.known.keys ≡ self.new.texts.items) }
        ensures added { OnOk result (self.new.texts.items ≡ literals_in self.old.texts.items symbols.now) }
    {
        for symbol in symbols {
            if let Symbol::Quoted(text) = symbol {
                self.add(alloc, text)?;
            }
        }
        Ok(())
    }
}

/// The literals of productions by their first occurrence.
fn literals_of(alloc: Global, productions: &[Production]) -> Result<Vec<Text>, NoMemory>
    ensures { IfOk result (λ ts. ts.items ≡ literals_of productions.now) }
{
    let mut found = Literals {
        known: IndexSet::new(alloc),
        texts: Vec::new(alloc),
    };
    for production in productions {
        found.add_all(alloc, production.right.as_slice())?;
    }
    Ok(found.texts)
}

/// The place of the pattern of the first lexeme phylum of that name.
fn blank_of(phyla: &[Phylum]) -> Option<u32>
    ensures { result ≡ blank_of phyla.now }
{
    for phylum in phyla {
        if let Shape::Lexemes(place) = phylum.shape
            && phylum.name.as_slice() == b"WHITESPACE".as_slice()
        {
            return Some(place);
        }
    }
    None
}

/// A row for each byte.
fn empty_rows(alloc: Global) -> Result<Vec<Vec<usize>>, NoMemory>
    ensures count { IfOk result (λ t. length t.items ≡ 256) }
    ensures empty { IfOk result (λ t. IsTable [] (map (λ v. v.items) t.items)) }
{
    let mut rows = Vec::with_capacity(alloc, 256)?;
    'rows: while rows.len() < 256 {
        rows.push(Vec::new(alloc))?;
    }
    Ok(rows)
}

/// Puts the place of a text into the row of its first byte.
fn put_place(rows: &mut Vec<Vec<usize>>, place: usize, text: &[u8]) -> Result<(), NoMemory>
    requires { length rows.old.items ≡ 256 }
    ensures count { length rows.new.items ≡ 256 }
    ensures put { (ts : List Bytes) → length ts ≡ place → IsTable ts (map (λ v. v.items) rows.old.items)
        → OnOk result (IsTable (ts ++ text.now ∷ []) (map (λ v. v.items) rows.new.items)) }
{
    match text {
        [] => Ok(()),
        [first, ..] => {
            rows[*first as usize].push(place)?;
            Ok(())
        }
    }
}

/// For each byte the places of the texts that begin with it.
fn table_of(alloc: Global, texts: &[Text]) -> Result<Vec<Vec<usize>>, NoMemory>
    ensures count { IfOk result (λ t. length t.items ≡ 256) }
    ensures table { IfOk result (λ t. IsTable texts.now (map (λ v. v.items) t.items)) }
{
    let mut table = empty_rows(alloc)?;
    for (place, text) in texts.iter().enumerate() {
        put_place(&mut table, place, text.as_slice())?;
    }
    Ok(table)
}

/// Whether a literal stands at the front of the rest and is longer than so many bytes.
fn is_longer(literal: &[u8], rest: &[u8], len: usize) -> bool
    ensures { result ≡ (nat_lt len (length literal.now) && starts_with nat_eq rest.now literal.now) }
{
    len < literal.len() && rest.starts_with(literal)
}

impl Lexemes {
    /// The programs of the patterns.
    pub(crate) fn programs(&self) -> &[Program]
        ensures { ArePrograms result.now self.now.patterns }
    {
        self.matcher.programs()
    }

    /// Whether matches of the terminal are skipped, which is counted from the first literal on.
    pub fn is_blank(&self, number: usize) -> bool
        ensures { result ≡ is_blank self.now.blank (length self.now.literals) number }
    {
        match self.blank {
            None => false,
            Some(place) => number == self.literals.len() + place as usize,
        }
    }

    /// The literal with the longest match at a place, and the length of that match; None exactly where none matches a
    /// byte.
    pub fn literal_at(&self, text: &[u8], at: usize) -> Option<(usize, usize)>
        requires { at < length text.now }
        ensures { IsAnswer (map Literal self.now.literals) text.now at result }
    {
        let mut best = None;
        let row = self.table[text[at] as usize].as_slice();
        for number in row {
            let literal = item(self.literals.as_slice(), *number).as_slice();
            if is_longer(literal, &text[at..], len_of(best)) {
                best = Some((*number, literal.len()));
            }
        }
        best
    }
}
