//! The symbols of the grammar as they are printed.
ghost use Rattle.std.specs.Prelude.{◌≡◌, ◌+◌, ◌<◌, ◌^◌, ◌∷◌, ◌++◌, length, map, IfOk, OnOk};
ghost use Rattle.std.specs.Fmt.{decimal};
ghost use Rattle.sg_kinds.specs.Specification.{phylum_name};
ghost use Rattle.sg_prec.specs.Levels.{height, row_at};
ghost use Rattle.sg_reports.specs.Symbols.{marker_of, lexeme_symbols, level_name, level_symbols, nonterminal_symbols, symbols_named, symbol_in, name_of};

use sg_kinds::decimal::write_number;
use sg_kinds::fault::PrintedSymbol;
use sg_kinds::ids::PhylumId;
use sg_kinds::marks::Shape;
use sg_kinds::memory::NoMemory;
use sg_kinds::row::Row;
use sg_kinds::spec::{Entry, Phylum, Production, Spec};
use sg_kinds::text::Text;
use sg_patterns::Lexemes;
use sg_prec::Levels;
use std::alloc::Global;

/// The name of a phylum, empty past the last.
pub fn phylum_name(alloc: Global, phyla: &Row<Phylum>, phylum: PhylumId) -> Result<Text, NoMemory>
    ensures { IfOk result (λ t. t ≡ phylum_name phyla.now phylum) }
{
    match phyla.place(phylum.number) {
        Some(phylum) => Ok(phylum.name.copy(alloc)?),
        None => Ok(Text::new(Vec::new(alloc))),
    }
}

/// Puts the markers of entries behind the other symbols.
fn push_markers(
    alloc: Global,
    symbols: &mut Vec<PrintedSymbol>,
    phyla: &Row<Phylum>,
    entries: &[Entry],
) -> Result<(), NoMemory>
    ensures { OnOk result (symbols.new.items ≡ symbols.old.items ++ map (marker_of phyla.now) entries.now) }
{
    for entry in entries {
        let name = phylum_name(alloc, phyla, entry.phylum)?;
        symbols.push(PrintedSymbol::Marker(name))?;
    }
    Ok(())
}

/// Puts literals behind the other symbols.
fn push_literals(
    alloc: Global,
    symbols: &mut Vec<PrintedSymbol>,
    literals: &[Text],
) -> Result<(), NoMemory>
    ensures { OnOk result (symbols.new.items ≡ symbols.old.items ++ map PrintedSymbol.Literal literals.now) }
{
    for literal in literals {
        let text = literal.copy(alloc)?;
        symbols.push(PrintedSymbol::Literal(text))?;
    }
    Ok(())
}

/// Puts the lexeme phyla behind the other symbols.
fn push_lexemes(
    alloc: Global,
    symbols: &mut Vec<PrintedSymbol>,
    phyla: &[Phylum],
) -> Result<(), NoMemory>
    ensures { OnOk result (symbols.new.items ≡ symbols.old.items ++ lexeme_symbols phyla.now) }
{
    for phylum in phyla {
        if let Shape::Lexemes(_) = phylum.shape {
            let name = phylum.name.copy(alloc)?;
            symbols.push(PrintedSymbol::Name(name))?;
        }
    }
    Ok(())
}

/// The name of a level of a nonterminal with its number, counted from 1.
fn numbered(alloc: Global, name: &Text, level: usize) -> Result<Text, NoMemory>
    requires { level < 2 ^ 63 }
    ensures { IfOk result (λ t. t ≡ name.now ++ 47 ∷ decimal (level + 1)) }
{
    let mut bytes = Vec::from_slice(alloc, name.as_slice())?;
    bytes.push(b'/')?;
    write_number(alloc, &mut bytes, level as u64 + 1)?;
    Ok(Text::new(bytes))
}

/// The name of a level of a nonterminal whose last level has this number: with its own number where there are several
/// and levels are told.
#[tactic(auto, using(crate::proofs::LevelNames::level_told, crate::proofs::LevelNames::level_untold, crate::proofs::LevelNames::level_alone))]
fn level_name(
    alloc: Global,
    name: &Text,
    last: usize,
    level: usize,
    told: bool,
) -> Result<Text, NoMemory>
    requires { level < 2 ^ 63 }
    ensures { IfOk result (λ t. t ≡ level_name told name.now last level) }
{
    if told && last > 0 {
        numbered(alloc, name, level)
    } else {
        Ok(name.copy(alloc)?)
    }
}

/// Puts the levels of a nonterminal, of which the last has this number, behind the other symbols.
fn push_levels(
    alloc: Global,
    symbols: &mut Vec<PrintedSymbol>,
    name: &Text,
    last: usize,
    told: bool,
) -> Result<(), NoMemory>
    requires { last < 2 ^ 63 }
    ensures { OnOk result (symbols.new.items ≡ symbols.old.items ++ level_symbols told name.now last) }
{
    for level in 0..last + 1 {
        let name = level_name(alloc, name, last, level, told)?;
        symbols.push(PrintedSymbol::Name(name))?;
    }
    Ok(())
}

/// Puts the nonterminals behind the other symbols, each where its first production stands.
fn push_nonterminals(
    alloc: Global,
    symbols: &mut Vec<PrintedSymbol>,
    productions: &[Production],
    levels: &Levels,
    told: bool,
) -> Result<(), NoMemory>
    ensures { OnOk result (symbols.new.items ≡ symbols.old.items
        ++ nonterminal_symbols told (λ n. length (row_at levels.now n)) 0 productions.now) }
{
    let mut next = 0usize;
    for production in productions {
        if production.left as usize == next {
            let last = levels.height(production.left);
            push_levels(alloc, symbols, &production.name, last, told)?;
            next += 1;
        }
    }
    Ok(())
}

/// Puts the nonterminals of the grammar of a specification behind the other symbols.
fn push_grammar(
    alloc: Global,
    symbols: &mut Vec<PrintedSymbol>,
    spec: &Spec,
    told: bool,
) -> Result<(), NoMemory>
    ensures { OnOk result (symbols.new.items ≡ symbols.old.items
        ++ nonterminal_symbols told (height spec.now.levels spec.now.productions) 0 spec.now.productions) }
{
    let productions = spec.productions.as_slice();
    let levels = Levels::new(alloc, productions, spec.levels.as_slice())?;
    push_nonterminals(alloc, symbols, productions, &levels, told)
}

/// The symbols of the grammar of a specification, in the order of their numbers; the levels of a nonterminal are told
/// apart, or each has the nonterminal's own name.
pub fn printed_symbols(
    alloc: Global,
    spec: &Spec,
    told: bool,
) -> Result<Vec<PrintedSymbol>, NoMemory>
    ensures { IfOk result (λ v. v.items ≡ symbols_named told spec.now) }
{
    let lexemes = Lexemes::new(alloc, spec)?;
    let mut symbols = Vec::new(alloc);
    symbols.push(PrintedSymbol::End)?;
    push_markers(alloc, &mut symbols, &spec.phyla, spec.entries.as_slice())?;
    push_literals(alloc, &mut symbols, lexemes.literals.as_slice())?;
    push_lexemes(alloc, &mut symbols, spec.phyla.as_slice())?;
    push_grammar(alloc, &mut symbols, spec, told)?;
    Ok(symbols)
}

/// An equal symbol.
fn copy(alloc: Global, symbol: &PrintedSymbol) -> Result<PrintedSymbol, NoMemory>
    ensures { IfOk result (λ s. s ≡ symbol.now) }
{
    match symbol {
        PrintedSymbol::End => Ok(PrintedSymbol::End),
        PrintedSymbol::Marker(text) => Ok(PrintedSymbol::Marker(text.copy(alloc)?)),
        PrintedSymbol::Literal(text) => Ok(PrintedSymbol::Literal(text.copy(alloc)?)),
        PrintedSymbol::Name(text) => Ok(PrintedSymbol::Name(text.copy(alloc)?)),
    }
}

/// The symbol with a number, `End` past the last.
pub fn symbol_in(
    alloc: Global,
    symbols: &[PrintedSymbol],
    x: u32,
) -> Result<PrintedSymbol, NoMemory>
    ensures { IfOk result (λ s. s ≡ symbol_in symbols.now x) }
{
    match symbols.get(x as usize) {
        Some(symbol) => Ok(copy(alloc, symbol)?),
        None => Ok(PrintedSymbol::End),
    }
}

/// The symbols with these numbers.
pub fn symbols_in(
    alloc: Global,
    symbols: &[PrintedSymbol],
    numbers: &[u32],
) -> Result<Row<PrintedSymbol>, NoMemory>
    ensures { IfOk result (λ r. r ≡ map (symbol_in symbols.now) numbers.now) }
{
    let mut found = Vec::new(alloc);
    for x in numbers {
        found.push(symbol_in(alloc, symbols, *x)?)?;
    }
    Ok(Row::new(found))
}

/// The name of the symbol with a number, empty where it has none.
pub fn name_in(alloc: Global, symbols: &[PrintedSymbol], x: u32) -> Result<Text, NoMemory>
    ensures { IfOk result (λ t. t ≡ name_of (symbol_in symbols.now x)) }
{
    match symbols.get(x as usize) {
        Some(PrintedSymbol::Name(name)) => Ok(name.copy(alloc)?),
        _ => Ok(Text::new(Vec::new(alloc))),
    }
}
