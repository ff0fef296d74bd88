//! The grammar of a specification.
ghost use Rattle.std.specs.Prelude.{◌≡◌, ℕ, suc, ◌+◌, ◌≤◌, ◌<◌, ◌^◌, map, length, bytes_eq, IfOk, OnOk};
ghost use Rattle.std.specs.List.{position_or_len};
ghost use Rattle.sg_patterns.specs.Lexemes.{with_text, literals_in, literals_of};
ghost use Rattle.sg_kinds.specs.Instances.{below};
ghost use Rattle.sg_kinds.specs.declared.spec.Symbol.TheVariants as written;
ghost use Rattle.sg_prec.specs.Levels.{levels_before};
ghost use Rattle.sg_prec.specs.Spread.{lowered, spread_of};
ghost use Rattle.sg_prec.specs.Sources.{at_levels, leveled, step_from, spread_from};
ghost use Rattle.sg_grammar.specs.Numbered.{first_literal, first_lexeme, first_nonterminal, nonterminal_count, level_number, symbol_count, lexeme_number, symbol_number, spread_number, rule_of, starts_of, grammar_of, start_of};

use crate::grammar::{Grammar, MOST, Made, Production};
use crate::named::named_by;
use indexmap::IndexSet;
use sg_kinds::ids::PhylumId;
use sg_kinds::marks::Shape;
use sg_kinds::memory::NoMemory;
use sg_kinds::row::Row;
use sg_kinds::spec::{Entry, Phylum, Production as Written, Spec, Symbol};
use sg_prec::named::named_over;
use sg_prec::{Levels, RuleLevels, Source, spread};
use std::alloc::Global;

/// The literals of a specification, by first occurrence; how many levels stand before those of each nonterminal, and
/// last how many there are in all.
#[derive(Drop)]
struct Numbering<'a> {
    spec: &'a Spec,
    literals: IndexSet<Vec<u8>>,
    before: Vec<u32>,
    ghost known: { map (λ v. v.items) literals.keys ≡ literals_of spec.now.productions },
    ghost levels: { before.items ≡ map (levels_before spec.now.levels spec.now.productions)
        (below (suc (nonterminal_count spec.now))) },
    ghost few: { (length spec.now.entries ≤ 2 ^ 30) × (length literals.keys ≤ 2 ^ 30)
        × (length spec.now.lexemes ≤ 2 ^ 30) },
}

/// The number, where it is one of a symbol.
fn number(n: usize) -> Result<u32, NoMemory>
    ensures { IfOk result (λ m. m ≡ n) }
{
    if n <= u32::MAX as usize {
        Ok(n as u32)
    } else {
        Err(NoMemory)
    }
}

/// Puts a text behind the others, unless it is among them.
fn add(alloc: Global, literals: &mut IndexSet<Vec<u8>>, text: &[u8]) -> Result<(), NoMemory>
    ensures { OnOk result (map (λ v. v.items) literals.new.keys
        ≡ with_text (map (λ v. v.items) literals.old.keys) text.now) }
{
    if !literals.contains(text) {
        literals.insert(Vec::from_slice(alloc, text)?)?;
    }
    Ok(())
}

/// The place of a text among the others, or their number where it is not among them.
fn place_of(literals: &IndexSet<Vec<u8>>, text: &[u8]) -> usize
    ensures place { result ≡ position_or_len (bytes_eq text.now) (map (λ v. v.items) literals.now.keys) }
    ensures within { result ≤ length literals.now.keys }
{
    match literals.get_index_of(text) {
        Some(place) => place,
        None => literals.len(),
    }
}

/// Puts the literals of symbols behind those that were found.
fn add_all(
    alloc: Global,
    literals: &mut IndexSet<Vec<u8>>,
    symbols: &[Symbol],
) -> Result<(), NoMemory>
    ensures { OnOk result (map (λ v. v.items) literals.new.keys
        ≡ literals_in (map (λ v. v.items) literals.old.keys) symbols.now) }
{
    for symbol in symbols {
        if let Symbol::Quoted(text) = symbol {
            add(alloc, literals, text.as_slice())?;
        }
    }
    Ok(())
}

/// The literals of productions by their first occurrence.
fn literals_of(alloc: Global, productions: &[Written]) -> Result<IndexSet<Vec<u8>>, NoMemory>
    ensures { IfOk result (λ s. map (λ v. v.items) s.keys ≡ literals_of productions.now) }
{
    let mut literals = IndexSet::new(alloc);
    for production in productions {
        add_all(alloc, &mut literals, production.right.as_slice())?;
    }
    Ok(literals)
}

/// How many nonterminals productions and entries name.
fn nonterminals(spec: &Spec) -> usize
    ensures number { result ≡ nonterminal_count spec.now }
    ensures few { result ≤ 2 ^ 32 }
{
    named_over(spec.productions.as_slice()).max(named_by(spec.entries.as_slice()))
}

/// How many levels stand before those of each nonterminal, and last how many there are in all.
fn levels_before(alloc: Global, spec: &Spec) -> Result<Vec<u32>, NoMemory>
    ensures { IfOk result (λ v. v.items ≡ map (levels_before spec.now.levels spec.now.productions)
        (below (suc (nonterminal_count spec.now)))) }
{
    let levels = Levels::new(alloc, spec.productions.as_slice(), spec.levels.as_slice())?;
    let mut before = Vec::new(alloc);
    let mut total = 0u32;
    for n in 0..nonterminals(spec) {
        before.push(total)?;
        total = number(total as usize + 1 + levels.height(n as u32))?;
    }
    before.push(total)?;
    Ok(before)
}

impl<'a> Numbering<'a> {
    fn new(alloc: Global, spec: &'a Spec) -> Result<Numbering<'a>, NoMemory>
        ensures { IfOk result (λ n. n.spec.now ≡ spec.now) }
    {
        let literals = literals_of(alloc, spec.productions.as_slice())?;
        if spec.entries.len() > MOST || literals.len() > MOST || spec.lexemes.len() > MOST {
            return Err(NoMemory);
        }
        let before = levels_before(alloc, spec)?;
        Ok(Numbering {
            spec,
            literals,
            before,
        })
    }

    fn first_literal(&self) -> usize
        ensures number { result ≡ first_literal self.now.spec.now }
        ensures few { result ≤ 2 ^ 30 + 1 }
    {
        self.spec.entries.len() + 1
    }

    fn first_lexeme(&self) -> usize
        ensures number { result ≡ first_lexeme self.now.spec.now }
        ensures few { result ≤ 2 ^ 31 + 1 }
    {
        self.first_literal() + self.literals.len()
    }

    fn first_nonterminal(&self) -> usize
        ensures number { result ≡ first_nonterminal self.now.spec.now }
        ensures few { result ≤ 2 ^ 32 }
    {
        self.first_lexeme() + self.spec.lexemes.len()
    }

    /// The number of a literal.
    fn literal(&self, text: &[u8]) -> Result<u32, NoMemory>
        ensures { IfOk result (λ n. n ≡ first_literal self.now.spec.now + position_or_len (bytes_eq text.now)
            (literals_of self.now.spec.now.productions)) }
    {
        number(self.first_literal() + place_of(&self.literals, text))
    }

    /// The number of the lexeme of a phylum, or that of the end where it has none.
    fn lexeme(&self, phylum: &Phylum) -> Result<u32, NoMemory>
        ensures { IfOk result (λ n. n ≡ lexeme_number self.now.spec.now phylum.now.shape) }
    {
        match phylum.shape {
            Shape::Lexemes(place) if (place as usize) < self.spec.lexemes.len() => {
                number(self.first_lexeme() + place as usize)
            }
            _ => Ok(0),
        }
    }

    /// How many symbols there are.
    fn symbols(&self) -> Result<u32, NoMemory>
        ensures { IfOk result (λ n. n ≡ symbol_count self.now.spec.now) }
    {
        match self.before.last() {
            Some(levels) => number(self.first_nonterminal() + *levels as usize),
            None => Err(NoMemory),
        }
    }

    /// The number of a level of a nonterminal. `NoMemory` is also the answer past the last nonterminal that is named.
    fn level(&self, n: u32, i: u32) -> Result<u32, NoMemory>
        ensures { IfOk result (λ m. m ≡ level_number self.now.spec.now n i) }
    {
        match self.before.get(n as usize) {
            Some(before) => number(self.first_nonterminal() + *before as usize + i as usize),
            None => Err(NoMemory),
        }
    }

    /// The number of the lexeme of a phylum by its number.
    fn lexical(&self, p: PhylumId) -> Result<u32, NoMemory>
        ensures { IfOk result (λ n. n ≡ symbol_number self.now.spec.now (written.Lexical p)) }
    {
        match self.spec.phyla.place(p.number) {
            Some(phylum) => self.lexeme(phylum),
            None => Ok(0),
        }
    }

    /// The number of a symbol, a nonterminal at this level.
    fn symbol(&self, level: u32, symbol: &Symbol) -> Result<u32, NoMemory>
        ensures { IfOk result (λ n. n ≡ spread_number self.now.spec.now (lowered level symbol.now)) }
    {
        match symbol {
            Symbol::Quoted(text) => self.literal(text.as_slice()),
            Symbol::Lexical(p) => self.lexical(*p),
            Symbol::Nonterminal(n) => self.level(*n, level),
        }
    }

    /// The numbers of symbols, of which the first is at one level and the others at another.
    fn right(
        &self,
        alloc: Global,
        first: u32,
        rest: u32,
        symbols: &[Symbol],
    ) -> Result<Vec<u32>, NoMemory>
        ensures { IfOk result (λ v. v.items
            ≡ map (spread_number self.now.spec.now) (at_levels first rest symbols.now)) }
    {
        let mut right = Vec::with_capacity(alloc, symbols.len())?;
        let mut level = first;
        for symbol in symbols {
            right.push(self.symbol(level, symbol)?)?;
            level = rest;
        }
        Ok(right)
    }

    /// A written production at these levels.
    fn written(
        &self,
        alloc: Global,
        production: &Written,
        levels: RuleLevels,
    ) -> Result<Production, NoMemory>
        ensures { IfOk result (λ r. r ≡ rule_of self.now.spec.now (leveled production.now levels)) }
    {
        let symbols = production.right.as_slice();
        let right = self.right(alloc, levels.first, levels.rest, symbols)?;
        let left = self.level(production.left, levels.level)?;
        Ok(Production {
            left,
            right: Row::new(right),
            made: Made::Outcome(production.expr),
        })
    }

    /// The step of a nonterminal from a level to the next.
    fn step(&self, alloc: Global, n: u32, level: u32) -> Result<Production, NoMemory>
        ensures { (line : ℕ) → IfOk result (λ r. r ≡ rule_of self.now.spec.now (step_from n level line)) }
    {
        let left = self.level(n, level)?;
        let mut right = Vec::with_capacity(alloc, 1)?;
        right.push(number(left as usize + 1)?)?;
        Ok(Production {
            left,
            right: Row::new(right),
            made: Made::Same,
        })
    }

    fn rule(&self, alloc: Global, source: Source<'_>) -> Result<Production, NoMemory>
        ensures { IfOk result (λ r. r ≡ rule_of self.now.spec.now (spread_from source.entry)) }
    {
        match source {
            Source::Rule(production, levels) => self.written(alloc, production, levels),
            Source::Step(n, level, _) => self.step(alloc, n, level),
        }
    }

    fn start(&self, alloc: Global, place: usize, entry: &Entry) -> Result<Production, NoMemory>
        requires { place < 2 ^ 63 }
        ensures { IfOk result (λ r. r ≡ start_of self.now.spec.now place entry.now) }
    {
        let mut right = Vec::with_capacity(alloc, 2)?;
        right.push(number(place + 1)?)?;
        right.push(self.level(entry.nonterminal, 0)?)?;
        Ok(Production {
            left: 0,
            right: Row::new(right),
            made: Made::Same,
        })
    }

    fn rules(&self, alloc: Global) -> Result<Vec<Production>, NoMemory>
        ensures { IfOk result (λ v. v.items ≡ map (rule_of self.now.spec.now)
            (spread_of self.now.spec.now.levels self.now.spec.now.productions)) }
    {
        let found = spread(
            alloc,
            self.spec.productions.as_slice(),
            self.spec.levels.as_slice(),
        )?;
        let mut rules = Vec::with_capacity(alloc, found.len())?;
        for source in &found {
            rules.push(self.rule(alloc, *source)?)?;
        }
        Ok(rules)
    }

    fn starts(&self, alloc: Global) -> Result<Vec<Production>, NoMemory>
        ensures { IfOk result (λ v. v.items ≡ starts_of self.now.spec.now 0 self.now.spec.now.entries) }
    {
        let mut starts = Vec::with_capacity(alloc, self.spec.entries.len())?;
        for (place, entry) in self.spec.entries.as_slice().iter().enumerate() {
            starts.push(self.start(alloc, place, entry)?)?;
        }
        Ok(starts)
    }
}

/// The grammar of a specification: the productions of its spread grammar in their order, and for each entry a start
/// production of its marker and its nonterminal. The symbols are, in this order, the end, the markers, the literals by
/// first occurrence, the lexemes and the levels of the nonterminals. `NoMemory` is also the answer where there are more
/// of them than their numbers reach.
pub fn make(alloc: Global, spec: &Spec) -> Result<Grammar, NoMemory>
    ensures { IfOk result (λ g. g ≡ grammar_of spec.now) }
{
    let numbering = Numbering::new(alloc, spec)?;
    let rules = Row::new(numbering.rules(alloc)?);
    let entries = Row::new(numbering.starts(alloc)?);
    let terminals = number(numbering.first_nonterminal())?;
    let symbols = numbering.symbols()?;
    match Grammar::new(rules, entries, terminals, symbols) {
        Some(grammar) => Ok(grammar),
        None => Err(NoMemory),
    }
}
