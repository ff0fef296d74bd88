//! `Grammar`, productions over numbered symbols.
ghost use Rattle.std.specs.Prelude.{◌≡◌, ◌+◌, ◌<◌, ◌≤◌, ◌↔◌, ◌^◌, ℕ, length, slice_get, All, IsTrue, IfOk, IfSome, IfNone, Some};
ghost use Rattle.sg_grammar.specs.Grammar.{grammar, right_of, symbol_at};
ghost use Rattle.sg_grammar.specs.WellFormed.{AreBetween, IsRule, IsStart, IsWellFormed};

use sg_kinds::copy::TryCopy;
use sg_kinds::ids::ExprId;
use sg_kinds::memory::NoMemory;
use sg_kinds::row::Row;
use std::alloc::Global;
use std::marker::Model;

/// What the result of a production is: the outcome of its expression, or the one result of its right side.
#[derive(Clone, Copy, PartialEq, Eq)]
pub enum Made {
    Outcome(ExprId),
    Same,
}

/// A production of numbered symbols. The left side of a start production is never read.
#[derive(Drop)]
pub struct Production {
    pub left: u32,
    pub right: Row<u32>,
    pub made: Made,
}

impl TryCopy for Production {
    fn try_copy(&self, alloc: Global) -> Result<Production, NoMemory> {
        Ok(Production {
            left: self.left,
            right: self.right.try_copy(alloc)?,
            made: self.made,
        })
    }
}

/// A grammar with a start production for each entry. The symbols are numbered from 0: the end, a marker for each
/// entry, and the other terminals; the nonterminals come last. Items name the production `k` of the entries as the
/// number of rules and `k` more.
#[derive(Drop)]
pub struct Grammar {
    rules: Row<Production>,
    entries: Row<Production>,
    terminals: u32,
    symbols: u32,
}

impl Model for Grammar {
    ghost use Rattle.sg_grammar.specs.Grammar.{Grammar, grammar};
    ghost use Rattle.sg_grammar.specs.WellFormed.{IsWellFormed};

    ghost Value = { Grammar };

    ghost view = { λ g. grammar g.rules g.entries g.terminals g.symbols };

    ghost invariant = { λ g. IsWellFormed (grammar g.rules g.entries g.terminals g.symbols) };
}

/// The most symbols on a right side, and the most productions.
pub const MOST: usize = 1 << 30;

impl Grammar {
    /// The grammar of these productions, or None exactly where a number in them is out of range, the end or a marker
    /// stands on a right side, or a start production does not begin with its marker.
    pub fn new(
        rules: Row<Production>,
        entries: Row<Production>,
        terminals: u32,
        symbols: u32,
    ) -> Option<Grammar>
        ensures some { IfSome result (λ g. g ≡ grammar rules entries terminals symbols) }
        ensures none { IfNone result (IsWellFormed (grammar rules entries terminals symbols) → ⊥) }
    {
        if is_well_formed(rules.as_slice(), entries.as_slice(), terminals, symbols) {
            Some(Grammar {
                rules,
                entries,
                terminals,
                symbols,
            })
        } else {
            None
        }
    }

    /// What each grammar keeps to.
    pub fn sound(&self)
        ensures { IsWellFormed self.now }
    {
        let _ = &self.terminals;
    }

    /// An equal grammar.
    pub fn copy(&self, alloc: Global) -> Result<Grammar, NoMemory>
        ensures { IfOk result (λ g. g ≡ self.now) }
    {
        let rules = self.rules.try_copy(alloc)?;
        let entries = self.entries.try_copy(alloc)?;
        Ok(Grammar {
            rules,
            entries,
            terminals: self.terminals,
            symbols: self.symbols,
        })
    }

    /// The productions but the start productions.
    pub fn rules(&self) -> &[Production]
        ensures { result.now ≡ self.now.rules }
    {
        self.rules.as_slice()
    }

    /// The start productions, one for each entry.
    pub fn entries(&self) -> &[Production]
        ensures { result.now ≡ self.now.entries }
    {
        self.entries.as_slice()
    }

    /// How many terminals there are: the symbols below it.
    pub fn terminals(&self) -> u32
        ensures { result ≡ self.now.terminals }
    {
        self.terminals
    }

    /// How many symbols there are.
    pub fn symbols(&self) -> u32
        ensures { result ≡ self.now.symbols }
    {
        self.symbols
    }

    /// The right side of a production, the start productions counted behind the others.
    pub fn right(&self, production: u32) -> &[u32]
        requires { production < length self.now.rules + length self.now.entries }
        ensures { result.now ≡ right_of self.now production }
    {
        let at = production as usize;
        if at < self.rules.len() {
            self.rules.as_slice()[at].right.as_slice()
        } else {
            self.entries.as_slice()[at - self.rules.len()]
                .right
                .as_slice()
        }
    }

    /// The symbol behind the dot of an item, or None where the dot is at the end.
    pub fn symbol_at(&self, production: u32, dot: u32) -> Option<u32>
        requires { production < length self.now.rules + length self.now.entries }
        ensures { result ≡ symbol_at self.now production dot }
    {
        self.right(production).get(dot as usize).copied()
    }
}

/// Whether there are not too many productions, and terminals for the end and the markers.
fn are_counted(rules: usize, entries: usize, terminals: u32, symbols: u32) -> bool
    ensures { IsTrue result ↔ ((rules ≤ 2 ^ 30) × (entries ≤ 2 ^ 30) × (entries < terminals) × (terminals ≤ symbols)) }
{
    rules <= MOST && entries <= MOST && entries < terminals as usize && terminals <= symbols
}

/// Whether these are the productions of a grammar.
fn is_well_formed(
    rules: &[Production],
    entries: &[Production],
    terminals: u32,
    symbols: u32,
) -> bool
    ensures { IsTrue result ↔ IsWellFormed (grammar rules.now entries.now terminals symbols) }
{
    if !are_counted(rules.len(), entries.len(), terminals, symbols) {
        return false;
    }
    let first = entries.len() as u32 + 1;
    are_rules(rules, first, terminals, symbols) && are_starts(entries, first, symbols)
}

/// Whether each symbol is in range, and none of the first.
fn are_between(right: &[u32], first: u32, symbols: u32) -> bool
    ensures { IsTrue result ↔ AreBetween first symbols right.now }
{
    right.iter().all(|x| first <= *x && *x < symbols)
}

/// Whether it is the right side of the start production of the entry at a place.
fn is_start(place: usize, right: &[u32], first: u32, symbols: u32) -> bool
    requires { place < 2 ^ 30 }
    ensures { IsTrue result ↔ IsStart first symbols place right.now }
{
    match right {
        [] => false,
        [marker, rest @ ..] => {
            *marker as usize == place + 1 && rest.len() < MOST && are_between(rest, first, symbols)
        }
    }
}

/// Whether each right side is that of a start production.
fn are_starts(entries: &[Production], first: u32, symbols: u32) -> bool
    requires { length entries.now ≤ 2 ^ 30 }
    ensures { IsTrue result ↔ ((k : ℕ) (r : Production) → slice_get entries.now k ≡ Some r
        → IsStart first symbols k r.right) }
{
    for (place, entry) in entries.iter().enumerate() {
        if !is_start(place, entry.right.as_slice(), first, symbols) {
            return false;
        }
    }
    true
}

/// Whether each symbol of a right side is in range and none of the first, and each left side a nonterminal.
fn are_rules(productions: &[Production], first: u32, terminals: u32, symbols: u32) -> bool
    ensures { IsTrue result ↔ All (IsRule first terminals symbols) productions.now }
{
    productions.iter().all(|r| {
        terminals <= r.left
            && r.left < symbols
            && r.right.len() <= MOST
            && are_between(r.right.as_slice(), first, symbols)
    })
}
