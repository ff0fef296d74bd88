//! `Tables`, what each state of a grammar does on each symbol.
ghost use Rattle.std.specs.Prelude.{◌≡◌, ◌<◌, length, slice_get, Some, IfOk, IfErr, IfSome, IfNone};
ghost use Rattle.sg_grammar.specs.Derives.{AllProductive};
ghost use Rattle.sg_lalr.specs.Items.{HasNext};
ghost use Rattle.sg_lalr.specs.Automaton.{row_at};
ghost use Rattle.sg_lalr.specs.Prefixes.{TooMany};
ghost use Rattle.sg_lalr.specs.Tables.{Decided, IsTables, Leads, IsAction, IsTableFault};
ghost use Rattle.sg_lalr.specs.declared.table.TableFault.TheVariants as fault;

use crate::items::Item;
use crate::lookaheads::all_lookaheads;
use crate::places::move_on;
use crate::reductions::{Reduction, all_reductions, reduced};
use crate::search::least_conflict;
use crate::states::{Automaton, Move, all_states};
use sg_grammar::{Grammar, Production};
use sg_kinds::memory::NoMemory;
use sg_kinds::row::Row;
use std::alloc::{AllocError, Global};
use std::marker::Model;

/// Why a grammar has no tables.
#[derive(Drop)]
pub enum TableFault {
    /// The first symbol that derives no tokens.
    Unproductive(u32),
    /// There are more than 65,536 states.
    States,
    /// The least conflict: a prefix, a terminal, the first item that acts on it and the first that acts otherwise.
    Conflict(Row<u32>, u32, Item, Item),
    NoMemory,
}

impl From<AllocError> for TableFault {
    ghost from_gives = { λ _ e. e ≡ fault.NoMemory };

    fn from(_: AllocError) -> TableFault {
        TableFault::NoMemory
    }
}

/// What a state does on a terminal.
#[derive(Clone, Copy, Debug, PartialEq, Eq)]
pub enum Action {
    Shift(u32),
    Reduce(u32),
    Accept,
    Stop,
}

/// The tables of a grammar whose symbols all derive some tokens, which has no conflict and at most 65,536 states.
#[derive(Drop)]
pub struct Tables {
    grammar: Grammar,
    cores: Vec<Row<Item>>,
    moves: Vec<Row<Move>>,
    reductions: Vec<Row<Reduction>>,
}

impl Model for Tables {
    ghost use Rattle.sg_lalr.specs.Tables.{View, viewed, IsKept};

    ghost Value = { View };

    ghost view = { λ t. viewed t.grammar t.cores.items };

    ghost invariant = { λ t. IsKept t.grammar t.cores.items t.moves.items t.reductions.items };
}

impl Tables {
    /// What tables keep to.
    pub fn sound(&self)
        ensures { IsTables self.now }
    {
        let _ = &self.reductions;
        self.grammar.sound();
    }

    /// What is decided of tables: a function for the action and one for the state behind a symbol.
    pub fn decided(&self)
        ensures { Decided self.now }
    {
        let _ = &self.reductions;
        self.grammar.sound();
    }

    /// The grammar of the tables.
    pub fn grammar(&self) -> &Grammar
        ensures { result.now ≡ self.now.grammar }
    {
        &self.grammar
    }

    /// How many states there are.
    pub fn states(&self) -> usize
        ensures { result ≡ length self.now.cores }
    {
        self.cores.len()
    }

    /// What a state does on a terminal.
    pub fn action(&self, state: u32, terminal: u32) -> Action
        requires state { state < length self.now.cores }
        requires terminal { terminal < self.now.grammar.terminals }
        ensures { IsAction self.now state terminal result }
    {
        self.grammar.sound();
        match reduced(self.reductions[state as usize].as_slice(), terminal) {
            Some(p) if (p as usize) < self.grammar.rules().len() => Action::Reduce(p),
            Some(_) => Action::Accept,
            None => match move_on(self.moves[state as usize].as_slice(), terminal) {
                Some(u) => Action::Shift(u),
                None => Action::Stop,
            },
        }
    }

    /// The state behind a nonterminal in a state, or None exactly where no item has its dot before it.
    pub fn after(&self, state: u32, nonterminal: u32) -> Option<u32>
        requires state { state < length self.now.cores }
        requires symbol { nonterminal < self.now.grammar.symbols }
        ensures some { IfSome result (λ u. HasNext self.now.grammar (row_at self.now.cores state) nonterminal
            × Leads self.now state nonterminal u) }
        ensures none { IfNone result (HasNext self.now.grammar (row_at self.now.cores state) nonterminal → ⊥) }
    {
        self.grammar.sound();
        move_on(self.moves[state as usize].as_slice(), nonterminal)
    }

    /// A production by its number.
    pub fn production(&self, p: u32) -> &Production
        requires { p < length self.now.grammar.rules }
        ensures { slice_get self.now.grammar.rules p ≡ Some result.now }
    {
        &self.grammar.rules()[p as usize]
    }
}

/// The tables of a grammar without an entry.
pub(crate) fn without_entry(alloc: Global, g: &Grammar) -> Result<Tables, TableFault>
    requires productive { AllProductive g.now }
    requires none { length g.now.entries ≡ 0 }
    ensures ok { IfOk result (λ t. t.grammar ≡ g.now) }
    ensures fit { IfOk result (λ _. TooMany g.now → ⊥) }
    ensures fault { IfErr result (λ e. e ≡ fault.NoMemory) }
{
    let grammar = g.copy(alloc)?;
    Ok(Tables {
        grammar,
        cores: Vec::new(alloc),
        moves: Vec::new(alloc),
        reductions: Vec::new(alloc),
    })
}

/// The tables of a grammar with an entry.
pub(crate) fn with_entry(alloc: Global, g: &Grammar) -> Result<Tables, TableFault>
    requires productive { AllProductive g.now }
    requires entry { 0 < length g.now.entries }
    ensures ok { IfOk result (λ t. t.grammar ≡ g.now) }
    ensures fit { IfOk result (λ _. TooMany g.now → ⊥) }
    ensures fault { IfErr result (IsTableFault g.now) }
{
    g.sound();
    let Some(automaton) = all_states(alloc, g)? else {
        return Err(TableFault::States);
    };
    let looks = all_lookaheads(alloc, g, &automaton)?;
    if let Some(found) = least_conflict(alloc, g, &automaton, &looks)? {
        return Err(TableFault::Conflict(found.prefix, found.terminal, found.first, found.second));
    }
    let reductions = all_reductions(alloc, g, &automaton.cores, &looks)?;
    let grammar = g.copy(alloc)?;
    let Automaton { cores, moves, .. } = automaton;
    Ok(Tables {
        grammar,
        cores,
        moves,
        reductions,
    })
}
