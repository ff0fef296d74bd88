//! The states of the automaton, found by breadth in the order of symbols.
ghost use Rattle.std.specs.Prelude.{◌≡◌, ℕ, ◌<◌, ◌≤◌, ◌++◌, ◌∷◌, [], suc, length, map, Contains, IfOk, OnOk, IfSome, IfNone};
ghost use Rattle.std.specs.Bool.{OnTrue, OnFalse};
ghost use Rattle.sg_lalr.specs.Closure.{AreOpenings, IsClosure};
ghost use Rattle.sg_lalr.specs.Automaton.{row_at, start_items, Entered, IsPart, IsWhole, Overflows};

use crate::closure::{closure, openings};
use crate::items::Item;
use crate::spread::{empty_rows, spread};
use indexmap::IndexSet;
use sg_grammar::Grammar;
use sg_kinds::limits::STATES;
use sg_kinds::row::Row;
use std::alloc::{AllocError, Global};

/// The most states.
pub const MOST_STATES: usize = STATES;

/// A move of a state.
#[derive(Clone, Copy)]
pub struct Move {
    pub symbol: u32,
    pub target: u32,
}

/// The state and the symbol from which a state was found first.
#[derive(Clone, Copy)]
pub struct Origin {
    pub state: u32,
    pub symbol: u32,
}

/// The automaton: the kernels of its states, of the first of them the cores, of the first of these the moves, and of
/// each state but the first its origin.
#[derive(Drop)]
pub struct Automaton {
    pub(crate) kernels: IndexSet<Vec<Item>>,
    pub(crate) cores: Vec<Row<Item>>,
    pub(crate) moves: Vec<Row<Move>>,
    pub(crate) origins: Vec<Origin>,
}

/// The number of a kernel.
fn find(kernels: &IndexSet<Vec<Item>>, kernel: &[Item]) -> Option<usize>
    ensures within { IfSome result (λ v. v < length (map (λ k. k.items) kernels.now.keys)) }
    ensures some { IfSome result (λ v. row_at (map (λ k. k.items) kernels.now.keys) v ≡ kernel.now) }
    ensures none { IfNone result (Contains (map (λ k. k.items) kernels.now.keys) kernel.now → ⊥) }
{
    kernels.get_index_of(kernel)
}

/// Puts a kernel that is not among the others behind them.
fn add(kernels: &mut IndexSet<Vec<Item>>, kernel: Vec<Item>) -> Result<(), AllocError>
    requires { Contains (map (λ k. k.items) kernels.old.keys) kernel.items → ⊥ }
    ensures { OnOk result (map (λ k. k.items) kernels.new.keys
        ≡ map (λ k. k.items) kernels.old.keys ++ kernel.items ∷ []) }
{
    kernels.insert(kernel)?;
    Ok(())
}

/// The number of the state with a kernel, which is new where none has it, or None where there are too many.
fn enter(
    alloc: Global,
    kernels: &mut IndexSet<Vec<Item>>,
    origins: &mut Vec<Origin>,
    kernel: &[Item],
    origin: Origin,
) -> Result<Option<u32>, AllocError>
    requires { length kernels.old.keys ≤ MOST_STATES }
    ensures few { OnOk result (length kernels.new.keys ≤ MOST_STATES) }
    ensures entered { IfOk result (λ found. IfSome found
        (Entered (map (λ k. k.items) kernels.old.keys)
        (map (λ k. k.items) kernels.new.keys) origins.old.items origins.new.items kernel.now origin)) }
    ensures full { IfOk result (λ found. IfNone found ((length kernels.old.keys ≡ MOST_STATES)
        × (Contains (map (λ k. k.items) kernels.old.keys) kernel.now → ⊥))) }
{
    if let Some(known) = find(kernels, kernel) {
        return Ok(Some(known as u32));
    }
    let number = kernels.len();
    if number == MOST_STATES {
        return Ok(None);
    }
    add(kernels, Vec::from_slice(alloc, kernel)?)?;
    origins.push(origin)?;
    Ok(Some(number as u32))
}

impl Automaton {
    /// Finds the core and the moves of the next state, or answers false where there are too many states. The rows of
    /// symbols are empty before and after.
    fn expand(
        &mut self,
        alloc: Global,
        g: &Grammar,
        opens: &[Vec<u32>],
        rows: &mut Vec<Vec<Item>>,
    ) -> Result<bool, AllocError>
        requires part { IsPart g.now
            (map (λ k. k.items) self.old.kernels.keys) self.old.cores.items self.old.moves.items
            self.old.origins.items }
        requires moves { length self.old.moves.items ≡ length self.old.cores.items }
        requires next { length self.old.cores.items < length self.old.kernels.keys }
        requires few { length self.old.kernels.keys ≤ MOST_STATES }
        requires opens { AreOpenings g.now (map (λ l. l.items) opens.now) }
        requires entries { 0 < length g.now.entries }
        requires rows { length rows.old.items ≡ g.now.symbols }
        requires empty { (X : ℕ) → row_at (map (λ k. k.items) rows.old.items) X ≡ [] }
        ensures part { IfOk result (λ whole. OnTrue whole
            (IsPart g.now (map
            (λ k. k.items) self.new.kernels.keys) self.new.cores.items self.new.moves.items self.new.origins.items)) }
        ensures cores { IfOk result (λ whole. OnTrue whole (length self.new.cores.items
            ≡ suc (length self.old.cores.items))) }
        ensures moves { IfOk result (λ whole. OnTrue whole (length self.new.moves.items
            ≡ length self.new.cores.items)) }
        ensures few { IfOk result (λ whole. OnTrue whole (length self.new.kernels.keys ≤ MOST_STATES)) }
        ensures full { IfOk result (λ whole. OnFalse whole (Overflows g.now)) }
        ensures rows { IfOk result (λ whole. OnTrue whole (length rows.new.items ≡ g.now.symbols)) }
        ensures empty { IfOk result (λ whole. OnTrue whole ((X : ℕ)
            → row_at (map (λ k. k.items) rows.new.items) X ≡ [])) }
    {
        g.sound();
        let state = self.cores.len();
        let mut core = self.core_of(alloc, g, opens, state)?;
        let symbols = spread(alloc, g, &core, rows)?;
        let mut row = Vec::new(alloc);
        for x in symbols.as_slice() {
            let symbol = *x;
            let kernel = rows[symbol as usize].as_slice();
            let origin = Origin {
                state: state as u32,
                symbol,
            };
            let Some(target) = enter(alloc, &mut self.kernels, &mut self.origins, kernel, origin)?
            else {
                return Ok(false);
            };
            row.push(Move { symbol, target })?;
            rows[symbol as usize].clear();
        }
        core.shrink_to_fit();
        row.shrink_to_fit();
        self.cores.push(Row::new(core))?;
        self.moves.push(Row::new(row))?;
        Ok(true)
    }

    /// The core of a state.
    fn core_of(
        &self,
        alloc: Global,
        g: &Grammar,
        opens: &[Vec<u32>],
        state: usize,
    ) -> Result<Vec<Item>, AllocError>
        requires part { IsPart g.now
            (map (λ k. k.items) self.now.kernels.keys) self.now.cores.items self.now.moves.items
            self.now.origins.items }
        requires there { state < length self.now.kernels.keys }
        requires opens { AreOpenings g.now (map (λ l. l.items) opens.now) }
        ensures { IfOk result (λ core. IsClosure g.now
            (row_at (map (λ k. k.items) self.now.kernels.keys) state) core.items) }
    {
        let kernel = self.kernels.get_index(state).unwrap();
        let core = closure(alloc, g, opens, kernel.as_slice())?;
        Ok(core)
    }
}

/// The items with which the entries begin.
fn starts(alloc: Global, g: &Grammar) -> Result<Vec<Item>, AllocError>
    ensures { IfOk result (λ v. v.items ≡ start_items g.now) }
{
    g.sound();
    let first = g.rules().len() as u32;
    let mut items = Vec::new(alloc);
    for k in 0..g.entries().len() as u32 {
        items.push(Item {
            production: first + k,
            dot: 0,
        })?;
    }
    Ok(items)
}

/// The automaton of a grammar with an entry, or None where it has too many states.
pub(crate) fn all_states(alloc: Global, g: &Grammar) -> Result<Option<Automaton>, AllocError>
    requires { 0 < length g.now.entries }
    ensures whole { IfOk result (λ found. IfSome found
        (λ a. IsWhole g.now (map (λ k. k.items) a.kernels.keys) a.cores.items a.moves.items a.origins.items)) }
    ensures none { IfOk result (λ found. IfNone found (Overflows g.now)) }
{
    let opens = openings(alloc, g)?;
    let mut automaton = Automaton {
        kernels: IndexSet::new(alloc),
        cores: Vec::new(alloc),
        moves: Vec::new(alloc),
        origins: Vec::new(alloc),
    };
    add(&mut automaton.kernels, starts(alloc, g)?)?;
    let mut rows = empty_rows(alloc, g.symbols())?;
    'states: while automaton.cores.len() < automaton.kernels.len() {
        if !automaton.expand(alloc, g, &opens, &mut rows)? {
            return Ok(None);
        }
    }
    Ok(Some(automaton))
}
