//! The least conflict of all states.
ghost use Rattle.std.specs.Prelude.{◌≡◌, ℕ, suc, ◌<◌, ◌≤◌, List, length, slice_index, map, reverse, IfOk, IfSome, IfNone};
ghost use Rattle.sg_grammar.specs.Derives.{AllProductive};
ghost use Rattle.sg_lalr.specs.Automaton.{origin_at, IsWhole, FoundBy};
ghost use Rattle.sg_lalr.specs.Lookaheads.{IsLaid, AreLookaheads};
ghost use Rattle.sg_lalr.specs.Clashes.{Clashes, IsClearBelow};
ghost use Rattle.sg_lalr.specs.Conflict.{LeastConflict, IsQuiet};

use crate::conflict::{first_but, least_clash};
use crate::items::Item;
use crate::lookaheads::Lookaheads;
use crate::states::{Automaton, Origin};
use sg_grammar::Grammar;
use sg_kinds::row::Row;
use sg_sets::BitSet;
use std::alloc::{AllocError, Global};

/// A conflict: a prefix, a terminal, the first item that acts on it and the first that acts otherwise.
#[derive(Drop)]
pub(crate) struct Found {
    pub(crate) prefix: Row<u32>,
    pub(crate) terminal: u32,
    pub(crate) first: Item,
    pub(crate) second: Item,
}

/// The prefix by which a state was found first.
fn prefix_of(alloc: Global, origins: &[Origin], state: usize) -> Result<Vec<u32>, AllocError>
    requires there { state ≤ length origins.now }
    requires back { (k : ℕ) → k < length origins.now → (origin_at origins.now k).state ≤ k }
    ensures { IfOk result (λ v. (w : List ℕ) × FoundBy origins.now state w × (v.items ≡ reverse w)) }
{
    let mut symbols = Vec::new(alloc);
    let mut at = state;
    'origins: while at > 0 {
        let origin = origins[at - 1];
        symbols.push(origin.symbol)?;
        at = origin.state as usize;
    }
    symbols.reverse();
    Ok(symbols)
}

/// The conflict of a state on its least terminal that has one.
fn describe(
    alloc: Global,
    g: &Grammar,
    automaton: &Automaton,
    looks: &Lookaheads,
    state: usize,
    terminal: u32,
) -> Result<Found, AllocError>
    requires productive { AllProductive g.now }
    requires entry { 0 < length g.now.entries }
    requires whole { IsWhole g.now
        (map (λ k. k.items) automaton.now.kernels.keys) automaton.now.cores.items automaton.now.moves.items
        automaton.now.origins.items }
    requires laid { IsLaid automaton.now.cores.items looks.now.layout.nodes.items looks.now.layout.firsts.items }
    requires exact { AreLookaheads g.now automaton.now.moves.items looks.now.layout.nodes.items looks.now.rows.rows }
    requires state { state < length automaton.now.cores.items }
    requires clear { IsClearBelow g.now looks.now.layout.nodes.items looks.now.layout.firsts.items looks.now.rows.rows
        state }
    requires clashes { Clashes g.now looks.now.layout.nodes.items looks.now.rows.rows
        (slice_index looks.now.layout.firsts.items state)
        (slice_index looks.now.layout.firsts.items (suc state)) terminal }
    requires least { (t : ℕ) → Clashes g.now looks.now.layout.nodes.items looks.now.rows.rows
        (slice_index looks.now.layout.firsts.items state) (slice_index looks.now.layout.firsts.items (suc state)) t
        → terminal ≤ t }
    ensures { IfOk result (λ f. LeastConflict g.now (reverse f.prefix) f.terminal f.first f.second) }
{
    g.sound();
    let nodes = looks.layout.nodes.as_slice();
    let from = looks.layout.firsts[state];
    let to = looks.layout.firsts[state + 1];
    let (first, deed) = first_but(g, nodes, &looks.rows, from, to, terminal, None).unwrap();
    let (second, _) = first_but(g, nodes, &looks.rows, from, to, terminal, Some(deed)).unwrap();
    let prefix = prefix_of(alloc, &automaton.origins, state)?;
    Ok(Found {
        prefix: Row::new(prefix),
        terminal,
        first: looks.layout.nodes[first].item,
        second: looks.layout.nodes[second].item,
    })
}

/// The least conflict, or None where there is none.
pub(crate) fn least_conflict(
    alloc: Global,
    g: &Grammar,
    automaton: &Automaton,
    looks: &Lookaheads,
) -> Result<Option<Found>, AllocError>
    requires productive { AllProductive g.now }
    requires entry { 0 < length g.now.entries }
    requires whole { IsWhole g.now
        (map (λ k. k.items) automaton.now.kernels.keys) automaton.now.cores.items automaton.now.moves.items
        automaton.now.origins.items }
    requires laid { IsLaid automaton.now.cores.items looks.now.layout.nodes.items looks.now.layout.firsts.items }
    requires count { length looks.now.rows.rows ≡ length looks.now.layout.nodes.items }
    requires width { looks.now.rows.width ≡ g.now.terminals }
    requires exact { AreLookaheads g.now automaton.now.moves.items looks.now.layout.nodes.items looks.now.rows.rows }
    ensures none { IfOk result (λ found. IfNone found (IsQuiet g.now)) }
    ensures some { IfOk result (λ found. IfSome found (λ f. LeastConflict g.now
        (reverse f.prefix) f.terminal f.first f.second)) }
{
    g.sound();
    let mut taken = BitSet::new(alloc, g.terminals() as usize)?;
    for state in 0..automaton.cores.len() {
        let from = looks.layout.firsts[state];
        let to = looks.layout.firsts[state + 1];
        let nodes = looks.layout.nodes.as_slice();
        let terminal = least_clash(g, nodes, &looks.rows, from, to, &mut taken);
        if terminal < g.terminals() as usize {
            let found = describe(alloc, g, automaton, looks, state, terminal as u32)?;
            return Ok(Some(found));
        }
    }
    Ok(None)
}
