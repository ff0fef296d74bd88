//! The rows of nodes: those that begin productions of one symbol in one state share one.
ghost use Rattle.std.specs.Prelude.{◌≡◌, ℕ, suc, ◌+◌, ◌^◌, ◌<◌, ◌≤◌, ◌⊎◌, length, slice_index, IfOk, IfSome, IfNone, OnOk};
ghost use Rattle.sg_lalr.specs.Lookaheads.{node_at, BeginsWith, IsLaid};
ghost use Rattle.sg_lalr.specs.Slots.{AreSlots, IsOneEach, GetsNext, GetsKnown, GetsFirst};

use crate::items::Item;
use crate::layout::Layout;
use crate::lookaheads::Node;
use sg_grammar::Grammar;
use sg_kinds::row::Row;
use std::alloc::{AllocError, Global};

/// For each node the number of its row, and how many rows there are.
#[derive(Drop)]
pub(crate) struct Slots {
    pub(crate) of: Vec<usize>,
    pub(crate) count: usize,
}

/// The symbol whose production an item begins.
fn begun_by(g: &Grammar, item: Item) -> Option<u32>
    ensures some { IfSome result (BeginsWith g.now item) }
    ensures within { IfSome result (λ X. X < g.now.symbols) }
    ensures none { IfNone result ((X : ℕ) → BeginsWith g.now item X → ⊥) }
{
    g.sound();
    let rules = g.rules();
    if item.dot == 0 && (item.production as usize) < rules.len() {
        Some(rules[item.production as usize].left)
    } else {
        None
    }
}

/// The row of a node, where `at` has for each symbol one more than that of the nodes of its state that begin its
/// productions, or at most `base` where there is none.
fn slot_of(g: &Grammar, item: Item, at: &mut Vec<usize>, base: usize, next: usize) -> usize
    requires count { length at.old.items ≡ g.now.symbols }
    requires room { next + 1 < 2 ^ 64 }
    ensures count { length at.new.items ≡ g.now.symbols }
    ensures gets { GetsNext g.now item at.old.items at.new.items next result
        ⊎ (GetsKnown g.now item base at.old.items at.new.items result
        ⊎ GetsFirst g.now item base at.old.items at.new.items next result) }
{
    let Some(x) = begun_by(g, item) else {
        return next;
    };
    let known = at[x as usize];
    if base < known {
        return known - 1;
    }
    at[x as usize] = next + 1;
    next
}

/// Gives the nodes of a state their rows. What `at` has from earlier states is at most the number of rows so far.
fn add_state(
    g: &Grammar,
    nodes: &[Node],
    from: usize,
    to: usize,
    at: &mut Vec<usize>,
    slots: &mut Slots,
) -> Result<(), AllocError>
    requires order { from ≤ to }
    requires to { to ≤ length nodes.now }
    requires here { (b c : ℕ) → from ≤ b → b < to → from ≤ c → c < to
        → (node_at nodes.now b).state ≡ (node_at nodes.now c).state }
    requires slots { AreSlots g.now nodes.now from slots.old.of.items slots.old.count }
    requires symbols { length at.old.items ≡ g.now.symbols }
    requires past { (X : ℕ) → slice_index at.old.items X ≤ slots.old.count }
    ensures slots { OnOk result (AreSlots g.now nodes.now to slots.new.of.items slots.new.count) }
    ensures one { OnOk result (IsOneEach g.now nodes.now from to slots.new.of.items) }
    ensures keeps { OnOk result ((m : ℕ) → m < from
        → slice_index slots.new.of.items m ≡ slice_index slots.old.of.items m) }
    ensures symbols { OnOk result (length at.new.items ≡ g.now.symbols) }
    ensures past { OnOk result ((X : ℕ) → slice_index at.new.items X ≤ slots.new.count) }
{
    let base = slots.count;
    for m in from..to {
        let slot = slot_of(g, nodes[m].item, at, base, slots.count);
        slots.count = slots.count.max(slot + 1);
        slots.of.push(slot)?;
    }
    Ok(())
}

/// The rows of the nodes of all states.
pub(crate) fn all_slots(
    alloc: Global,
    g: &Grammar,
    cores: &[Row<Item>],
    layout: &Layout,
) -> Result<Slots, AllocError>
    requires { IsLaid cores.now layout.now.nodes.items layout.now.firsts.items }
    ensures slots { IfOk result (λ s. AreSlots g.now layout.now.nodes.items
        (length layout.now.nodes.items) s.of.items s.count) }
    ensures one { IfOk result (λ s. (t : ℕ) → t < length cores.now → IsOneEach g.now layout.now.nodes.items
        (slice_index layout.now.firsts.items t) (slice_index layout.now.firsts.items (suc t)) s.of.items) }
{
    let mut slots = Slots {
        of: Vec::with_capacity(alloc, layout.nodes.len())?,
        count: 0,
    };
    let mut at = vec![in alloc; 0; g.symbols() as usize]?;
    for state in 0..cores.len() {
        let from = layout.firsts[state];
        let to = layout.firsts[state + 1];
        add_state(g, &layout.nodes, from, to, &mut at, &mut slots)?;
    }
    Ok(slots)
}
