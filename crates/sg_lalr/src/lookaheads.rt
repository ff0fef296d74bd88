//! The lookaheads of the items of all states.
ghost use Rattle.std.specs.Prelude.{◌≡◌, ℕ, suc, ◌+◌, ◌<◌, ◌≤◌, ◌↔◌, List, Some, length, map, slice_index, IfOk, IfSome, IfNone, OnOk, IsTrue};
ghost use Rattle.sg_sets.specs.Rows.{Holds, SameShape};
ghost use Rattle.sg_lalr.specs.Closure.{InRange, HasLeft};
ghost use Rattle.sg_lalr.specs.Items.{Item, item, Before, symbol_of};
ghost use Rattle.sg_grammar.specs.Derives.{AllProductive};
ghost use Rattle.sg_lalr.specs.Automaton.{moves_at, goto, IsSorted, IsWhole};
ghost use Rattle.sg_lalr.specs.Least.{Grown};
ghost use Rattle.sg_lalr.specs.Lefts.{AreLefts};
ghost use Rattle.sg_lalr.specs.Firsts.{First, IsNullable};
ghost use Rattle.sg_lalr.specs.Lookaheads.{node, node_at, rest_of, BeginsWith, IsStart, IsLaid, OpensTo, FlowsTo, Gives, AreLookaheads};
ghost use Rattle.sg_lalr.specs.Slots.{AreSlots, IsOneEach, OfSome, Joined, Gained};

use crate::firsts::{first_of, firsts};
use crate::items::Item;
use crate::layout::{Layout, lay};
use crate::least_set::{has_all, least_set};
use crate::lefts::{lefts, of_symbol};
use crate::moves::symbol_of;
use crate::node_rows::NodeRows;
use crate::places::{leads_to, place_of};
use crate::slots::all_slots;
use crate::states::{Automaton, Move};
use sg_grammar::Grammar;
use sg_kinds::row::Row;
use sg_sets::{BitSet, Rows};
use std::alloc::{AllocError, Global};

/// An item of a state.
#[derive(Clone, Copy)]
pub struct Node {
    pub state: u32,
    pub item: Item,
}

/// What stands behind the symbol behind the dot.
fn rest_of<'a>(g: &'a Grammar, item: Item) -> &'a [u32]
    requires { InRange g.now item }
    ensures { result.now ≡ rest_of g.now item }
{
    let right = g.right(item.production);
    let at = item.dot as usize;
    if at < right.len() {
        &right[at + 1..]
    } else {
        &right[right.len()..]
    }
}

/// The beginning of a production.
fn beginning(q: u32) -> Item
    ensures { result ≡ item q 0 }
{
    Item {
        production: q,
        dot: 0,
    }
}

/// Whether an item begins an entry.
fn is_start(g: &Grammar, node: Node) -> bool
    ensures { IsTrue result ↔ IsStart g.now node }
{
    node.state == 0 && node.item.dot == 0 && g.rules().len() <= node.item.production as usize
}

/// Links the row of a node to that of the node of an item between two places, where the items rise.
fn link_item(
    nodes: &[Node],
    slots: &[usize],
    from: usize,
    to: usize,
    a: usize,
    item: Item,
    links: &mut Vec<(usize, usize)>,
) -> Result<(), AllocError>
    requires order { from ≤ to }
    requires to { to ≤ length nodes.now }
    requires slots { length slots.now ≡ length nodes.now }
    requires there { a < length nodes.now }
    requires rising { (m n : ℕ) → from ≤ m → m < n → n < to
        → Before (node_at nodes.now m).item (node_at nodes.now n).item }
    ensures { OnOk result (Joined links.old.items links.new.items slots.now a
        (λ c. (from ≤ c) × (c < to) × ((node_at nodes.now c).item ≡ item))) }
{
    let b = place_of(nodes, from, to, item);
    if b < to && nodes[b].item == item {
        links.push((slots[a], slots[b]))?;
    }
    Ok(())
}

/// The row of the nodes between two places that begin productions of a symbol, where all its productions begin there.
fn begun_slot(
    g: &Grammar,
    nodes: &[Node],
    slots: &[usize],
    from: usize,
    to: usize,
    x: u32,
    lefts: &[Vec<u32>],
) -> Option<usize>
    requires order { from ≤ to }
    requires to { to ≤ length nodes.now }
    requires slots { length slots.now ≡ length nodes.now }
    requires rising { (m n : ℕ) → from ≤ m → m < n → n < to
        → Before (node_at nodes.now m).item (node_at nodes.now n).item }
    requires lefts { AreLefts g.now.rules (map (λ k. k.items) lefts.now) }
    requires begun { (q : ℕ) → HasLeft g.now.rules x q
        → (c : ℕ) × (from ≤ c) × (c < to) × ((node_at nodes.now c).item ≡ item q 0) }
    requires one { IsOneEach g.now nodes.now from to slots.now }
    ensures some { IfSome result (λ s. (y : ℕ)
        → OfSome slots.now (λ c. (from ≤ c) × (c < to) × BeginsWith g.now (node_at nodes.now c).item x) y ↔ (y ≡ s)) }
    ensures none { IfNone result ((c : ℕ) → BeginsWith g.now (node_at nodes.now c).item x → ⊥) }
{
    let Some(q) = of_symbol(lefts, x).first() else {
        return None;
    };
    let b = place_of(nodes, from, to, beginning(*q));
    if b < to { Some(slots[b]) } else { None }
}

/// Which symbols derive no tokens, the terminals with which each symbol begins, and its productions.
#[derive(Drop)]
struct Beginnings {
    nullable: BitSet,
    firsts: Rows,
    lefts: Vec<Vec<u32>>,
}

/// The lookaheads of the rows so far, and the links along which they flow.
#[derive(Drop)]
struct Flow {
    rows: Rows,
    links: Vec<(usize, usize)>,
}

/// The items of all states with their lookaheads.
#[derive(Drop)]
pub(crate) struct Lookaheads {
    pub(crate) layout: Layout,
    pub(crate) rows: NodeRows,
}

/// Gives the beginnings of the productions of a node's symbol their lookaheads.
fn open_node(
    alloc: Global,
    g: &Grammar,
    begins: &Beginnings,
    layout: &Layout,
    slots: &[usize],
    a: usize,
    x: u32,
    flow: &mut Flow,
) -> Result<(), AllocError>
    requires there { a < length layout.now.nodes.items }
    requires symbol { symbol_of g.now (node_at layout.now.nodes.items a).item ≡ Some x }
    requires range { InRange g.now (node_at layout.now.nodes.items a).item }
    requires laid { (cores : List (List Item)) × IsLaid cores layout.now.nodes.items layout.now.firsts.items }
    requires nullable { IsNullable g.now begins.now.nullable }
    requires count { length begins.now.firsts.rows ≡ g.now.symbols }
    requires width { begins.now.firsts.width ≡ flow.old.rows.width }
    requires firsts { (X u : ℕ) → Holds begins.now.firsts.rows X u ↔ ((X < g.now.symbols) × First g.now X u) }
    requires slots { AreSlots g.now layout.now.nodes.items
        (length layout.now.nodes.items) slots.now (length flow.old.rows.rows) }
    requires one { IsOneEach g.now layout.now.nodes.items
        (slice_index layout.now.firsts.items (node_at layout.now.nodes.items a).state)
        (slice_index layout.now.firsts.items (suc (node_at layout.now.nodes.items a).state)) slots.now }
    requires begun { (q : ℕ) → HasLeft g.now.rules x q → (c : ℕ) × (c < length layout.now.nodes.items)
        × (node_at layout.now.nodes.items c ≡ node (node_at layout.now.nodes.items a).state (item q 0)) }
    requires lefts { AreLefts g.now.rules (map (λ k. k.items) begins.now.lefts.items) }
    requires rising { (s m n : ℕ) → suc s < length layout.now.firsts.items → slice_index layout.now.firsts.items s ≤ m
        → m < n → n < slice_index layout.now.firsts.items (suc s)
        → Before (node_at layout.now.nodes.items m).item (node_at layout.now.nodes.items n).item }
    ensures shape { OnOk result (SameShape flow.old.rows flow.new.rows) }
    ensures links { OnOk result (Joined flow.old.links.items flow.new.links.items slots.now a
        (λ c. OpensTo g.now layout.now.nodes.items a c
        × Grown g.now.rules 0 (rest_of g.now (node_at layout.now.nodes.items a).item))) }
    ensures seeds { OnOk result (Gained flow.old.rows.rows flow.new.rows.rows slots.now
        (Gives g.now layout.now.nodes.items a)) }
{
    g.sound();
    let node = layout.nodes[a];
    let rest = rest_of(g, node.item);
    let from = layout.firsts[node.state as usize];
    let to = layout.firsts[node.state as usize + 1];
    let Some(slot) = begun_slot(g, &layout.nodes, slots, from, to, x, &begins.lefts) else {
        return Ok(());
    };
    let first = first_of(alloc, &begins.nullable, &begins.firsts, rest)?;
    flow.rows.union_row(slot, &first);
    if has_all(&begins.nullable, rest) {
        flow.links.push((slots[a], slot))?;
    }
    Ok(())
}

/// Where the moves of a state lead on a symbol.
fn goto_of(moves: &[Row<Move>], state: u32, x: u32) -> u32
    requires there { state < length moves.now }
    requires sorted { IsSorted (moves_at moves.now state) }
    ensures { result ≡ goto moves.now state x }
{
    leads_to(moves[state as usize].as_slice(), x)
}

/// Lets the lookaheads of a node flow to the nodes that have them too, and gives its symbol's productions theirs.
fn link_node(
    alloc: Global,
    g: &Grammar,
    begins: &Beginnings,
    automaton: &Automaton,
    layout: &Layout,
    slots: &[usize],
    a: usize,
    flow: &mut Flow,
) -> Result<(), AllocError>
    requires there { a < length layout.now.nodes.items }
    requires whole { IsWhole g.now
        (map (λ k. k.items) automaton.now.kernels.keys) automaton.now.cores.items automaton.now.moves.items
        automaton.now.origins.items }
    requires laid { IsLaid automaton.now.cores.items layout.now.nodes.items layout.now.firsts.items }
    requires nullable { IsNullable g.now begins.now.nullable }
    requires count { length begins.now.firsts.rows ≡ g.now.symbols }
    requires width { begins.now.firsts.width ≡ flow.old.rows.width }
    requires firsts { (X u : ℕ) → Holds begins.now.firsts.rows X u ↔ ((X < g.now.symbols) × First g.now X u) }
    requires slots { AreSlots g.now layout.now.nodes.items
        (length layout.now.nodes.items) slots.now (length flow.old.rows.rows) }
    requires one { (t : ℕ) → t < length automaton.now.cores.items → IsOneEach g.now layout.now.nodes.items
        (slice_index layout.now.firsts.items t) (slice_index layout.now.firsts.items (suc t)) slots.now }
    requires lefts { AreLefts g.now.rules (map (λ k. k.items) begins.now.lefts.items) }
    ensures shape { OnOk result (SameShape flow.old.rows flow.new.rows) }
    ensures links { OnOk result (Joined flow.old.links.items flow.new.links.items slots.now a
        (FlowsTo g.now automaton.now.moves.items layout.now.nodes.items a)) }
    ensures seeds { OnOk result (Gained flow.old.rows.rows flow.new.rows.rows slots.now
        (Gives g.now layout.now.nodes.items a)) }
{
    g.sound();
    let node = layout.nodes[a];
    let Some(x) = symbol_of(g, node.item) else {
        return Ok(());
    };
    let to = goto_of(&automaton.moves, node.state, x) as usize;
    let moved = Item {
        production: node.item.production,
        dot: node.item.dot + 1,
    };
    link_item(
        &layout.nodes,
        slots,
        layout.firsts[to],
        layout.firsts[to + 1],
        a,
        moved,
        &mut flow.links,
    )?;
    if x >= g.terminals() {
        open_node(alloc, g, begins, layout, slots, a, x, flow)?;
    }
    Ok(())
}

/// Gives the beginnings of the entries the end as lookahead.
fn seed_starts(g: &Grammar, nodes: &[Node], slots: &[usize], rows: &mut Rows)
    requires slots { AreSlots g.now nodes.now (length nodes.now) slots.now (length rows.old.rows) }
    requires width { 0 < rows.old.width }
    ensures shape { SameShape rows.old rows.new }
    ensures gains { Gained rows.old.rows rows.new.rows slots.now
        (λ c u. IsStart g.now (node_at nodes.now c) × (u ≡ 0)) }
{
    for (a, node) in nodes.iter().enumerate() {
        if is_start(g, *node) {
            rows.insert(slots[a], 0);
        }
    }
}

/// The lookaheads of all items of all states, where each symbol derives some tokens.
pub(crate) fn all_lookaheads(
    alloc: Global,
    g: &Grammar,
    automaton: &Automaton,
) -> Result<Lookaheads, AllocError>
    requires productive { AllProductive g.now }
    requires entry { 0 < length g.now.entries }
    requires whole { IsWhole g.now
        (map (λ k. k.items) automaton.now.kernels.keys) automaton.now.cores.items automaton.now.moves.items
        automaton.now.origins.items }
    ensures laid { IfOk result (λ l. IsLaid automaton.now.cores.items l.layout.nodes.items l.layout.firsts.items) }
    ensures count { IfOk result (λ l. length l.rows.rows ≡ length l.layout.nodes.items) }
    ensures width { IfOk result (λ l. l.rows.width ≡ g.now.terminals) }
    ensures exact { IfOk result (λ l. AreLookaheads g.now automaton.now.moves.items l.layout.nodes.items l.rows.rows) }
{
    g.sound();
    let nullable = least_set(alloc, g, 0)?;
    let firsts = firsts(alloc, g, &nullable)?;
    let lefts = lefts(alloc, g)?;
    let begins = Beginnings {
        nullable,
        firsts,
        lefts,
    };
    let layout = lay(alloc, &automaton.cores)?;
    let slots = all_slots(alloc, g, &automaton.cores, &layout)?;
    let count = layout.nodes.len();
    let mut flow = Flow {
        rows: Rows::new(alloc, slots.count, g.terminals() as usize)?,
        links: Vec::with_capacity(alloc, count)?,
    };
    seed_starts(g, &layout.nodes, &slots.of, &mut flow.rows);
    for a in 0..count {
        link_node(
            alloc, g, &begins, automaton, &layout, &slots.of, a, &mut flow,
        )?;
    }
    let Flow { mut rows, links } = flow;
    rows.flow(&links);
    Ok(Lookaheads {
        layout,
        rows: NodeRows::new(slots.of, rows),
    })
}
