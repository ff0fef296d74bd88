//! Conflicts within a state.
ghost use Rattle.std.specs.Prelude.{◌≡◌, ◌≢◌, ℕ, ◌<◌, ◌≤◌, ◌↔◌, ◌⊎◌, Some, length, IfSome, IfNone, IsTrue};
ghost use Rattle.sg_sets.specs.Members.{Has};
ghost use Rattle.sg_lalr.specs.Closure.{InRange};
ghost use Rattle.sg_lalr.specs.Items.{symbol_of};
ghost use Rattle.sg_lalr.specs.Lookaheads.{node_at};
ghost use Rattle.sg_lalr.specs.Clashes.{Does, Clashes, IsApart, ShiftsThere};

use crate::items::Item;
use crate::lookaheads::Node;
use crate::moves::symbol_of;
use crate::node_rows::NodeRows;
use sg_grammar::Grammar;
use sg_sets::BitSet;

/// What an item does on a terminal: it shifts it, or reduces by a production.
#[derive(Clone, Copy, Debug, PartialEq, Eq)]
pub enum Deed {
    Shifts,
    Reduces(u32),
}

/// What a node does on a terminal.
fn deed_of(g: &Grammar, nodes: &[Node], rows: &NodeRows, m: usize, t: u32) -> Option<Deed>
    requires there { m < length nodes.now }
    requires range { InRange g.now (node_at nodes.now m).item }
    ensures some { IfSome result (Does g.now nodes.now rows.now.rows t m) }
    ensures none { IfNone result ((a : Deed) → Does g.now nodes.now rows.now.rows t m a → ⊥) }
{
    let item = nodes[m].item;
    match symbol_of(g, item) {
        Some(x) if x == t => Some(Deed::Shifts),
        Some(_) => None,
        None if rows.holds(m, t as usize) => Some(Deed::Reduces(item.production)),
        None => None,
    }
}

/// The terminal behind an item's dot.
fn terminal_of(g: &Grammar, item: Item) -> Option<u32>
    requires { InRange g.now item }
    ensures some { IfSome result (λ x. (symbol_of g.now item ≡ Some x) × (x < g.now.terminals)) }
    ensures none { IfNone result ((x : ℕ) → x < g.now.terminals → symbol_of g.now item ≡ Some x → ⊥) }
{
    match symbol_of(g, item) {
        Some(x) if x < g.terminals() => Some(x),
        _ => None,
    }
}

/// Puts the terminals that are shifted between two places into a set.
fn shifted(g: &Grammar, nodes: &[Node], from: usize, to: usize, set: &mut BitSet)
    requires to { to ≤ length nodes.now }
    requires order { from ≤ to }
    requires range { (m : ℕ) → m < length nodes.now → InRange g.now (node_at nodes.now m).item }
    requires width { length set.old ≡ g.now.terminals }
    ensures width { length set.new ≡ g.now.terminals }
    ensures gains { (t : ℕ) → Has set.new t ↔ (Has set.old t
        ⊎ ((t < g.now.terminals) × ShiftsThere g.now nodes.now from to t)) }
{
    for m in from..to {
        if let Some(x) = terminal_of(g, nodes[m].item) {
            set.insert(x as usize);
        }
    }
}

/// The lesser of a number and another, where there is one.
fn lesser(best: usize, found: Option<usize>) -> usize
    ensures least { IfSome found (λ x. result ≤ x) }
    ensures below { result ≤ best }
    ensures either { (result ≡ best) ⊎ (found ≡ Some result) }
{
    match found {
        Some(x) if x < best => x,
        _ => best,
    }
}

/// The least terminal on which nodes between two places do different things, or the number of terminals where there
/// is none.
pub(crate) fn least_clash(
    g: &Grammar,
    nodes: &[Node],
    rows: &NodeRows,
    from: usize,
    to: usize,
    taken: &mut BitSet,
) -> usize
    requires to { to ≤ length nodes.now }
    requires order { from ≤ to }
    requires range { (m : ℕ) → m < length nodes.now → InRange g.now (node_at nodes.now m).item }
    requires apart { IsApart g.now nodes.now from to }
    requires count { length rows.now.rows ≡ length nodes.now }
    requires rows { rows.now.width ≡ g.now.terminals }
    requires width { length taken.old ≡ g.now.terminals }
    ensures width { length taken.new ≡ g.now.terminals }
    ensures least { (t : ℕ) → Clashes g.now nodes.now rows.now.rows from to t → result ≤ t }
    ensures clash { result < g.now.terminals → Clashes g.now nodes.now rows.now.rows from to result }
    ensures within { result ≤ g.now.terminals }
{
    taken.clear();
    shifted(g, nodes, from, to, taken);
    let mut best = g.terminals() as usize;
    for m in from..to {
        if symbol_of(g, nodes[m].item).is_none() {
            best = lesser(best, taken.first_shared(rows.row(m)));
            taken.union(rows.row(m));
        }
    }
    best
}

/// Whether a deed is another than the one to be left out.
fn differs(deed: Deed, but: Option<Deed>) -> bool
    ensures { IsTrue result ↔ (Some deed ≢ but) }
{
    match but {
        Some(other) => deed != other,
        None => true,
    }
}

/// What a node does on a terminal, where it is not what is to be left out.
fn other_deed(
    g: &Grammar,
    nodes: &[Node],
    rows: &NodeRows,
    m: usize,
    t: u32,
    but: Option<Deed>,
) -> Option<Deed>
    requires there { m < length nodes.now }
    requires range { InRange g.now (node_at nodes.now m).item }
    ensures some { IfSome result (Does g.now nodes.now rows.now.rows t m) }
    ensures other { IfSome result (λ a. Some a ≢ but) }
    ensures none { IfNone result ((a : Deed) → Does g.now nodes.now rows.now.rows t m a → Some a ≡ but) }
{
    match deed_of(g, nodes, rows, m, t) {
        Some(deed) if differs(deed, but) => Some(deed),
        _ => None,
    }
}

/// The first node between two places that does something on a terminal which is not to be left out.
pub(crate) fn first_but(
    g: &Grammar,
    nodes: &[Node],
    rows: &NodeRows,
    from: usize,
    to: usize,
    t: u32,
    but: Option<Deed>,
) -> Option<(usize, Deed)>
    requires to { to ≤ length nodes.now }
    requires order { from ≤ to }
    requires range { (m : ℕ) → m < length nodes.now → InRange g.now (node_at nodes.now m).item }
    ensures within { IfSome result (λ r. (from ≤ r.0) × (r.0 < to)) }
    ensures some { IfSome result (λ r. Does g.now nodes.now rows.now.rows t r.0 r.1) }
    ensures other { IfSome result (λ r. Some r.1 ≢ but) }
    ensures first { IfSome result (λ r. (k : ℕ) (a : Deed) → from ≤ k → k < r.0
        → Does g.now nodes.now rows.now.rows t k a → Some a ≡ but) }
    ensures none { IfNone result ((k : ℕ) (a : Deed) → from ≤ k → k < to → Does g.now nodes.now rows.now.rows t k a
        → Some a ≡ but) }
{
    for m in from..to {
        if let Some(deed) = other_deed(g, nodes, rows, m, t, but) {
            return Some((m, deed));
        }
    }
    None
}
