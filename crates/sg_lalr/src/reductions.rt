//! The reductions of states: their completed items, each with its lookaheads.
ghost use Rattle.std.specs.Prelude.{◌≡◌, ℕ, suc, ◌<◌, ◌≤◌, ◌↔◌, length, slice_index, IfOk, IfSome, IfNone};
ghost use Rattle.sg_lalr.specs.Closure.{InRange};
ghost use Rattle.sg_lalr.specs.Lookaheads.{node_at, IsLaid};
ghost use Rattle.sg_lalr.specs.Reductions.{ReducesBy, DoesReduce, reductions_at};

use crate::items::Item;
use crate::lookaheads::{Lookaheads, Node};
use crate::moves::symbol_of;
use crate::node_rows::NodeRows;
use sg_grammar::Grammar;
use sg_kinds::row::Row;
use sg_sets::BitSet;
use std::alloc::{AllocError, Global};

/// A production by which a state reduces, and the terminals on which it does.
#[derive(Drop)]
pub struct Reduction {
    pub(crate) production: u32,
    pub(crate) on: BitSet,
}

/// The reductions of the nodes between two places.
fn reductions_of(
    alloc: Global,
    g: &Grammar,
    nodes: &[Node],
    rows: &NodeRows,
    from: usize,
    to: usize,
) -> Result<Vec<Reduction>, AllocError>
    requires to { to ≤ length nodes.now }
    requires order { from ≤ to }
    requires range { (m : ℕ) → m < length nodes.now → InRange g.now (node_at nodes.now m).item }
    requires count { length rows.now.rows ≡ length nodes.now }
    ensures { IfOk result (λ v. (p t : ℕ) → ReducesBy v.items p t
        ↔ DoesReduce g.now nodes.now rows.now.rows from to p t) }
{
    let mut found = Vec::new(alloc);
    for m in from..to {
        if symbol_of(g, nodes[m].item).is_none() {
            found.push(Reduction {
                production: nodes[m].item.production,
                on: rows.row(m).copy(alloc)?,
            })?;
        }
    }
    Ok(found)
}

/// The reductions of all states.
pub(crate) fn all_reductions(
    alloc: Global,
    g: &Grammar,
    cores: &[Row<Item>],
    looks: &Lookaheads,
) -> Result<Vec<Row<Reduction>>, AllocError>
    requires laid { IsLaid cores.now looks.now.layout.nodes.items looks.now.layout.firsts.items }
    requires range { (m : ℕ) → m < length looks.now.layout.nodes.items
        → InRange g.now (node_at looks.now.layout.nodes.items m).item }
    requires count { length looks.now.rows.rows ≡ length looks.now.layout.nodes.items }
    ensures count { IfOk result (λ v. length v.items ≡ length cores.now) }
    ensures each { IfOk result (λ v. (s p t : ℕ) → s < length cores.now → ReducesBy (reductions_at v.items s) p t
        ↔ DoesReduce g.now looks.now.layout.nodes.items looks.now.rows.rows
        (slice_index looks.now.layout.firsts.items s) (slice_index looks.now.layout.firsts.items (suc s)) p t) }
{
    let mut rows = Vec::with_capacity(alloc, cores.len())?;
    for state in 0..cores.len() {
        let from = looks.layout.firsts[state];
        let to = looks.layout.firsts[state + 1];
        let found = reductions_of(alloc, g, &looks.layout.nodes, &looks.rows, from, to)?;
        rows.push(Row::new(found))?;
    }
    Ok(rows)
}

/// The production by which a state reduces on a terminal.
pub(crate) fn reduced(reductions: &[Reduction], t: u32) -> Option<u32>
    ensures some { IfSome result (λ p. ReducesBy reductions.now p t) }
    ensures none { IfNone result ((p : ℕ) → ReducesBy reductions.now p t → ⊥) }
{
    for reduction in reductions {
        if reduction.on.contains(t as usize) {
            return Some(reduction.production);
        }
    }
    None
}
