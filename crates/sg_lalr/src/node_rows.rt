//! `NodeRows`, the lookaheads of nodes in rows that some of them share.
ghost use Rattle.std.specs.Prelude.{◌≡◌, ◌<◌, ◌↔◌, length, map, All, IsTrue};
ghost use Rattle.sg_sets.specs.Rows.{Holds, row_of, table};

use sg_sets::{BitSet, Rows};
use std::marker::Model;

/// For each node a set of numbers below one width.
#[derive(Drop)]
pub(crate) struct NodeRows {
    slots: Vec<usize>,
    rows: Rows,
}

impl Model for NodeRows {
    ghost use Rattle.std.specs.Prelude.{◌<◌, All, length, map};
    ghost use Rattle.sg_sets.specs.Rows.{Table, table, row_of};

    ghost Value = { Table };

    ghost view = { λ r. table r.rows.width (map (row_of r.rows.rows) r.slots.items) };

    ghost invariant = { λ r. All (λ s. s < length r.rows.rows) r.slots.items };
}

impl NodeRows {
    /// The sets of nodes, whose numbers of rows these are.
    pub(crate) fn new(slots: Vec<usize>, rows: Rows) -> NodeRows
        requires { All (λ s. s < length rows.rows) slots.items }
        ensures { result ≡ table rows.width (map (row_of rows.rows) slots.items) }
    {
        NodeRows { slots, rows }
    }

    /// The set of a node.
    pub(crate) fn row(&self, m: usize) -> &BitSet
        requires { m < length self.now.rows }
        ensures row { result.now ≡ row_of self.now.rows m }
        ensures width { length result.now ≡ self.now.width }
    {
        self.rows.row(self.slots[m])
    }

    /// Whether the set of a node has a number.
    pub(crate) fn holds(&self, m: usize, u: usize) -> bool
        ensures { IsTrue result ↔ Holds self.now.rows m u }
    {
        m < self.slots.len() && self.rows.holds(self.slots[m], u)
    }
}
