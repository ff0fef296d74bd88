//! Places of items among nodes, and of symbols among moves, in their order.
ghost use Rattle.std.specs.Prelude.{◌≡◌, ℕ, ◌<◌, ◌≤◌, ◌↔◌, length, IfSome, IfNone, IsTrue};
ghost use Rattle.sg_lalr.specs.Items.{Before};
ghost use Rattle.sg_lalr.specs.Automaton.{move_at, leads_to, IsSorted};
ghost use Rattle.sg_lalr.specs.Lookaheads.{node_at};

use crate::items::Item;
use crate::lookaheads::Node;
use crate::states::Move;

/// Whether an item stands before another in their order.
fn is_before(i: Item, j: Item) -> bool
    ensures { IsTrue result ↔ Before i j }
{
    i.production < j.production || (i.production == j.production && i.dot < j.dot)
}

/// The only place between two places, where the items rise, at which an item can stand.
pub(crate) fn place_of(nodes: &[Node], from: usize, to: usize, item: Item) -> usize
    requires order { from ≤ to }
    requires to { to ≤ length nodes.now }
    requires rising { (m n : ℕ) → from ≤ m → m < n → n < to
        → Before (node_at nodes.now m).item (node_at nodes.now n).item }
    ensures above { from ≤ result }
    ensures only { (m : ℕ) → from ≤ m → m < to → (node_at nodes.now m).item ≡ item → m ≡ result }
{
    let mut low = from;
    let mut high = to;
    'halves: while low < high {
        let middle = low + (high - low) / 2;
        if is_before(nodes[middle].item, item) {
            low = middle + 1;
        } else {
            high = middle;
        }
    }
    low
}

/// The only place in a sorted row of moves at which one on the symbol can stand.
fn place_of_move(row: &[Move], x: u32) -> usize
    requires { IsSorted row.now }
    ensures { (m : ℕ) → m < length row.now → (move_at row.now m).symbol ≡ x → m ≡ result }
{
    let mut low = 0;
    let mut high = row.len();
    'halves: while low < high {
        let middle = low + (high - low) / 2;
        if row[middle].symbol < x {
            low = middle + 1;
        } else {
            high = middle;
        }
    }
    low
}

/// Where a move on the symbol leads.
pub(crate) fn leads_to(row: &[Move], x: u32) -> u32
    requires { IsSorted row.now }
    ensures { result ≡ leads_to row.now x }
{
    let at = place_of_move(row, x);
    if at < row.len() && row[at].symbol == x {
        row[at].target
    } else {
        0
    }
}

/// Where a move on the symbol leads, or None where there is none.
pub(crate) fn move_on(row: &[Move], x: u32) -> Option<u32>
    requires { IsSorted row.now }
    ensures some { IfSome result (λ u. (k : ℕ) × (k < length row.now) × ((move_at row.now k).symbol ≡ x)
        × (u ≡ leads_to row.now x)) }
    ensures none { IfNone result ((k : ℕ) → k < length row.now → (move_at row.now k).symbol ≡ x → ⊥) }
{
    let at = place_of_move(row, x);
    if at < row.len() && row[at].symbol == x {
        Some(row[at].target)
    } else {
        None
    }
}
