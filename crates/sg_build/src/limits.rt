// Counts of terms, and the limits of a buffer's term.
ghost use Rattle.std.specs.Prelude.{◌≤◌, ◌↔◌, IsTrue};

use sg_kinds::limits::{DEPTH, NODES};

/// How many nodes a term has, leaves among them, and how deep it is, each as far as the greatest usize.
#[derive(Clone, Copy, Debug, PartialEq, Eq)]
pub struct Counts {
    pub nodes: usize,
    pub depth: usize,
}

/// Whether these counts are in the limits.
pub fn are_within(nodes: usize, depth: usize) -> bool
    ensures { IsTrue result ↔ (nodes ≤ 65536) × (depth ≤ 1024) }
{
    nodes <= NODES && depth <= DEPTH
}
