//! Items without lookaheads.

/// A production with a dot in its right side, before which so many symbols stand.
#[derive(Clone, Copy, Debug, PartialEq, Eq, Hash)]
pub struct Item {
    pub production: u32,
    pub dot: u32,
}
