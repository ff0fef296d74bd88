//! The two ways along a history.

/// The way along a history.
#[derive(Clone, Copy)]
pub enum Direction {
    /// to what was before the newest change
    Back,
    /// to what was after the next change of the future
    Forth,
}
