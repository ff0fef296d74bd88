//! What can be turned at a node, and where a selection can be moved.

/// A mark of a node.
#[derive(Clone, Copy, Debug, PartialEq, Eq)]
pub enum Mark {
    /// its scheme number: the next one, after the last the first
    Alternate,
    /// whether it is elided
    Elide,
}

/// What became of a selection that was to have one more element.
#[derive(Clone, Copy, Debug, PartialEq, Eq)]
pub enum Extended {
    /// it has one more
    Done,
    /// it is no element of a list
    NotInList,
    /// its last element is the list's last
    NoPlace,
}

/// A move of a selection.
#[derive(Clone, Copy, Debug, PartialEq, Eq)]
pub enum Move {
    Next,
    Prev,
    Up,
    First,
    Sibling,
}
