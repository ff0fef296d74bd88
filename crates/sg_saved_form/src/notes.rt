//! What is noted of a saved term.

/// What a node is: an operator, with the place behind its name, a number, a text, with the place of its last quote, or
/// a truth value.
#[derive(Clone, Copy)]
pub enum Noted {
    Operator(u32),
    Number(i64),
    Text(u32),
    Truth(bool),
}

/// A node: the place of its first byte, the number of its children, and what it is.
#[derive(Clone, Copy)]
pub struct Note {
    pub from: u32,
    pub kids: u32,
    pub what: Noted,
}

/// The nodes of a saved term in the order in which they begin, and its depth. A term without children has depth 1.
#[derive(Drop)]
pub struct Outline {
    pub notes: Vec<Note>,
    pub depth: usize,
}
