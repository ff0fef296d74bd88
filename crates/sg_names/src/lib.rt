//! What the names of a specification mean, by tables of what its declarations define.
#![tactic(auto)]

pub mod callables;
pub mod groups;
pub mod heads;
pub mod index;
pub mod laws;
pub mod names;
pub mod occurrences;
pub mod table;
