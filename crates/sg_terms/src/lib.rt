//! Typed terms in a forest, with a stored value for each attribute and local of their nodes.
#![tactic(auto)]

mod grown;
mod occurrences;
mod parts;
mod rows;
mod terms;

pub use terms::{Renewed, Terms};
