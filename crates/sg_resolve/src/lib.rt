//! The names of a specification, or the first fault of its names and shapes.
#![tactic(auto)]

pub mod laws;
mod resolving;
pub mod shape_laws;

pub use resolving::resolve;
