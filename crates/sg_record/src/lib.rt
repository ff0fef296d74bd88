//! The record of a specification, and the faults of its entries.
#![tactic(auto)]

mod bodies;
pub mod entries;
pub mod laws;
mod levels;
mod operators;
mod productions;
pub mod record;
mod transforms;
