//! Faults of tables and of ordering, as they are printed.
#![tactic(auto)]

pub mod items;
pub mod laws;
pub mod orders;
pub mod places;
pub mod symbols;
pub mod tables;
pub mod vertices;
