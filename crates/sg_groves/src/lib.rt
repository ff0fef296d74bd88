//! Terms in a forest: what a node is and keeps, and the definitions and laws of the terms and values that nodes hold.
#![tactic(auto)]

mod kind;
pub mod laws;
mod part;
mod values;

pub use kind::Kind;
pub use part::Part;
pub use values::Values;
