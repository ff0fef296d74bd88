//! Plans as attribution reads them, and the laws by which it follows them.
#![tactic(auto)]

pub mod laws;
mod reading;

pub use reading::{steps, visit_count, visit_of};
