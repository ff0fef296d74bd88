//! The completeness of equations: each instance that an operator owes has exactly one.
#![tactic(auto)]

mod completeness;
pub mod laws;
mod narrow;
mod owed;
mod rules_of;
pub mod targets;

pub use completeness::incomplete;
pub use narrow::is_narrow;
pub use owed::{owes, slot_count};
pub use rules_of::rules;
