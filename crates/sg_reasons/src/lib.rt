//! Why the attributes of a cycle depend on each other: its steps, each with its cause, and the reasons of the causes,
//! each once.
#![tactic(auto)]

mod checking;
mod explaining;
pub mod laws;
mod pairs;
mod scene;
mod seeking;
mod why;

pub use explaining::path;
pub use why::{Cause, Path, Reason, Step, Way};
