//! Shortest strings of terminals that strings of symbols derive, and the symbols that derive none.
#![tactic(auto)]

pub mod laws;
mod samples;
mod table;

pub use samples::{barren, sample};
pub use table::MOST;
