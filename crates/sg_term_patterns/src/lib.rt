//! The reading of patterns.
#![tactic(auto)]

mod pattern;

pub use pattern::read_pattern;
