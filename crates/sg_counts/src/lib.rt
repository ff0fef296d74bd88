//! The faults of a specification that its declarations show by their counts and names alone: a count over its limit,
//! and a second definition where there may be one.
#![tactic(auto)]

mod crowds;
pub mod definitions;
pub mod duplicates;
pub mod laws;
pub mod limits;
