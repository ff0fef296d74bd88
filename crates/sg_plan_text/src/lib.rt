//! How an accepted specification is evaluated and parsed, as lines: the visits of its phyla and their steps, its entries
//! and the number of its states.
#![tactic(auto)]

mod entries;
mod plan;
mod steps;
mod visits;

pub use plan::write_plan;
