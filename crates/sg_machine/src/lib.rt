//! What the shift-reduce machine does over the tables of a grammar: laws alone.
#![tactic(auto)]

pub mod laws;
