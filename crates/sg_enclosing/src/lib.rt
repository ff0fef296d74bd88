//! Attributes of enclosing nodes: the far attributes of an accepted specification have the values that they stand for.
#![tactic(auto)]

pub mod laws;
