//! What a text declares under a name, for faults that name one.
#![tactic(auto)]

pub mod known;
pub mod signatures;
pub mod things;
