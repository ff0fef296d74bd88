//! All mismatches of a text with the type that is wanted and the type that is there, as lines.
#![tactic(auto)]

pub mod mistypes;
