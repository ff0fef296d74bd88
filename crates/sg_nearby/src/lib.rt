//! The names of a text that are one edit away from an unknown one, and known in its place.
#![tactic(auto)]

mod edits;
pub mod nearby;
mod tries;
