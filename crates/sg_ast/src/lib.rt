//! The syntax trees of SSL-P, their spelling and its reading.
#![tactic(auto)]

mod chains;
pub mod decl;
pub mod expr;
pub mod firsts;
pub mod laws;
pub mod name;
pub mod number;
pub mod pattern;
pub mod remotes;
