//! The first unknown name, the first variable that is bound twice and the first wrong number of parts, by one walk
//! along the uses of names.
#![tactic(auto)]

pub mod found;
mod known;
pub mod laws;
mod scope;
mod walk;
pub mod walked;
