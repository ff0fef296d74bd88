//! The tables of names, made of declarations.
#![tactic(auto)]

mod definitions;
mod heads;
mod owners;
pub mod tables;
