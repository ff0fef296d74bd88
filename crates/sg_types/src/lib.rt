//! The types of expressions and patterns, their first mismatches, and what the record keeps of them.
#![tactic(auto)]

pub mod bindings;
pub mod expr;
pub mod found;
pub mod operators;
pub mod pattern;
pub mod scope;
pub mod types;
