//! The reading of declarations, and parts of declarations, that hold no expression.
#![tactic(auto)]

pub mod attributes;
pub mod operators;
pub mod parts;
pub mod precedence;
mod repeated;
pub mod schemes;
pub mod single;
pub mod typed;
