//! The input grammar of a specification, whose symbols are numbers in their order.
#![tactic(auto)]

mod grammar;
mod named;
mod numbering;

pub use grammar::{Grammar, Made, Production};
pub use numbering::make;
