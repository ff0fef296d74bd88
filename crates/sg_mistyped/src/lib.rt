//! All mismatches of types of a specification, each with the type that is wanted and the one that is there.
#![tactic(auto)]

mod bodies;
mod exprs;
pub mod laws;
mod mistyped;
mod patterns;

pub use bodies::mistypes;
pub use mistyped::{Mistyped, Wanted};
