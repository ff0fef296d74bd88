//! Replacement in place: every attribute has its from-scratch value again, and of the equations outside the new subterm
//! exactly those with a changed argument are evaluated.
#![tactic(auto)]

mod asked;
mod repair;
mod replacement;
mod rise;
mod start;
mod update;
mod work;

pub use replacement::{Exchange, replace};
