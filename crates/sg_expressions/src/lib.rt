//! The reading of expressions.
#![tactic(auto)]

mod expr;
mod nodes;
mod remote;

pub use expr::read_expr;
