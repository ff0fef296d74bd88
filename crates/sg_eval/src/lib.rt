//! Evaluation of equations and other expressions of a specification, with fuel, and the journal of what was evaluated.
#![tactic(auto)]

mod answer;
mod eval;
mod evaluator;
mod journal;
pub mod laws;
mod live;
pub mod made;
mod numbers;
mod operators;
mod patterns;
mod texts;
mod trees;

pub use evaluator::Evaluator;
pub use journal::{Instance, Journal};
