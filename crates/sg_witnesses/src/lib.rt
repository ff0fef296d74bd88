//! What shows a fault of a record: a cycle of dependencies step by step with the reasons of its steps, a sample of the
//! prefix of a conflict, the nonterminals without a sentence.
#![tactic(auto)]

pub mod cycles;
mod same;
pub mod samples;
