//! The faults of shapes: of nonterminals' results, of the root, of lists and of optional phyla, and whether the
//! completing term and the placeholder of each phylum are finite and small.
#![tactic(auto)]

mod counts;
pub mod laws;
pub mod resolving;
mod shapes;
pub mod unfinished;
