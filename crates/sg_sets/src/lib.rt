//! Sets of numbers as rows of bits, rows that flow along links, and relations with their closure and
//! their least shortest cycle.
#![tactic(auto)]

mod bit_set;
mod closing;
mod cycle;
mod relation;
mod rows;
mod words;

pub use bit_set::BitSet;
pub use relation::Relation;
pub use rows::Rows;
