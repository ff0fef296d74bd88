//! The line as which a static fault is printed.
#![tactic(auto)]

mod cycle;
mod grammar;
mod line;
mod words;

pub use cycle::write_vertex;
pub use grammar::{write_item, write_symbol};
pub use line::fault_line;
pub use words::write_line;
