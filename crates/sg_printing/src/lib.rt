//! The printed value of an attribute of a node of a term.
#![tactic(auto)]

mod printed;
mod reading;

pub use printed::Form;
pub use reading::{attrs_of, phylum_number, shown, text_at};
