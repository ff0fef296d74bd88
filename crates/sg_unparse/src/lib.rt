//! The page of a term: its cells, their lines, and the regions of its nodes.
#![tactic(auto)]

pub mod laws;
mod margins;
mod page;
mod schemes;
mod shown;
mod unparsing;
mod writer;

pub use margins::ons;
pub use page::{Beginning, Page, Region};
pub use schemes::{current, scheme_count};
pub use shown::{fault_text, scheme_of, write_text, write_value};
pub use unparsing::{cells, part};
