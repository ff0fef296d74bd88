//! Notes on a record: a line for each part that nothing uses, and for each entry that is missed.
#![tactic(auto)]

mod places;
mod subjects;
mod words;
mod writing;

pub use writing::write_notes;
