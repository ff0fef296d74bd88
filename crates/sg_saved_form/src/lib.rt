//! The form of saved files: their reading byte by byte, without a specification.
#![tactic(auto)]

mod kinds;
pub mod laws;
mod notes;
mod reader;
mod reading;

pub use notes::{Note, Noted, Outline};
pub use reading::{FormFault, outline_of};
