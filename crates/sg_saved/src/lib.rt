//! Saved files: how values and held terms are written, and files read as values.
#![tactic(auto)]

mod heads;
pub mod laws;
mod misfits;
mod parts;
mod reading;
mod spelling;
mod terms;
mod values;
mod writing;

pub use reading::{OpenFault, read, read_term};
pub use spelling::spell;
pub use writing::write;
