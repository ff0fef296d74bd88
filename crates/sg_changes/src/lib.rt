//! What a buffer keeps beside its forest: selections, the steps of its history and a capture, with the definitions
//! and laws of undo and redo over terms.
#![tactic(auto)]

mod capture;
mod direction;
pub mod laws;
mod spot;
mod step;
mod top;

pub use capture::Capture;
pub use direction::Direction;
pub use spot::{Selection, Spot};
pub use step::{Marks, Step};
pub use top::topped;
