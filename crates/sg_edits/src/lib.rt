//! What an editing command makes of a term and a selected node: it is refused, or one term is to stand in a place.
#![tactic(auto)]

mod choice;
mod clip;
mod here;
mod inserting;
pub mod laws;
mod lists;
mod pasting;
mod removing;
mod replacing;

pub use choice::Choice;
pub use clip::{Clip, copied};
pub use here::{done, is_editable, typed};
pub use inserting::inserted;
pub use pasting::pasted;
pub use removing::{deleted, removed};
pub use replacing::everywhere;
