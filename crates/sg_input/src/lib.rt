//! A typed-in text becomes a value: it is scanned, parsed from an entry, and evaluated.
#![tactic(auto)]

mod entering;
pub mod laws;
mod parsing;
mod stacks;

pub use entering::{EntryFault, enter, entry_of};
pub use parsing::{InputFault, parse};
