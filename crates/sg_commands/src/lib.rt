//! One command in the current buffer: what it leaves of the buffer and of what was copied, what it says, and what it
//! evaluates.
#![tactic(auto)]

mod entering;
mod history;
mod input;
pub mod laws;
mod moving;
mod replacing;
mod turning;
mod typing;

pub use input::Input;
pub use turning::turn;
