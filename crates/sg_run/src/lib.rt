//! A whole run: from the words of the command line, over a shelf of files and a sink of bytes, to
//! the blocks that are written and the status at the end.
#![tactic(auto)]

mod finishing;
pub mod laws;
mod opening;
mod playing;
mod reports;
mod running;
mod scripts;
mod sure;
mod words;
mod workloads;

pub use running::{Outcome, run};
pub use sg_output::Status;
pub use sure::{run_surely, surely_says};
