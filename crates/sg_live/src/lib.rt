//! A session that reads commands line by line and answers each before it reads the next.
#![tactic(auto)]

mod answering;
mod answers;
pub mod laws;
mod living;
mod offers;
mod opening;
mod talking;
mod texts;
mod words;

pub use living::live;
pub use sg_output::Status;
