//! What a run tells: the blocks that it puts, the requests that it makes and the status at its end, as a function of
//! its words and of the shelf's replies, with the laws by which the parts of a run are put together.
#![tactic(auto)]

pub mod runs;
mod status;
pub mod words;

pub use status::Status;
