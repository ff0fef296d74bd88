//! The way back from an exchange of two trees of typed terms and from what was stored since.
#![tactic(auto)]

mod entry;
mod saved;
mod trail;

pub use entry::WasStored;
pub use trail::Trail;
