//! The bounded history of an editor's changes: the steps that can be undone and those that can be
//! redone.
#![tactic(auto)]

mod history;

pub use history::{History, NoMemory};
