//! What a command prints: a header with its message, and the lines of a page in a window.
#![tactic(auto)]

mod blocks;

pub use blocks::{Head, bare, block};
