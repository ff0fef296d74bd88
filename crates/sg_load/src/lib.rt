//! The loading of a specification: its record with what belongs to it, or its first static fault.
#![tactic(auto)]

pub mod laws;
mod loaded;
mod loading;
mod parts;
mod patterns;
mod trees;

pub use loaded::Loaded;
pub use loading::{assembled, complete, load};
pub use parts::{Rest, join, split};
pub use trees::read as declarations;
