//! An editor of a language: a session with its buffers, one command at a time, and what is printed after each.
#![tactic(auto)]

mod base;
mod desk;
mod editor;
mod fetching;
mod keeping;
pub mod laws;
mod opening;
mod screens;
mod turning;

pub use editor::Editor;
pub use sg_script::Message;
