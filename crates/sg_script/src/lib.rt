//! Scripts: the commands that the lines of a text spell, and the messages of commands.
#![tactic(auto)]

mod command;
mod fault;
mod forms;
pub mod laws;
mod lines;
mod message;
mod rows;
mod script;
mod words;

pub use command::{Command, FileName};
pub use fault::ScriptFault;
pub use message::{Message, write_message};
pub use script::read;
