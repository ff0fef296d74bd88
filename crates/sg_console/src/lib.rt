//! Where lines are read and text is written in turn: the trait `Console`, one in memory, and the
//! standard input and output of the system.
#![tactic(auto)]

mod console;
mod lines;
mod mem_console;
mod system_console;

pub use console::{Console, Failed, Taken};
pub use lines::take_from;
pub use mem_console::MemConsole;
pub use system_console::SystemConsole;
