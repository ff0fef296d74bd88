//! The workload: the commands that write a program of so many statements of the built-in language, and then undo and
//! redo its last changes; the job that performs them in an editor of its own, without their screens; and its line.
#![tactic(auto)]

mod language;
pub mod laws;
mod telling;
mod working;
mod workload;

pub use working::{line, tell_readers};
pub use workload::MOST_STATEMENTS;
