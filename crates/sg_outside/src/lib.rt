//! Where files come from and go to, and where text goes: the traits `Shelf` and `Sink`, both of
//! them in memory, and the files and the standard output of the system.
#![tactic(auto)]

mod file_log;
mod file_shelf;
mod mem_shelf;
mod mem_sink;
mod out_sink;
mod shelf;
mod sink;
mod sure_shelf;
mod sure_sink;

pub use file_shelf::FileShelf;
pub use mem_shelf::MemShelf;
pub use mem_sink::MemSink;
pub use out_sink::OutSink;
pub use shelf::{NoMemory, Shelf, ShelfError};
pub use sink::{Sink, SinkError};
pub use sure_shelf::SureShelf;
pub use sure_sink::SureSink;
