//! One buffer: a term with its values, what is selected of it, its history, the text that is being typed, and its page.
#![tactic(auto)]

mod attribution;
mod buffers;
mod changes;
mod fault;
mod standing;
mod typing;

pub use attribution::Attribution;
pub use buffers::Buffer;
pub use fault::BufferFault;
