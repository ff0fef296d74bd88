// Want of memory.

/// No memory was found. It is the one answer that no clause ties to a cause.
pub use std::alloc::AllocError as NoMemory;
