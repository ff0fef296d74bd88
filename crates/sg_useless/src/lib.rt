//! What of a record nothing uses, and what its texts miss.
#![tactic(auto)]

mod exprs;
mod finding;
mod keys;
mod listing;
mod part;
mod reach;
mod schemes;
mod uses;

pub use finding::useless;
pub use part::Part;
