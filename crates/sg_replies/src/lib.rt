//! One call of a shelf and the reply to it, and what a list of replies to a list of requests says
//! of the shelf.
#![tactic(auto)]

mod reply;

pub use reply::{Reply, add, fetched, kept};
