//! A chain of operators down to a reference to enclosing nodes above which there may be none of those that it names.
#![tactic(auto)]

mod search;
pub mod unenclosed;
