//! What a session does, in sentences: laws alone, over what a command comes to.
#![tactic(auto)]

pub mod laws;
