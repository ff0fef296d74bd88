//! The faults of schemes: an operator without one, places that are not its arguments, strings that are not escaped.
#![tactic(auto)]

pub mod laws;
pub mod places;
pub mod shown;
pub mod strings;
