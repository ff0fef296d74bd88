//! Where the reading of a declaration stops, and what mends it there, as lines.
#![tactic(auto)]

pub mod stops;
