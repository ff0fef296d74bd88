//! The ordering test of attribute equations.
#![tactic(auto)]

mod extension;
mod grown;
pub mod laws;
mod layers;
mod ordering;
mod owning;
mod planning;
mod positions;
mod seats;
mod steps;
mod timing;
mod visits;

pub use extension::all_layers;
pub use ordering::order;
