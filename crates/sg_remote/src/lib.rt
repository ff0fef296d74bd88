//! Attributes of enclosing nodes: the far attributes that hand them down, and the nodes that lack an enclosing one.
#![tactic(auto)]

pub mod atoms;
mod bare;
mod edges;
mod far_attrs;
mod hiding;
pub mod laws;
mod lists;
mod reach;
mod rules;

pub use bare::no_enclosing;
pub use hiding::hide;
pub use rules::handing;
