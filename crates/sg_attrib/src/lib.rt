//! Attribution: the values of a node by its visits, and of a whole tree by those of its root.
#![tactic(auto)]

mod visits;
mod whole;

pub use visits::visit;
pub use whole::attribute;
