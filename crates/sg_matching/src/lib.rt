//! Which transformations apply at a node, and what they give.
#![tactic(auto)]

mod bindings;
mod made;
mod named;
mod nodes;
mod patterns;

pub use named::{TransformFault, found_by, is_named, numbers_of, transform, transformed};
pub use patterns::matches;
