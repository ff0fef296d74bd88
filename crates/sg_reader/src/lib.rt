//! The reading of SSL-P: the declarations of a text as trees.
#![tactic(auto)]

mod decl;
mod fault;
mod reading;

pub use decl::declaration;
pub use fault::ReadFault;
pub use reading::read;
