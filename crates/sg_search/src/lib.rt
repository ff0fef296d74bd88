//! Where the transformations of a name apply in a term, and the term in which what they give stands in all these places.
#![tactic(auto)]

mod heads;
pub mod laws;
mod next;
mod places;
mod replaced;

pub use next::next_found;
pub use places::{found, is_known};
pub use replaced::{SearchFault, all};
