//! Terms into a forest and out of it, and their counts.
#![tactic(auto)]

mod built;
mod count;
mod held;
pub mod laws;
mod limits;
mod out;
mod replaced;

pub use built::{TermFault, build};
pub use count::counts;
pub use held::counts_below;
pub use limits::Counts;
pub use out::{copy_out, value_out};
pub use replaced::counts_replaced;
