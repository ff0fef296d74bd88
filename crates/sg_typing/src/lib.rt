//! The expressions and patterns of declarations with their types, and the faults of types.
#![tactic(auto)]

mod arguments;
mod bodies;
mod checking;
pub mod laws;
mod shown;

pub use arguments::args_in;
pub use bodies::{TypedExpr, expr_count, operator, parameters, result_type, target_type};
pub use checking::{Typed, check};
