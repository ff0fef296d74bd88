//! The state of a buffer, and what each call does to it.
#![tactic(auto)]

mod forecast;
pub mod laws;
mod looks;
mod marks;

pub use forecast::{Before, begins_here, foretell};
pub use looks::{
    Look, elements_at, line_on, look_after, look_at, page_of, page_with, target, top_at,
};
pub use marks::{Extended, Mark, Move};
