//! Why a specification is refused: the place of its fault with its line and a caret, the fault as `check` tells it, and
//! one sentence of what helps, and what helps there. Of one that is accepted: what is of no use, and how it is
//! evaluated and parsed.
#![tactic(auto)]

mod accepted;
mod advice;
mod ending;
mod explaining;
mod heading;
mod help;
mod named;
mod running;

pub use ending::Ending;
pub use explaining::{Explanation, explain};
pub use running::run;
