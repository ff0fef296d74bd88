//! Turns of a term: another tree in the place of a node, or other marks, with what is seen then, and the steps that are
//! remembered of them.
#![tactic(auto)]

mod forecast;
mod fresh;
mod marks;
mod puts;
mod stepped;
mod steps;
mod turns;

pub use forecast::Known;
pub use fresh::{Fresh, begin, within};
pub use marks::{Remark, turned_marks};
pub use puts::{node_at, put_term, spot_at};
pub use stepped::{Stepped, step_along};
pub use steps::{next_along, put_over, remember};
pub use turns::{Turned, What, remarked, turn};
