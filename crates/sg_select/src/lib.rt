//! What may be selected, and where the moves between these places lead.
#![tactic(auto)]

mod cells;
mod inside;
pub mod laws;
mod moves;
mod paths;
mod runs;
mod schemes;

pub use cells::at_cell;
pub use inside::kid_count;
pub use moves::{first, next, prev, rests, settle, settle_below, sibling, up};
pub use paths::{node_along, node_near, path_of, settle_path_below};
pub use runs::{elements_from, spine_of};
pub use schemes::{is_shown, items_of, place_in, rests_at};
