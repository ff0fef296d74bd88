//! A number that a slot had.

use sg_forest::NodeId;
use sg_kinds::ids::ValueId;

/// The number that a slot of a node had before another was stored there.
#[derive(Clone, Copy, PartialEq, Eq)]
pub struct WasStored {
    pub node: NodeId,
    pub slot: u32,
    pub number: ValueId,
}
