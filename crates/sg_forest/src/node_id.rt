/// The number of a node.
///
/// It is given out again only after the node's tree was dropped.
#[derive(Clone, Copy, Debug, PartialEq, Eq)]
pub struct NodeId {
    pub key: usize,
}
