//! Trees of labelled nodes, kept in place under numbers that last.
//!
//! A forest is a set of trees. Each node has a label, which says how many children it has and of
//! which sort each is, and a part, which may change. A node keeps its number until its tree is
//! dropped: two subtrees change places by three writes, and nothing else moves.
#![tactic(auto)]

mod forest;
mod kids;
mod label;
mod node;
mod node_id;
mod nodes;
mod up;

pub use forest::{Forest, NoMemory, Refused};
pub use label::Label;
pub use node_id::NodeId;
