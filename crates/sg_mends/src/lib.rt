//! The changes of one token with which a text of SSL-P reads.
#![tactic(auto)]

mod changes;
mod mending;
mod past;
mod piece;
mod reads;
mod stopping;

pub use changes::Mends;
pub use mending::mends;
pub use piece::Piece;
pub use stopping::stop;
