//! The vertices of operators, and the dependencies that equations induce between them.
#![tactic(auto)]

mod cycles;
mod dependencies;
mod equations;
mod fault;
mod frame;
mod induction;
pub mod laws;
mod rounds;
mod waiting;

pub use cycles::{Found, first_cycle};
pub use dependencies::Dependencies;
pub use equations::{direct, operator};
pub use fault::OrderFault;
pub use frame::{Frame, Spot, frames};
pub use induction::{induce, operator_id};
pub use rounds::spread_all;
