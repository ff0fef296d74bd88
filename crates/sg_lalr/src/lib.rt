//! Exact LALR(1) tables of a grammar, or its least conflict.
#![tactic(auto)]

mod closure;
mod conflict;
mod firsts;
mod items;
pub mod laws;
mod layout;
mod least_set;
mod lefts;
mod lookaheads;
mod making;
mod moves;
mod node_rows;
mod places;
mod productive;
mod reductions;
mod search;
mod slots;
mod spread;
mod states;
mod table;

pub use items::Item;
pub use making::tables;
pub use table::{Action, TableFault, Tables};
