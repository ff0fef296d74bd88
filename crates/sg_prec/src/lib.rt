//! Precedence lines: how infix literals group, and the grammar of levels that groups so by itself.
#![tactic(auto)]

pub mod laws;
pub mod levels;
mod lines;
pub mod named;
mod productions;
mod spreading;

pub use levels::Levels;
pub use productions::{From, LevelSymbol, RuleLevels, Source, Spread};
pub use spreading::spread;
