//! Patterns of lexemes: their reading, the longest match at a place of a text, and the scanning of a whole text.
#![tactic(auto)]

mod failures;
mod kinds;
pub mod laws;
mod lexemes;
mod longest_match;
mod marks;
mod matcher;
mod program;
mod reader;
mod reading;
mod rows;
mod scanning;

pub use lexemes::Lexemes;
pub use longest_match::{longest, matches_empty};
pub use matcher::Matcher;
pub use reading::{PatternFault, read};
pub use scanning::{InToken, ScanFault, scan};
