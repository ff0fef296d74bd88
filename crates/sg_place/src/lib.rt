//! A place of a text: the byte at which a fault stands, its line and column, and the text's line with a caret below it.
#![tactic(auto)]

pub mod place;
pub mod points;
pub mod shown;
