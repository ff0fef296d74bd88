// The records of a specification, its values and its terms.
#![tactic(auto)]

pub mod copy;
pub mod decimal;
pub mod expr;
pub mod fault;
pub mod ids;
pub mod laws;
pub mod lexeme;
pub mod limits;
pub mod made;
pub mod marks;
pub mod memory;
pub mod pattern;
pub mod plans;
pub mod row;
pub mod spec;
pub mod term;
pub mod text;
pub mod trees;
pub mod value;
pub mod views;
