//! Patterns.
use crate::name::{Name, Quoted};
use crate::number::Number;
use sg_kinds::fault::Position;
use sg_kinds::marks::Made;
use std::boxed::Box;

/// A pattern.
#[cycle(pattern)]
#[derive(Drop)]
pub enum Pattern {
    /// A number, below zero where the first part says so, and its first token.
    Number(bool, Number, Position),
    Text(Quoted),
    Truth(bool, Position),
    /// `*`
    Anything(Position),
    Variable(Name),
    /// `<p>` or `[p]`, and its first token.
    Made(Made, Name, Position),
    Operator(Name, Patterns),
}

/// The patterns of an operator's arguments.
#[cycle(pattern)]
pub enum Patterns {
    End,
    More(Box<Pattern>, Box<Patterns>),
}

// a long chain ends without recursion
impl Drop for Patterns {
    #[cycle(pattern)]
    fn drop(mut self) {
        loop {
            match self {
                Patterns::End => return,
                Patterns::More(_, rest) => self = Box::into_inner(rest),
            }
        }
    }
}
