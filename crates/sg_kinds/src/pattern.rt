// Patterns over values.
use crate::ids::{OpId, PhylumId};
use crate::marks::Made;
use crate::text::Text;
use std::boxed::Box;
use std::marker::Model;

/// A value that is written in an expression or pattern.
#[derive(Drop)]
pub enum Literal {
    Truth(bool),
    Number(i64),
    Text(Text),
}

/// A pattern, whose variables are bound from left to right.
#[derive(Drop)]
pub struct Pattern {
    pub tree: PatternTree,
}

#[cycle(pattern)]
#[derive(Drop)]
pub enum PatternTree {
    Literal(Literal),
    Anything,
    Variable,
    Made(Made, PhylumId),
    Operator(OpId, PatternList),
}

#[cycle(pattern)]
#[derive(Drop)]
pub enum PatternList {
    End,
    More(Box<PatternTree>, Box<PatternList>),
}

impl Model for Pattern {
    ghost use Rattle.sg_kinds.specs.Expressions.{Pattern as IsPattern};
    ghost use Rattle.sg_kinds.specs.ExprCode.{pattern_code};

    ghost Value = { IsPattern };

    ghost coded = { pattern_code };

    ghost use Rattle.sg_kinds.specs.PatternView.{pattern_of};

    ghost view = { λ p. pattern_of p.tree };
}
