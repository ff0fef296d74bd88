// The productions of the spread grammar: those that contracts speak of, and what the code makes of them.
use sg_kinds::ids::{ExprId, PhylumId};
use sg_kinds::row::Row;
use sg_kinds::spec::Production;
use sg_kinds::text::Text;

/// A symbol of the spread grammar: a literal, a lexeme phylum, or a level, counted from 0, of a nonterminal.
#[derive(Drop)]
pub enum LevelSymbol {
    Quoted(Text),
    Lexical(PhylumId),
    Level(u32, u32),
}

/// What a production of the spread grammar comes from: a written one, with the expression of its result, or the step
/// from the level of this line to the next.
#[derive(Clone, Copy, PartialEq, Eq)]
pub enum From {
    Written(ExprId),
    Chain(u32),
}

/// A production of the spread grammar, of a level of a nonterminal.
#[derive(Drop)]
pub struct Spread {
    pub left: u32,
    pub level: u32,
    pub right: Row<LevelSymbol>,
    pub from: From,
}

/// The level of a written production, and those of the nonterminals of its right side: where its first symbol is one,
/// and where another is.
#[derive(Clone, Copy, PartialEq, Eq)]
pub struct RuleLevels {
    pub level: u32,
    pub first: u32,
    pub rest: u32,
}

/// A production of the spread grammar by what it comes from, so that no text is copied: a written one with its levels,
/// or the step of a nonterminal from a level, which this line has, to the next.
#[derive(Clone, Copy)]
pub enum Source<'a> {
    Rule(&'a Production, RuleLevels),
    Step(u32, u32, u32),
}
