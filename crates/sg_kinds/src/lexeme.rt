// Patterns of lexemes.
use crate::row::Row;
use std::marker::Model;

/// The pattern of a lexeme phylum as steps in postfix order: each makes a pattern, of the one or the two made last
/// where it joins. So a pattern as long as a text is copied and dropped by a loop.
#[derive(Drop)]
pub struct Lexeme {
    pub steps: Row<LexemeStep>,
}

/// A step of a pattern. A step that lacks what it joins does nothing, and no step at all is the empty pattern.
#[derive(Drop)]
pub enum LexemeStep {
    Nothing,
    Byte(u8),
    /// any byte but 10
    Dot,
    /// the bytes in some range, or with true those in none
    Class(bool, Row<(u8, u8)>),
    /// the last but one and then the last
    Then,
    /// the last but one or the last
    Either,
    Many,
    Several,
    Maybe,
}

impl Model for Lexeme {
    ghost use Rattle.sg_kinds.specs.Lexemes.{Lexeme as IsLexeme};
    ghost use Rattle.sg_kinds.specs.LexemeCode.{lexeme_code};

    ghost Value = { IsLexeme };

    ghost coded = { lexeme_code };

    ghost use Rattle.sg_kinds.specs.LexemeView.{lexeme_of};

    ghost view = { λ l. lexeme_of l.steps };
}
