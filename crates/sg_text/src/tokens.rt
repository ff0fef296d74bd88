//! Tokens and the faults of texts that have none.

use crate::symbols::Symbol;
use thiserror::Error;

/// The form that a token has.
#[derive(Clone, Copy, Debug, PartialEq, Eq)]
pub enum Kind {
    /// A letter or `_`, then letters, digits and `_`. A reserved word has this form too.
    Name,
    /// Digits, with their value.
    Number(i64),
    /// A string in double quotes.
    Text,
    /// A literal in single quotes.
    Quoted,
    /// A symbol.
    Symbol(Symbol),
}

/// A token: the bytes of the text from `from` to before `to`, and the line of the first, from 1.
#[derive(Clone, Copy, Debug, PartialEq, Eq)]
pub struct Token {
    pub kind: Kind,
    pub from: usize,
    pub to: usize,
    pub line: u32,
}

/// Why a text has no tokens, with the byte place where it stands.
#[derive(Clone, Copy, Debug, PartialEq, Eq, Error)]
pub enum LexFault {
    /// A byte that begins no token, or that may not stand in a string or a literal.
    #[error("byte {0} may not stand here")]
    Byte(usize),
    /// A string or a literal without an end on its line, or a comment without an end.
    #[error("what begins at byte {0} has no end")]
    Unclosed(usize),
    /// A number over 9223372036854775807.
    #[error("the number at byte {0} is too large")]
    LongNumber(usize),
    /// A name of more than 64 bytes.
    #[error("the name at byte {0} is too long")]
    LongName(usize),
    /// There was no memory for the tokens.
    #[error("out of memory")]
    NoMemory,
}
