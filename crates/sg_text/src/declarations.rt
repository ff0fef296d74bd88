//! The declarations of a list of tokens.
ghost use Rattle.std.specs.Prelude.{◌≡◌, ◌<◌, length};
ghost use Rattle.sg_text.specs.Cut.{declaration_len, CutsFirst};

use crate::symbols::Symbol;
use crate::tokens::{Kind, Token};

/// How many tokens the first declaration has: those up to the first `;` outside all brackets and
/// with it, or all where there is none.
pub fn declaration_len(tokens: &[Token]) -> usize
    ensures value { result ≡ declaration_len 0 tokens.now }
    ensures cuts { 0 < length tokens.now → CutsFirst result tokens.now }
{
    let mut open: usize = 0;
    for (place, token) in tokens.iter().enumerate() {
        match token.kind {
            Kind::Symbol(Symbol::Semicolon) if open == 0 => return place + 1,
            Kind::Symbol(Symbol::LeftParenthesis | Symbol::LeftBracket | Symbol::LeftBrace) =>
                open += 1,
            Kind::Symbol(Symbol::RightParenthesis | Symbol::RightBracket | Symbol::RightBrace) =>
                open = open.saturating_sub(1),
            _ => {}
        }
    }
    tokens.len()
}
