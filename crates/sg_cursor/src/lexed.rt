//! What a token says.
ghost use Rattle.std.specs.Prelude.{◌≡◌, slice_range};
ghost use Rattle.sg_text.specs.Lexemes.{lexeme_of};
ghost use Rattle.sg_text.specs.Forms.{inner};
ghost use Rattle.sg_cursor.specs.LexedView.{lexeme_in};

use sg_text::{Keyword, Kind, Symbol, Token, keyword_of};

/// What a token says. A string has the bytes between its quotes, its escapes as they are written.
#[derive(Clone, Copy)]
pub enum Lexed<'a> {
    Word(&'a [u8]),
    Reserved(Keyword),
    Numeral(i64),
    String(&'a [u8]),
    Literal(&'a [u8]),
    Sign(Symbol),
}

/// The bytes from `from` on to before `to`, as far as there are any.
fn between(bytes: &[u8], from: usize, to: usize) -> &[u8]
    ensures { result.now ≡ slice_range bytes.now from to }
{
    let to = to.min(bytes.len());
    let from = from.min(to);
    &bytes[from..to]
}

/// The bytes without the first and the last.
fn within_quotes(bytes: &[u8]) -> &[u8]
    ensures { result.now ≡ inner bytes.now }
{
    between(bytes, 1, bytes.len().saturating_sub(1))
}

/// What a token of the text says.
pub fn said<'a>(bytes: &'a [u8], token: &Token) -> Lexed<'a>
    ensures { lexeme_in result ≡ lexeme_of bytes.now token.now }
{
    let spelling = between(bytes, token.from, token.to);
    match token.kind {
        Kind::Name => match keyword_of(spelling) {
            Some(reserved) => Lexed::Reserved(reserved),
            None => Lexed::Word(spelling),
        },
        Kind::Number(value) => Lexed::Numeral(value),
        Kind::Text => Lexed::String(within_quotes(spelling)),
        Kind::Quoted => Lexed::Literal(within_quotes(spelling)),
        Kind::Symbol(symbol) => Lexed::Sign(symbol),
    }
}
