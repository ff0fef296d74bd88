//! The tokens that are tried in a text.
ghost use Rattle.std.specs.Prelude.{◌≡◌};
ghost use Rattle.sg_text.specs.Symbols.{symbol_bytes};
ghost use Rattle.sg_text.specs.Words.{keyword_bytes};
ghost use Rattle.sg_mends.specs.Pieces.{piece_bytes};

use sg_text::{Keyword, Symbol};

/// A token that is tried in a text.
#[derive(Clone, Copy, Debug, PartialEq, Eq)]
pub enum Piece {
    Sign(Symbol),
    Word(Keyword),
    /// any name
    Name,
    /// any number
    Number,
    /// any string
    Text,
    /// any literal
    Literal,
}

/// The pieces that are tried, in the order in which they are told: first what is forgotten most often.
pub const PIECES: [Piece; 28] = [
    Piece::Sign(Symbol::Semicolon),
    Piece::Sign(Symbol::RightParenthesis),
    Piece::Sign(Symbol::RightBrace),
    Piece::Sign(Symbol::LeftParenthesis),
    Piece::Sign(Symbol::LeftBrace),
    Piece::Sign(Symbol::RightBracket),
    Piece::Sign(Symbol::LeftBracket),
    Piece::Sign(Symbol::Colon),
    Piece::Sign(Symbol::Equals),
    Piece::Sign(Symbol::Comma),
    Piece::Sign(Symbol::Dot),
    Piece::Sign(Symbol::Bar),
    Piece::Sign(Symbol::ColonColonEquals),
    Piece::Sign(Symbol::DollarDollar),
    Piece::Sign(Symbol::Dollar),
    Piece::Sign(Symbol::Plus),
    Piece::Sign(Symbol::ColonColon),
    Piece::Sign(Symbol::Tilde),
    Piece::Sign(Symbol::At),
    Piece::Sign(Symbol::Less),
    Piece::Sign(Symbol::Greater),
    Piece::Sign(Symbol::EqualsEquals),
    Piece::Word(Keyword::In),
    Piece::Word(Keyword::On),
    Piece::Name,
    Piece::Number,
    Piece::Text,
    Piece::Literal,
];

fn sign(symbol: Symbol) -> &'static str
    ensures { result.now ≡ symbol_bytes symbol }
{
    match symbol {
        Symbol::ColonColonEquals => "::=",
        Symbol::ColonColon => "::",
        Symbol::Colon => ":",
        Symbol::DotDot => "..",
        Symbol::Dot => ".",
        Symbol::DollarDollar => "$$",
        Symbol::Dollar => "$",
        Symbol::AmpersandAmpersand => "&&",
        Symbol::BarBar => "||",
        Symbol::Bar => "|",
        Symbol::EqualsEquals => "==",
        Symbol::Equals => "=",
        Symbol::BangEquals => "!=",
        Symbol::Bang => "!",
        Symbol::LessEquals => "<=",
        Symbol::Less => "<",
        Symbol::GreaterEquals => ">=",
        Symbol::Greater => ">",
        Symbol::Plus => "+",
        Symbol::Minus => "-",
        Symbol::Star => "*",
        Symbol::Slash => "/",
        Symbol::Percent => "%",
        Symbol::Hash => "#",
        Symbol::Question => "?",
        Symbol::Comma => ",",
        Symbol::Semicolon => ";",
        Symbol::LeftParenthesis => "(",
        Symbol::RightParenthesis => ")",
        Symbol::LeftBracket => "[",
        Symbol::RightBracket => "]",
        Symbol::LeftBrace => "{",
        Symbol::RightBrace => "}",
        Symbol::At => "@",
        Symbol::Caret => "^",
        Symbol::Tilde => "~",
    }
}

fn word(keyword: Keyword) -> &'static str
    ensures { result.now ≡ keyword_bytes keyword }
{
    match keyword {
        Keyword::Root => "root",
        Keyword::List => "list",
        Keyword::Optional => "optional",
        Keyword::Synthesized => "synthesized",
        Keyword::Inherited => "inherited",
        Keyword::Local => "local",
        Keyword::Transform => "transform",
        Keyword::On => "on",
        Keyword::Let => "let",
        Keyword::In => "in",
        Keyword::With => "with",
        Keyword::Default => "default",
        Keyword::True => "true",
        Keyword::False => "false",
    }
}

impl Piece {
    /// The bytes with which it is tried, those of one token.
    pub fn bytes(self) -> &'static [u8]
        ensures { result.now ≡ piece_bytes self }
    {
        let text = match self {
            Piece::Sign(symbol) => sign(symbol),
            Piece::Word(keyword) => word(keyword),
            Piece::Name => "x",
            Piece::Number => "0",
            Piece::Text => "\"\"",
            Piece::Literal => "'x'",
        };
        text.as_bytes()
    }
}
