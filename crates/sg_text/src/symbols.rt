//! The symbols of SSL-P.
ghost use Rattle.std.specs.Prelude.{◌≡◌, ◌∷◌, []};
ghost use Rattle.sg_text.specs.Symbols.{symbol_of, longest_symbol};

/// A symbol, named after its signs.
#[derive(Clone, Copy, Debug, PartialEq, Eq)]
pub enum Symbol {
    /// `::=`
    ColonColonEquals,
    /// `::`
    ColonColon,
    /// `:`
    Colon,
    /// `..`
    DotDot,
    /// `.`
    Dot,
    /// `$$`
    DollarDollar,
    /// `$`
    Dollar,
    /// `&&`
    AmpersandAmpersand,
    /// `||`
    BarBar,
    /// `|`
    Bar,
    /// `==`
    EqualsEquals,
    /// `=`
    Equals,
    /// `!=`
    BangEquals,
    /// `!`
    Bang,
    /// `<=`
    LessEquals,
    /// `<`
    Less,
    /// `>=`
    GreaterEquals,
    /// `>`
    Greater,
    /// `+`
    Plus,
    /// `-`
    Minus,
    /// `*`
    Star,
    /// `/`
    Slash,
    /// `%`
    Percent,
    /// `#`
    Hash,
    /// `?`
    Question,
    /// `,`
    Comma,
    /// `;`
    Semicolon,
    /// `(`
    LeftParenthesis,
    /// `)`
    RightParenthesis,
    /// `[`
    LeftBracket,
    /// `]`
    RightBracket,
    /// `{`
    LeftBrace,
    /// `}`
    RightBrace,
    /// `@`
    At,
    /// `^`
    Caret,
    /// `~`
    Tilde,
}

/// The symbol of one byte.
fn single(byte: u8) -> Option<Symbol>
    ensures { result ≡ symbol_of (byte ∷ []) }
{
    match byte {
        b':' => Some(Symbol::Colon),
        b'.' => Some(Symbol::Dot),
        b'$' => Some(Symbol::Dollar),
        b'|' => Some(Symbol::Bar),
        b'=' => Some(Symbol::Equals),
        b'!' => Some(Symbol::Bang),
        b'<' => Some(Symbol::Less),
        b'>' => Some(Symbol::Greater),
        b'+' => Some(Symbol::Plus),
        b'-' => Some(Symbol::Minus),
        b'*' => Some(Symbol::Star),
        b'/' => Some(Symbol::Slash),
        b'%' => Some(Symbol::Percent),
        b'#' => Some(Symbol::Hash),
        b'?' => Some(Symbol::Question),
        b',' => Some(Symbol::Comma),
        b';' => Some(Symbol::Semicolon),
        b'(' => Some(Symbol::LeftParenthesis),
        b')' => Some(Symbol::RightParenthesis),
        b'[' => Some(Symbol::LeftBracket),
        b']' => Some(Symbol::RightBracket),
        b'{' => Some(Symbol::LeftBrace),
        b'}' => Some(Symbol::RightBrace),
        b'@' => Some(Symbol::At),
        b'^' => Some(Symbol::Caret),
        b'~' => Some(Symbol::Tilde),
        _ => None,
    }
}

/// The symbol of two bytes.
fn pair(first: u8, second: u8) -> Option<Symbol>
    ensures { result ≡ symbol_of (first ∷ second ∷ []) }
{
    match (first, second) {
        (b':', b':') => Some(Symbol::ColonColon),
        (b'.', b'.') => Some(Symbol::DotDot),
        (b'$', b'$') => Some(Symbol::DollarDollar),
        (b'&', b'&') => Some(Symbol::AmpersandAmpersand),
        (b'|', b'|') => Some(Symbol::BarBar),
        (b'=', b'=') => Some(Symbol::EqualsEquals),
        (b'!', b'=') => Some(Symbol::BangEquals),
        (b'<', b'=') => Some(Symbol::LessEquals),
        (b'>', b'=') => Some(Symbol::GreaterEquals),
        _ => None,
    }
}

/// The longest symbol at the front, with its length.
pub fn longest_symbol(rest: &[u8]) -> Option<(Symbol, usize)>
    ensures { result ≡ longest_symbol rest.now }
{
    match *rest {
        [b':', b':', b'=', ..] => Some((Symbol::ColonColonEquals, 3)),
        [first, second, ..] => match pair(first, second) {
            Some(symbol) => Some((symbol, 2)),
            None => single(first).map(|symbol| (symbol, 1)),
        },
        [only] => single(only).map(|symbol| (symbol, 1)),
        [] => None,
    }
}
