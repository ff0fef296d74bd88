//! What a byte means in a pattern.
ghost use Rattle.std.specs.Prelude.{◌≡◌};
ghost use Rattle.sg_patterns.specs.Kinds.{kind_of, is_special, is_plain_inside};

/// A byte of a pattern: one of those that stand for themselves only after a backslash, another byte that may stand in a
/// text, or none.
#[derive(Clone, Copy)]
pub enum Kind {
    Bar,
    Star,
    Plus,
    Query,
    LeftParenthesis,
    RightParenthesis,
    LeftBracket,
    RightBracket,
    Stop,
    Backslash,
    Caret,
    Dash,
    Plain,
    Other,
}

/// The kind of a byte.
pub fn kind_of(byte: u8) -> Kind
    ensures { result ≡ kind_of byte }
{
    match byte {
        b'|' => Kind::Bar,
        b'*' => Kind::Star,
        b'+' => Kind::Plus,
        b'?' => Kind::Query,
        b'(' => Kind::LeftParenthesis,
        b')' => Kind::RightParenthesis,
        b'[' => Kind::LeftBracket,
        b']' => Kind::RightBracket,
        b'.' => Kind::Stop,
        b'\\' => Kind::Backslash,
        b'^' => Kind::Caret,
        b'-' => Kind::Dash,
        b'\n' | b' '..=b'~' => Kind::Plain,
        _ => Kind::Other,
    }
}

/// Whether a byte of this kind stands for itself only after a backslash.
pub fn is_special(kind: Kind) -> bool
    ensures { result ≡ is_special kind }
{
    !matches!(kind, Kind::Plain | Kind::Other)
}

/// Whether a byte of this kind stands for itself in brackets.
pub fn is_plain_inside(kind: Kind) -> bool
    ensures { result ≡ is_plain_inside kind }
{
    matches!(kind, Kind::Plain)
}
