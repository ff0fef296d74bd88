//! What a byte means in a saved file.
ghost use Rattle.std.specs.Prelude.{◌≡◌};
ghost use Rattle.sg_saved_form.specs.Kinds.{kind_of};

/// A byte of a saved file: a letter or `_`, 0, another digit, one of the signs, another byte that may stand in a text,
/// or none.
#[derive(Clone, Copy)]
pub enum Kind {
    Letter,
    Zero,
    Digit,
    LeftParenthesis,
    RightParenthesis,
    Comma,
    Newline,
    DoubleQuote,
    Backslash,
    Dash,
    Plain,
    Other,
}

/// The kind of a byte.
pub fn kind_of(byte: u8) -> Kind
    ensures { result ≡ kind_of byte }
{
    match byte {
        b'a'..=b'z' | b'A'..=b'Z' | b'_' => Kind::Letter,
        b'0' => Kind::Zero,
        b'1'..=b'9' => Kind::Digit,
        b'(' => Kind::LeftParenthesis,
        b')' => Kind::RightParenthesis,
        b',' => Kind::Comma,
        b'\n' => Kind::Newline,
        b'"' => Kind::DoubleQuote,
        b'\\' => Kind::Backslash,
        b'-' => Kind::Dash,
        b' '..=b'~' => Kind::Plain,
        _ => Kind::Other,
    }
}
