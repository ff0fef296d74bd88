//! The sets of bytes that the forms of tokens are made of.
ghost use Rattle.std.specs.Prelude.{◌≡◌};
ghost use Rattle.sg_text.specs.Bytes as spec;

/// A byte that parts tokens.
#[inline]
pub fn is_blank(byte: u8) -> bool
    ensures { result ≡ spec.is_blank byte }
{
    byte == b'\t' || byte == b'\n' || byte == b'\r' || byte == b' '
}

/// A byte that begins a name.
#[inline]
pub fn is_letter(byte: u8) -> bool
    ensures { result ≡ spec.is_letter byte }
{
    byte.is_ascii_alphabetic() || byte == b'_'
}

/// A byte that goes on in a name.
#[inline]
pub fn is_name_byte(byte: u8) -> bool
    ensures { result ≡ spec.is_name_byte byte }
{
    is_letter(byte) || byte.is_ascii_digit()
}

/// A byte that may stand in a string.
#[inline]
pub fn is_string_byte(byte: u8) -> bool
    ensures { result ≡ spec.is_string_byte byte }
{
    byte >= 32 && byte <= 126
}

/// A byte that may stand after a backslash.
#[inline]
pub fn is_escape(byte: u8) -> bool
    ensures { result ≡ spec.is_escape byte }
{
    byte == b'"' || byte == b'\\' || byte == b'n'
}

/// A byte that may stand in a quoted literal.
#[inline]
pub fn is_quoted_byte(byte: u8) -> bool
    ensures { result ≡ spec.is_quoted_byte byte }
{
    byte >= 33 && byte <= 126 && byte != b'\''
}
