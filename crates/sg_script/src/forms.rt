// Forms of words.
ghost use Rattle.std.specs.Prelude.{◌≡◌, ◌<◌, IfOk, IsTrue};
ghost use Rattle.std.specs.Char.{is_ascii_digit};
ghost use Rattle.std.specs.List.{list_all};
ghost use Rattle.sg_text.specs.Forms.{value_of};
ghost use Rattle.sg_text.specs.Bytes as text;
ghost use Rattle.sg_text.specs.Forms as token;
ghost use Rattle.sg_script.specs.Forms.{has_length, is_name_byte, is_name, name_of, is_view_name, view_name_of, is_graphic, is_file_name, is_count, count_of};

use sg_kinds::memory::NoMemory;
use sg_kinds::text::Text;
use std::alloc::Global;

// whether it has 1 to 64 bytes
fn has_length(bytes: &[u8]) -> bool
    ensures { result ≡ has_length bytes.now }
{
    1 <= bytes.len() && bytes.len() <= 64
}

// whether it may stand in the name of a buffer
fn is_name_byte(b: u8) -> bool
    ensures { result ≡ is_name_byte b }
{
    b.is_ascii_alphabetic() || b == b'_' || b.is_ascii_digit() || b == b'-'
}

// whether all may stand in the name of a buffer
fn are_name_bytes(bytes: &[u8]) -> bool
    ensures { result ≡ list_all is_name_byte bytes.now }
{
    bytes.iter().all(|b| is_name_byte(*b))
}

// whether it is the name of a buffer
fn is_name(bytes: &[u8]) -> bool
    ensures { result ≡ is_name bytes.now }
{
    has_length(bytes) && are_name_bytes(bytes)
}

/// The name of a buffer.
pub fn name_of(alloc: Global, bytes: &[u8]) -> Result<Option<Text>, NoMemory>
    ensures { IfOk result (λ o. o ≡ name_of bytes.now) }
{
    if !is_name(bytes) {
        return Ok(None);
    }
    Ok(Some(Text::from_slice(alloc, bytes)?))
}

// whether it may begin the name of a view
fn is_letter(b: u8) -> bool
    ensures { result ≡ text.is_letter b }
{
    b.is_ascii_alphabetic() || b == b'_'
}

// whether all may stand in the name of a view
fn are_view_bytes(bytes: &[u8]) -> bool
    ensures { result ≡ list_all text.is_name_byte bytes.now }
{
    bytes.iter().all(|b| is_letter(*b) || b.is_ascii_digit())
}

// whether it is a letter or `_`, then letters, digits and `_`
fn is_plain_name(bytes: &[u8]) -> bool
    ensures { result ≡ token.is_name bytes.now }
{
    match bytes {
        [] => false,
        [first, others @ ..] => is_letter(*first) && are_view_bytes(others),
    }
}

// whether it is the name of a view
fn is_view_name(bytes: &[u8]) -> bool
    ensures { result ≡ is_view_name bytes.now }
{
    has_length(bytes) && is_plain_name(bytes)
}

/// The name of a view.
pub fn view_name_of(alloc: Global, bytes: &[u8]) -> Result<Option<Text>, NoMemory>
    ensures { IfOk result (λ o. o ≡ view_name_of bytes.now) }
{
    if !is_view_name(bytes) {
        return Ok(None);
    }
    Ok(Some(Text::from_slice(alloc, bytes)?))
}

// whether all may stand in the name of a file
fn are_graphic(bytes: &[u8]) -> bool
    ensures { result ≡ list_all is_graphic bytes.now }
{
    bytes.iter().all(|b| 33 <= *b && *b <= 126)
}

/// Whether it is the name of a file.
pub fn is_file_name(bytes: &[u8]) -> bool
    ensures { result ≡ is_file_name bytes.now }
{
    has_length(bytes) && are_graphic(bytes)
}

// whether all are digits
fn are_digits(bytes: &[u8]) -> bool
    ensures { result ≡ list_all is_ascii_digit bytes.now }
{
    bytes.iter().all(|b| b.is_ascii_digit())
}

// whether it is a line or a column
fn is_count(bytes: &[u8]) -> bool
    ensures { result ≡ is_count bytes.now }
{
    match bytes {
        [] => false,
        [first, others @ ..] => *first != b'0' && others.len() <= 8 && are_digits(bytes),
    }
}

// the number that 1 to 9 digits write
fn value_of(digits: &[u8]) -> u32
    requires { IsTrue (is_count digits.now) }
    ensures { result ≡ value_of digits.now }
{
    let mut number = 0;
    for digit in digits {
        number = number * 10 + (*digit - b'0') as u32;
    }
    number
}

/// A line or a column.
pub fn count_of(bytes: &[u8]) -> Option<u32>
    ensures { result ≡ count_of bytes.now }
{
    if is_count(bytes) {
        Some(value_of(bytes))
    } else {
        None
    }
}
