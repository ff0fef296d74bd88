// A place of a text as it is shown: its line and column, and below the bytes of the line with a caret.
ghost use Rattle.std.specs.Prelude.{◌≡◌, ◌≤◌, ◌+◌, ◌++◌, length, map, IfOk, IfSome, OnOk};
ghost use Rattle.sg_place.specs.Places.{IsPlaceIn};
ghost use Rattle.sg_place.specs.Points.{IsPoint};
ghost use Rattle.sg_place.specs.Shown.{blanks as blanks_of, caret_text, dots as dots_of, left_len as left_len_of, left_shown, line_len as line_len_of, margin as margin_of, line_text, right_shown, shown as shown_text, shown_at as shown_at_text, shown_byte as shown_byte_of, where_text};

use crate::points::{Point, moved, start};
use sg_kinds::decimal::write_number;
use sg_kinds::memory::NoMemory;
use sg_text::line_at;
use std::alloc::Global;

// The most bytes of the line that are shown before a place, and from it on.
const MOST_SHOWN: usize = 60;

/// How many bytes stand on the line of a place before it.
pub fn left_len(bytes: &[u8], at: usize) -> usize
    requires { at ≤ length bytes.now }
    ensures value { result ≡ left_len_of bytes.now at }
    ensures within { result ≤ at }
{
    bytes[..at]
        .iter()
        .rev()
        .take_while(|byte| !(**byte == b'\n'))
        .count()
}

// How many of these bytes stand before the first newline.
fn line_len(bytes: &[u8]) -> usize
    ensures value { result ≡ line_len_of bytes.now }
    ensures within { result ≤ length bytes.now }
{
    bytes.iter().take_while(|byte| !(**byte == b'\n')).count()
}

fn shown_byte(byte: u8) -> u8
    ensures { result ≡ shown_byte_of byte }
{
    if 32 <= byte && byte <= 126 {
        byte
    } else {
        b' '
    }
}

fn write_shown(out: &mut Vec<u8>, bytes: &[u8]) -> Result<(), NoMemory>
    ensures { OnOk result (out.new.items ≡ out.old.items ++ map shown_byte_of bytes.now) }
{
    for byte in bytes {
        out.push(shown_byte(*byte))?;
    }
    Ok(())
}

fn write_blanks(out: &mut Vec<u8>, count: usize) -> Result<(), NoMemory>
    ensures { OnOk result (out.new.items ≡ out.old.items ++ blanks_of count) }
{
    for _column in 0..count {
        out.push(b' ')?;
    }
    Ok(())
}

fn write_dots(out: &mut Vec<u8>, count: usize) -> Result<(), NoMemory>
    ensures { OnOk result (out.new.items ≡ out.old.items ++ dots_of count) }
{
    if count > MOST_SHOWN {
        out.extend_from_slice(b"..")?;
    }
    Ok(())
}

// The line before a place as it is shown.
fn left(alloc: Global, bytes: &[u8], at: usize) -> Result<Vec<u8>, NoMemory>
    requires { at ≤ length bytes.now }
    ensures { IfOk result (λ v. v.items ≡ left_shown bytes.now at) }
{
    let len = left_len(bytes, at);
    let mut out = Vec::new(alloc);
    write_dots(&mut out, len)?;
    write_shown(&mut out, &bytes[..at][at - len.min(MOST_SHOWN)..])?;
    Ok(out)
}

// The line from a place on as it is shown.
fn right(alloc: Global, bytes: &[u8], at: usize) -> Result<Vec<u8>, NoMemory>
    requires { at ≤ length bytes.now }
    ensures { IfOk result (λ v. v.items ≡ right_shown bytes.now at) }
{
    let bytes = &bytes[at..];
    let len = line_len(bytes);
    let mut out = Vec::new(alloc);
    write_shown(&mut out, &bytes[..len.min(MOST_SHOWN)])?;
    write_dots(&mut out, len)?;
    Ok(out)
}

// A number with blanks before it, in five columns or more.
fn margin(alloc: Global, number: u32) -> Result<Vec<u8>, NoMemory>
    ensures { IfOk result (λ v. v.items ≡ margin_of number) }
{
    let mut digits = Vec::new(alloc);
    write_number(alloc, &mut digits, number as u64)?;
    let mut out = Vec::new(alloc);
    write_blanks(&mut out, 5usize.saturating_sub(digits.len()))?;
    out.extend_from_slice(&digits)?;
    Ok(out)
}

// Behind a margin the two parts of a line.
fn write_line(out: &mut Vec<u8>, number: &[u8], left: &[u8], right: &[u8]) -> Result<(), NoMemory>
    ensures { OnOk result (out.new.items ≡ out.old.items ++ line_text number.now left.now right.now) }
{
    out.extend_from_slice(number)?;
    out.extend_from_slice(b" | ")?;
    out.extend_from_slice(left)?;
    out.extend_from_slice(right)?;
    out.push(b'\n')?;
    Ok(())
}

// A caret behind a margin and so many columns.
fn write_caret(out: &mut Vec<u8>, number: usize, columns: usize) -> Result<(), NoMemory>
    ensures { OnOk result (out.new.items ≡ out.old.items ++ caret_text number columns) }
{
    write_blanks(out, number)?;
    out.extend_from_slice(b" | ")?;
    write_blanks(out, columns)?;
    out.extend_from_slice(b"^\n")?;
    Ok(())
}

/// Writes the line of a place with a caret below it.
pub fn write_shown_at(
    alloc: Global,
    out: &mut Vec<u8>,
    bytes: &[u8],
    at: usize,
) -> Result<(), NoMemory>
    requires { IsPlaceIn bytes.now at }
    ensures { OnOk result (out.new.items ≡ out.old.items ++ shown_at_text bytes.now at) }
{
    let number = margin(alloc, line_at(bytes, at))?;
    let left = left(alloc, bytes, at)?;
    let right = right(alloc, bytes, at)?;
    write_line(out, &number, &left, &right)?;
    write_caret(out, number.len(), left.len())
}

/// Writes the line of a place with a caret below it, if there is a place.
pub fn write_shown_place(
    alloc: Global,
    out: &mut Vec<u8>,
    bytes: &[u8],
    place: Option<usize>,
) -> Result<(), NoMemory>
    requires { IfSome place (IsPlaceIn bytes.now) }
    ensures { OnOk result (out.new.items ≡ out.old.items ++ shown_text bytes.now place) }
{
    match place {
        Some(at) => write_shown_at(alloc, out, bytes, at),
        None => Ok(()),
    }
}

/// Writes the file, and the line and column of the place in it, if there is one, counted from a known point on; answers
/// the last known point.
pub fn write_where_from(
    alloc: Global,
    out: &mut Vec<u8>,
    file: &[u8],
    bytes: &[u8],
    place: Option<usize>,
    known: Point,
) -> Result<Point, NoMemory>
    requires known { IsPoint bytes.now known }
    requires there { IfSome place (λ at. at ≤ length bytes.now) }
    ensures text { OnOk result (out.new.items ≡ out.old.items ++ where_text file.now bytes.now place) }
    ensures point { IfOk result (IsPoint bytes.now) }
{
    out.extend_from_slice(file)?;
    let Some(at) = place else {
        return Ok(known);
    };
    let here = moved(bytes, known, at);
    out.push(b':')?;
    write_number(alloc, out, here.line as u64)?;
    out.push(b':')?;
    write_number(alloc, out, 1 + here.left as u64)?;
    Ok(here)
}

/// The same without a known point.
pub fn write_where(
    alloc: Global,
    out: &mut Vec<u8>,
    file: &[u8],
    bytes: &[u8],
    place: Option<usize>,
) -> Result<(), NoMemory>
    requires { IfSome place (IsPlaceIn bytes.now) }
    ensures { OnOk result (out.new.items ≡ out.old.items ++ where_text file.now bytes.now place) }
{
    write_where_from(alloc, out, file, bytes, place, start(bytes))?;
    Ok(())
}
