//! What may stand at a place of a text.
ghost use Rattle.std.specs.Prelude.{◌≡◌, ◌∷◌, ◌+◌, ◌-◌, ◌^◌, ◌≤◌, ◌<◌, length, slice_index, IfSome, IsTrue, take, Option, None, Some, false, pos, IsFalse, ◌==◌};
ghost use Rattle.std.specs.List.{list_all, prefix_len};
ghost use Rattle.std.specs.Char.{is_ascii_digit};
ghost use Rattle.sg_text.specs.Bytes as spec;
ghost use Rattle.sg_text.specs.Bytes.{is_name_byte, is_sign};
ghost use Rattle.sg_text.specs.Forms.{value_of};
ghost use Rattle.sg_text.specs.Tokens.{comment_end, string_len, text_len, literal_len, quoted_len, opens_comment, form_at};

use crate::bytes::{is_blank, is_escape, is_letter, is_name_byte, is_quoted_byte, is_string_byte};
use crate::symbols::longest_symbol;
use crate::tokens::{Kind, LexFault};

/// What stands at the front of a text: a blank or a comment of so many bytes, a token of so many
/// bytes, or a fault.
#[derive(Clone, Copy, Debug, PartialEq, Eq)]
pub enum Form {
    Gap(usize),
    Found(Kind, usize),
    Fault(LexFault),
}

/// How many bytes of a name stand at the front.
fn name_len(rest: &[u8]) -> usize
    ensures value { result ≡ prefix_len is_name_byte rest.now }
    ensures within { result ≤ length rest.now }
{
    rest.iter().take_while(|byte| is_name_byte(**byte)).count()
}

/// How many digits stand at the front.
fn digits_len(rest: &[u8]) -> usize
    ensures value { result ≡ prefix_len is_ascii_digit rest.now }
    ensures within { result ≤ length rest.now }
{
    rest.iter().take_while(|byte| byte.is_ascii_digit()).count()
}

/// How many bytes from the front on may stand in a quoted literal, which has at most 64.
fn quoted_len(rest: &[u8]) -> usize
    ensures value { result ≡ quoted_len rest.now }
    ensures within { result ≤ length rest.now }
{
    rest.iter()
        .take(64)
        .take_while(|byte| is_quoted_byte(**byte))
        .count()
}

/// How many bytes stand before the next single quote, or before the end of the line.
fn literal_len(rest: &[u8]) -> usize
    ensures value { result ≡ literal_len rest.now }
    ensures within { result ≤ length rest.now }
{
    rest.iter()
        .take_while(|byte| !(**byte == b'\'' || **byte == b'\n'))
        .count()
}

/// How many bytes stand before the quote that ends a string, or before the end of the line.
fn string_len(rest: &[u8]) -> usize
    ensures value { result ≡ string_len false rest.now }
    ensures within { result ≤ length rest.now }
{
    let mut escaped = false;
    for (place, byte) in rest.iter().enumerate() {
        if *byte == b'\n' || (*byte == b'"' && !escaped) {
            return place;
        }
        escaped = *byte == b'\\' && !escaped;
    }
    rest.len()
}

/// How many bytes from the front on may stand in a string, each escape as a whole.
fn text_len(rest: &[u8]) -> usize
    ensures value { result ≡ text_len false rest.now }
    ensures within { result ≤ length rest.now }
{
    let mut good = 0;
    let mut escaped = false;
    for byte in rest {
        if escaped {
            if !is_escape(*byte) {
                return good;
            }
            good += 2;
            escaped = false;
        } else if *byte == b'\\' {
            escaped = true;
        } else if is_string_byte(*byte) {
            good += 1;
        } else {
            return good;
        }
    }
    good
}

const MOST_NUMBER: u64 = i64::MAX as u64;

/// The value of digits, if it is at most 9223372036854775807.
fn value(digits: &[u8]) -> Option<i64>
    requires { IsTrue (list_all is_ascii_digit digits.now) }
    ensures small { value_of digits.now < 2 ^ 63 → result ≡ Some (pos (value_of digits.now)) }
    ensures large { 2 ^ 63 ≤ value_of digits.now → result ≡ None }
{
    let mut value = 0;
    for digit in digits {
        let digit = u64::from(*digit - b'0');
        if value > (MOST_NUMBER - digit) / 10 {
            return None;
        }
        value = value * 10 + digit;
    }
    Some(value as i64)
}

/// The bytes up to and with the first `*/`.
fn comment_end(rest: &[u8]) -> Option<usize>
    ensures value { result ≡ comment_end rest.now }
    ensures within { IfSome result (λ n. n ≤ length rest.now) }
{
    for (place, byte) in rest.iter().enumerate() {
        if *byte == b'*' && place + 1 < rest.len() && rest[place + 1] == b'/' {
            return Some(place + 2);
        }
    }
    None
}

/// Whether this byte stands at the place.
fn stands_at(bytes: &[u8], place: usize, byte: u8) -> bool
    requires { 0 < byte }
    ensures { result ≡ (slice_index bytes.now place == byte) }
{
    place < bytes.len() && bytes[place] == byte
}

/// The comment before whose bytes `/*` stands.
#[tactic(auto, unfolding(crate::specs::Tokens::form_at))]
fn comment(rest: &[u8], at: usize) -> Form
    requires { at + length rest.now + 2 < 2 ^ 64 }
    ensures { result ≡ form_at at (spec.slash ∷ spec.star ∷ rest.now) }
{
    match comment_end(rest) {
        Some(len) => Form::Gap(len + 2),
        None => Form::Fault(LexFault::Unclosed(at)),
    }
}

/// The string whose first quote stands before `body`.
#[tactic(auto, using(crate::proofs::FormLemmas::string_forms))]
fn string(body: &[u8], at: usize) -> Form
    requires { at + length body.now + 1 < 2 ^ 64 }
    ensures { result ≡ form_at at (spec.double_quote ∷ body.now) }
{
    let len = string_len(body);
    if !stands_at(body, len, b'"') {
        return Form::Fault(LexFault::Unclosed(at));
    }
    let good = text_len(&body[..len]);
    if good == len {
        Form::Found(Kind::Text, len + 2)
    } else {
        Form::Fault(LexFault::Byte(at + 1 + good))
    }
}

/// The quoted literal whose first quote stands before `body`.
#[tactic(auto, using(crate::proofs::FormLemmas::literal_forms))]
fn literal(body: &[u8], at: usize) -> Form
    requires { at + length body.now + 1 < 2 ^ 64 }
    ensures { result ≡ form_at at (spec.single_quote ∷ body.now) }
{
    let len = literal_len(body);
    if !stands_at(body, len, b'\'') {
        return Form::Fault(LexFault::Unclosed(at));
    }
    let good = quoted_len(body);
    if len == 0 {
        Form::Fault(LexFault::Byte(at))
    } else if len <= good {
        Form::Found(Kind::Quoted, len + 2)
    } else {
        Form::Fault(LexFault::Byte(at + 1 + good))
    }
}

/// The name that begins here.
#[tactic(auto, using(crate::proofs::FormLemmas::name_forms))]
fn name(rest: &[u8], at: usize) -> Form
    requires { IsTrue (spec.is_letter (slice_index rest.now 0)) }
    ensures { result ≡ form_at at rest.now }
{
    let len = name_len(rest);
    if len <= 64 {
        Form::Found(Kind::Name, len)
    } else {
        Form::Fault(LexFault::LongName(at))
    }
}

/// The number that begins here.
#[tactic(auto, using(crate::proofs::FormLemmas::number_forms))]
fn number(rest: &[u8], at: usize) -> Form
    requires { IsTrue (is_ascii_digit (slice_index rest.now 0)) }
    ensures { result ≡ form_at at rest.now }
{
    let len = digits_len(rest);
    match value(&rest[..len]) {
        Some(value) => Form::Found(Kind::Number(value), len),
        None => Form::Fault(LexFault::LongNumber(at)),
    }
}

/// The symbol that begins here.
#[tactic(auto, using(crate::proofs::SymbolLemmas::symbol_forms))]
fn symbol(rest: &[u8], at: usize) -> Form
    requires some { 0 < length rest.now }
    requires sign { IsTrue (is_sign (slice_index rest.now 0)) }
    requires no_blank { IsFalse (spec.is_blank (slice_index rest.now 0)) }
    requires no_comment { IsFalse (opens_comment rest.now) }
    ensures { result ≡ form_at at rest.now }
{
    match longest_symbol(rest) {
        Some((symbol, len)) => Form::Found(Kind::Symbol(symbol), len),
        None => Form::Fault(LexFault::Byte(at)),
    }
}

/// What stands at the front of `rest`, the text from the place `at` on.
#[tactic(auto, using(crate::proofs::SymbolLemmas::blank_forms))]
pub fn form_at(rest: &[u8], at: usize) -> Form
    requires some { 0 < length rest.now }
    requires room { at + length rest.now < 2 ^ 64 }
    ensures { result ≡ form_at at rest.now }
{
    match rest {
        [first, ..] if is_blank(*first) => Form::Gap(1),
        [b'/', b'*', body @ ..] => comment(body, at),
        [b'"', body @ ..] => string(body, at),
        [b'\'', body @ ..] => literal(body, at),
        [first, ..] if is_letter(*first) => name(rest, at),
        [b'0'..=b'9', ..] => number(rest, at),
        _ => symbol(rest, at),
    }
}
