//! The names of a text that are near to an unknown one, and known in its place, as they are told.
ghost use Rattle.std.specs.Prelude.{◌≡◌, ◌+◌, ◌≤◌, ◌∷◌, ◌++◌, [], drop, flat_map, fold, length, IfOk, OnOk, Ok};
ghost use Rattle.sg_text.specs.Tokens.{tokens_of};
ghost use Rattle.sg_nearby.specs.Nearby.{choice_text, fitting as fitting_of, is_new as is_new_to, is_candidate as is_candidate_of, near_text, near_with, near_tokens as near_tokens_of, or_text, quoted_text, tries as tries_of, with_near, word as word_of};

use crate::edits::is_near;
use crate::tries::is_known;
use sg_kinds::limits::TEXT_BYTES;
use sg_kinds::memory::NoMemory;
use sg_text::{Kind, Token, lex};
use std::alloc::Global;

// The most near names that are tried.
const MOST_TRIED: usize = 8;

// How many near names of a text of this size are tried.
fn tries(size: usize) -> usize
    requires { size ≤ 1048576 }
    ensures { result ≡ tries_of size }
{
    MOST_TRIED.min(TEXT_BYTES / (size + 1))
}

// The bytes of a token.
#[tactic(auto, using(std::proofs::lemmas::List::take_min, std::proofs::lemmas::List::drop_min))]
fn word(bytes: &[u8], token: Token) -> &[u8]
    ensures { result.now ≡ word_of bytes.now token }
{
    let front = &bytes[..token.to.min(bytes.len())];
    &front[token.from.min(front.len())..]
}

fn is_new(bytes: &[u8], found: &[Token], name: &[u8]) -> bool
    ensures { result ≡ is_new_to bytes.now found.now name.now }
{
    for token in found {
        if name == word(bytes, *token) {
            return false;
        }
    }
    true
}

// Whether a token is a name that is near to this one and not yet found, while there are not so many.
fn is_candidate(bytes: &[u8], name: &[u8], most: usize, found: &[Token], token: Token) -> bool
    ensures { result ≡ is_candidate_of bytes.now name.now most found.now token }
{
    found.len() < most
        && (token.kind == Kind::Name
            && (is_near(name, word(bytes, token)) && is_new(bytes, found, word(bytes, token))))
}

// The first tokens of the first so many names that are near to this one.
fn near_tokens(
    alloc: Global,
    bytes: &[u8],
    tokens: &[Token],
    name: &[u8],
    most: usize,
) -> Result<Vec<Token>, NoMemory>
    ensures { IfOk result (λ v. v.items ≡ near_tokens_of bytes.now name.now most tokens.now) }
{
    let mut found = Vec::new(alloc);
    for token in tokens {
        if is_candidate(bytes, name, most, &found, *token) {
            found.push(*token)?;
        }
    }
    Ok(found)
}

// Those of these names that are known in the place of another.
fn fitting(
    alloc: Global,
    bytes: &[u8],
    at: usize,
    count: usize,
    number: u32,
    tokens: &[Token],
) -> Result<Vec<Token>, NoMemory>
    requires { at + count ≤ length bytes.now }
    ensures { IfOk result (λ v. v.items ≡ fitting_of bytes.now at count number tokens.now) }
{
    let mut found = Vec::new(alloc);
    for token in tokens {
        if is_known(alloc, bytes, at, count, number, word(bytes, *token))? {
            found.push(*token)?;
        }
    }
    Ok(found)
}

fn write_quoted(out: &mut Vec<u8>, bytes: &[u8]) -> Result<(), NoMemory>
    ensures { OnOk result (out.new.items ≡ out.old.items ++ quoted_text bytes.now) }
{
    out.push(b'`')?;
    out.extend_from_slice(bytes)?;
    out.push(b'`')?;
    Ok(())
}

// Some names, each behind an `or`.
fn write_others(out: &mut Vec<u8>, bytes: &[u8], tokens: &[Token]) -> Result<(), NoMemory>
    ensures { OnOk result (out.new.items ≡ out.old.items ++ flat_map (or_text bytes.now) tokens.now) }
{
    for token in tokens {
        out.extend_from_slice(b" or ")?;
        write_quoted(out, word(bytes, *token))?;
    }
    Ok(())
}

// The names as a choice, if there are any.
fn choice(alloc: Global, bytes: &[u8], tokens: &[Token]) -> Result<Vec<u8>, NoMemory>
    ensures { IfOk result (λ v. v.items ≡ choice_text bytes.now tokens.now) }
{
    let mut out = Vec::new(alloc);
    if let [token, others @ ..] = tokens {
        out.extend_from_slice(b"mend: write instead ")?;
        write_quoted(&mut out, word(bytes, *token))?;
        write_others(&mut out, bytes, others)?;
        out.push(b'\n')?;
    }
    Ok(out)
}

// What is told of a text with these tokens.
fn lines(
    alloc: Global,
    bytes: &[u8],
    tokens: &[Token],
    at: usize,
    number: u32,
    name: &[u8],
) -> Result<Vec<u8>, NoMemory>
    requires size { length bytes.now ≤ 1048576 }
    requires there { at + length name.now ≤ length bytes.now }
    ensures { IfOk result (λ v. v.items ≡ near_with bytes.now at number name.now (Ok tokens.now)) }
{
    let near = near_tokens(alloc, bytes, tokens, name, tries(bytes.len()))?;
    let found = fitting(alloc, bytes, at, name.len(), number, &near)?;
    choice(alloc, bytes, &found)
}

/// The names of a text that are one edit away from this one, whose token has this number and begins at this byte, and
/// with which in its place each name up to it has a meaning: a line of those of the first eight, if there are any. Of a
/// text of over 131,071 bytes fewer are tried.
pub fn nearby(
    alloc: Global,
    bytes: &[u8],
    at: usize,
    number: u32,
    name: &[u8],
) -> Result<Vec<u8>, NoMemory>
    requires { at ≤ length bytes.now }
    ensures { IfOk result (λ v. v.items ≡ near_text bytes.now at number name.now) }
{
    // The name stands there.
    if bytes.len() > TEXT_BYTES || name.len() > bytes.len() - at {
        return Err(NoMemory);
    }
    match lex(alloc, bytes) {
        Ok(tokens) => lines(alloc, bytes, &tokens, at, number, name),
        Err(_) => Err(NoMemory),
    }
}
