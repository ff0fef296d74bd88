//! Whether a name is known in the place of another.
ghost use Rattle.std.specs.Prelude.{◌≡◌, ◌+◌, ◌≤◌, length, IfOk, Ok};
ghost use Rattle.sg_ast.specs.View.{trees_of};
ghost use Rattle.sg_names.specs.Names.{names_of};
ghost use Rattle.sg_names.specs.UnknownName.{unknown_name};
ghost use Rattle.sg_nearby.specs.Tries.{is_known_before, knows as knows_by, knows_text as knows_in, knows_tokens, renamed as renamed_text};

use sg_ast::decl::Decl;
use sg_kinds::fault::SpecFault;
use sg_kinds::limits::TEXT_BYTES;
use sg_kinds::memory::NoMemory;
use sg_reader::{ReadFault, read};
use sg_tables::tables::tables;
use sg_text::{LexFault, Token, lex};
use sg_uses::walked::walked;
use std::alloc::Global;

// Whether a first unknown name stands behind a token.
fn is_behind(unknown: &Option<SpecFault>, token: u32) -> bool
    ensures { result ≡ is_known_before token unknown.now }
{
    match unknown {
        Some(SpecFault::UnknownName(place, _)) => token < place.token,
        Some(_) => false,
        None => true,
    }
}

// Whether the names of declarations up to a token have a meaning.
fn knows(alloc: Global, decls: &[Decl], token: u32) -> Result<bool, NoMemory>
    ensures { IfOk result (λ b. b ≡ knows_by token (trees_of decls.now)) }
{
    let names = tables(alloc, decls)?;
    let found = walked(alloc, &names, decls)?;
    Ok(is_behind(&found.unknown, token))
}

// The same of a text with these tokens.
fn knows_read(alloc: Global, text: &[u8], tokens: &[Token], token: u32) -> Result<bool, NoMemory>
    ensures { IfOk result (λ b. b ≡ knows_tokens text.now token (Ok tokens.now)) }
{
    // A text has no more tokens than bytes.
    if tokens.len() > TEXT_BYTES {
        return Err(NoMemory);
    }
    match read(alloc, text, tokens) {
        Ok(decls) => knows(alloc, &decls, token),
        Err(ReadFault::Syntax(..)) => Ok(false),
        Err(ReadFault::NoMemory) => Err(NoMemory),
    }
}

// Whether a text has declarations whose names up to a token have a meaning.
#[tactic(auto, unfolding(crate::specs::Tries::knows_text))]
fn knows_text(alloc: Global, text: &[u8], token: u32) -> Result<bool, NoMemory>
    ensures { IfOk result (λ b. b ≡ knows_in token text.now) }
{
    if text.len() > TEXT_BYTES {
        return Ok(false);
    }
    match lex(alloc, text) {
        Ok(tokens) => knows_read(alloc, text, &tokens, token),
        Err(LexFault::NoMemory) => Err(NoMemory),
        Err(_) => Ok(false),
    }
}

// The text with other bytes in place of so many from a place on.
fn renamed(
    alloc: Global,
    text: &[u8],
    at: usize,
    count: usize,
    name: &[u8],
) -> Result<Vec<u8>, NoMemory>
    requires { at + count ≤ length text.now }
    ensures { IfOk result (λ v. v.items ≡ renamed_text text.now at count name.now) }
{
    let mut out = Vec::new(alloc);
    out.extend_from_slice(&text[..at])?;
    out.extend_from_slice(name)?;
    out.extend_from_slice(&text[at + count..])?;
    Ok(out)
}

/// Whether a text has declarations whose names up to a token have a meaning, where a name stands in place of so many
/// bytes from a place on.
pub fn is_known(
    alloc: Global,
    text: &[u8],
    at: usize,
    count: usize,
    token: u32,
    name: &[u8],
) -> Result<bool, NoMemory>
    requires { at + count ≤ length text.now }
    ensures { IfOk result (λ b. b ≡ knows_in token (renamed_text text.now at count name.now)) }
{
    knows_text(alloc, &renamed(alloc, text, at, count, name)?, token)
}
