//! Which pieces make a text read.
ghost use Rattle.std.specs.Prelude.{◌≡◌, ◌≤◌, length, IfOk, Ok};
ghost use Rattle.sg_mends.specs.Mends.{fitting_of, mended as mended_text, reads as reads_of, reads_with};

use crate::piece::Piece;
use sg_kinds::limits::TEXT_BYTES;
use sg_kinds::memory::NoMemory;
use sg_kinds::row::Row;
use sg_reader::{ReadFault, read};
use sg_text::{LexFault, Token, lex};
use std::alloc::Global;

// Whether each declaration of a text with these tokens has a reading.
fn has_readings(alloc: Global, text: &[u8], tokens: &[Token]) -> Result<bool, NoMemory>
    ensures { IfOk result (λ b. b ≡ reads_with text.now (Ok tokens.now)) }
{
    // A text has no more tokens than bytes.
    if tokens.len() > TEXT_BYTES {
        return Err(NoMemory);
    }
    match read(alloc, text, tokens) {
        Ok(_) => Ok(true),
        Err(ReadFault::Syntax(..)) => Ok(false),
        Err(ReadFault::NoMemory) => Err(NoMemory),
    }
}

/// Whether a text reads.
#[tactic(auto, unfolding(crate::specs::Mends::reads))]
pub fn reads(alloc: Global, text: &[u8]) -> Result<bool, NoMemory>
    ensures { IfOk result (λ b. b ≡ reads_of text.now) }
{
    if text.len() > TEXT_BYTES {
        return Ok(false);
    }
    match lex(alloc, text) {
        Ok(tokens) => has_readings(alloc, text, &tokens),
        Err(LexFault::NoMemory) => Err(NoMemory),
        Err(_) => Ok(false),
    }
}

/// The text with these bytes between two blanks, in place of those from one place to another.
pub fn mended(
    alloc: Global,
    text: &[u8],
    from: usize,
    to: usize,
    bytes: &[u8],
) -> Result<Vec<u8>, NoMemory>
    requires begins { from ≤ length text.now }
    requires ends { to ≤ length text.now }
    ensures { IfOk result (λ v. v.items ≡ mended_text text.now from to bytes.now) }
{
    let mut out = Vec::new(alloc);
    out.extend_from_slice(&text[..from])?;
    out.push(b' ')?;
    out.extend_from_slice(bytes)?;
    out.push(b' ')?;
    out.extend_from_slice(&text[to..])?;
    Ok(out)
}

/// Whether a text reads so.
pub fn fits(
    alloc: Global,
    text: &[u8],
    from: usize,
    to: usize,
    bytes: &[u8],
) -> Result<bool, NoMemory>
    requires begins { from ≤ length text.now }
    requires ends { to ≤ length text.now }
    ensures { IfOk result (λ b. b ≡ reads_of (mended_text text.now from to bytes.now)) }
{
    reads(alloc, &mended(alloc, text, from, to, bytes)?)
}

/// Those of some pieces with which a text reads, in their order.
pub fn fitting(
    alloc: Global,
    text: &[u8],
    from: usize,
    to: usize,
    pieces: &[Piece],
) -> Result<Row<Piece>, NoMemory>
    requires begins { from ≤ length text.now }
    requires ends { to ≤ length text.now }
    ensures { IfOk result (λ ps. ps ≡ fitting_of text.now from to pieces.now) }
{
    let mut found = Vec::new(alloc);
    for piece in pieces {
        if fits(alloc, text, from, to, piece.bytes())? {
            found.push(*piece)?;
        }
    }
    Ok(Row::new(found))
}
