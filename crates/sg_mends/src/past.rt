//! The pieces past which reading goes.
use crate::piece::Piece;
use crate::reads::mended;
use crate::stopping::stop;
use sg_kinds::limits::TEXT_BYTES;
use sg_kinds::memory::NoMemory;
use sg_kinds::row::Row;
use sg_text::{LexFault, Token, lex};
use std::alloc::Global;

// Whether reading goes past all tokens of a declaration.
fn is_past(alloc: Global, text: &[u8], tokens: &[Token]) -> Result<bool, NoMemory> {
    // A text has no more tokens than bytes.
    if tokens.len() > TEXT_BYTES {
        return Err(NoMemory);
    }
    Ok(stop(alloc, text, tokens)? == tokens.len())
}

// Whether reading goes past a piece behind the front of a declaration.
fn goes_past(alloc: Global, front: &[u8], piece: Piece) -> Result<bool, NoMemory> {
    let text = mended(alloc, front, front.len(), front.len(), piece.bytes())?;
    if text.len() > TEXT_BYTES {
        return Ok(false);
    }
    match lex(alloc, &text) {
        Ok(tokens) => is_past(alloc, &text, &tokens),
        Err(LexFault::NoMemory) => Err(NoMemory),
        Err(_) => Ok(false),
    }
}

/// Those of some pieces past which reading goes behind the front of a declaration.
pub fn past(alloc: Global, front: &[u8], pieces: &[Piece]) -> Result<Row<Piece>, NoMemory> {
    let mut found = Vec::new(alloc);
    for piece in pieces {
        if goes_past(alloc, front, *piece)? {
            found.push(*piece)?;
        }
    }
    Ok(Row::new(found))
}
