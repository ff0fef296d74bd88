//! The search for what mends a text.
ghost use Rattle.std.specs.Prelude.{◌≤◌, length, IfOk};
ghost use Rattle.sg_mends.specs.Mends.{IsMends};

use crate::changes::Mends;
use crate::past::past;
use crate::piece::PIECES;
use crate::reads::{fits, fitting};
use sg_kinds::memory::NoMemory;
use std::alloc::Global;

// The most bytes of a text in which changes are tried.
const MOST_TRIED: usize = 65_536;

/// What mends a text whose reading stops at the token from one place to another, or at its end if both are that: pieces
/// to put in, else to take the token out, else pieces to write instead.
pub fn mends(alloc: Global, text: &[u8], from: usize, to: usize) -> Result<Mends, NoMemory>
    requires begins { from ≤ length text.now }
    requires ends { to ≤ length text.now }
    ensures { IfOk result (IsMends text.now from to) }
{
    if text.len() > MOST_TRIED {
        return Ok(Mends::Untried);
    }
    let put_in = fitting(alloc, text, from, from, &PIECES)?;
    if put_in.len() > 0 {
        return Ok(Mends::PutIn(put_in));
    }
    if fits(alloc, text, from, to, b"")? {
        return Ok(Mends::TakeOut);
    }
    let instead = fitting(alloc, text, from, to, &PIECES)?;
    if instead.len() > 0 {
        return Ok(Mends::Instead(instead));
    }
    Ok(Mends::Past(past(alloc, &text[..from], &PIECES)?))
}
