//! Where the reading of a declaration stops.
ghost use Rattle.std.specs.Prelude.{◌≤◌, ◌<◌, ◌^◌, length, IfOk};

use sg_cursor::{Refusal, Tokens};
use sg_kinds::memory::NoMemory;
use sg_reader::declaration;
use sg_text::Token;
use std::alloc::Global;

/// How many tokens of a declaration were read before reading gave up or the declaration ended, from 0 to all. Where it
/// gave up, the next token no longer fits those before it, or there is none and reading wanted more.
pub fn stop(alloc: Global, bytes: &[u8], tokens: &[Token]) -> Result<usize, NoMemory>
    requires short { length tokens.now < 2 ^ 32 }
    ensures within { IfOk result (λ n. n ≤ length tokens.now) }
{
    let mut left = Tokens::new(bytes, tokens, 0);
    let mut trees = Vec::new(alloc);
    match declaration(alloc, &mut left) {
        Ok(tree) => trees.push(tree)?,
        Err(Refusal::NoReading) => {}
        Err(Refusal::NoMemory) => return Err(NoMemory),
    }
    Ok(tokens.len().saturating_sub(left.len()))
}
