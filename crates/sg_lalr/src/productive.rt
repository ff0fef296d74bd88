//! Which symbols derive some tokens.
ghost use Rattle.std.specs.Prelude.{IfOk, IfSome, IfNone};
ghost use Rattle.sg_grammar.specs.Derives.{AllProductive, IsFirstUnproductive};

use crate::least_set::least_set;
use sg_grammar::Grammar;
use std::alloc::{AllocError, Global};

/// The first symbol that derives no tokens, or None where each derives some.
pub(crate) fn first_unproductive(alloc: Global, g: &Grammar) -> Result<Option<u32>, AllocError>
    ensures none { IfOk result (λ found. IfNone found (AllProductive g.now)) }
    ensures some { IfOk result (λ found. IfSome found (IsFirstUnproductive g.now)) }
{
    g.sound();
    let productive = least_set(alloc, g, g.terminals())?;
    for x in 0..g.symbols() {
        if !productive.contains(x as usize) {
            return Ok(Some(x));
        }
    }
    Ok(None)
}
