//! The tables of grammars.
ghost use Rattle.std.specs.Prelude.{◌≡◌, IfOk, IfErr};
ghost use Rattle.sg_lalr.specs.Prefixes.{TooMany};
ghost use Rattle.sg_lalr.specs.Tables.{IsTableFault};

use crate::productive::first_unproductive;
use crate::table::{TableFault, Tables, with_entry, without_entry};
use sg_grammar::Grammar;
use std::alloc::Global;

/// The tables of a grammar, or why it has none: its first unproductive symbol, then too many states, then its least
/// conflict.
pub fn tables(alloc: Global, g: &Grammar) -> Result<Tables, TableFault>
    ensures ok { IfOk result (λ t. t.grammar ≡ g.now) }
    ensures fit { IfOk result (λ _. TooMany g.now → ⊥) }
    ensures fault { IfErr result (IsTableFault g.now) }
{
    if let Some(x) = first_unproductive(alloc, g)? {
        return Err(TableFault::Unproductive(x));
    }
    if g.entries().is_empty() {
        without_entry(alloc, g)
    } else {
        with_entry(alloc, g)
    }
}
