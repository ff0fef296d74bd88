//! Items as they are printed.
ghost use Rattle.std.specs.Prelude.{◌≡◌, IfOk, slice_get, option_map};
ghost use Rattle.sg_grammar.specs.Grammar.{right_of};
ghost use Rattle.sg_grammar.specs.declared.grammar.Production.{Production};
ghost use Rattle.sg_reports.specs.Symbols.{symbol_in, name_of};
ghost use Rattle.sg_reports.specs.Items.{item_in};

use crate::symbols::{name_in, symbols_in};
use sg_grammar::Grammar;
use sg_kinds::fault::{PrintedItem, PrintedSymbol};
use sg_kinds::memory::NoMemory;
use sg_kinds::text::Text;
use sg_lalr::Item;
use std::alloc::Global;

/// The right side of a production, empty where it is not there.
fn right_of(grammar: &Grammar, production: u32) -> &[u32]
    ensures { result.now ≡ right_of grammar.now production }
{
    grammar.sound();
    let count = grammar.rules().len() + grammar.entries().len();
    if (production as usize) < count {
        grammar.right(production)
    } else {
        &[]
    }
}

/// The name of a production's left side, if it is no start production.
fn left_of(
    alloc: Global,
    grammar: &Grammar,
    symbols: &[PrintedSymbol],
    production: u32,
) -> Result<Option<Text>, NoMemory>
    ensures { IfOk result (λ o. o ≡ option_map (λ (r : Production). name_of (symbol_in symbols.now r.left))
        (slice_get grammar.now.rules production)) }
{
    match grammar.rules().get(production as usize) {
        Some(production) => Ok(Some(name_in(alloc, symbols, production.left)?)),
        None => Ok(None),
    }
}

/// An item as it is printed, by a grammar and its symbols.
#[tactic(auto, unfolding(crate::specs::Items::item_in))]
pub fn printed_item(
    alloc: Global,
    grammar: &Grammar,
    symbols: &[PrintedSymbol],
    item: Item,
) -> Result<PrintedItem, NoMemory>
    ensures { IfOk result (λ i. i ≡ item_in grammar.now symbols.now item) }
{
    Ok(PrintedItem {
        left: left_of(alloc, grammar, symbols, item.production)?,
        right: symbols_in(alloc, symbols, right_of(grammar, item.production))?,
        dot: item.dot,
    })
}
