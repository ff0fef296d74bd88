//! Faults of tables as they are printed.
ghost use Rattle.std.specs.Prelude.{◌≡◌, ◌≢◌, IfOk};
ghost use Rattle.sg_ast.specs.View.{trees_of};
ghost use Rattle.sg_grammar.specs.Numbered.{grammar_of};
ghost use Rattle.sg_reports.specs.Tables.{printed_table};

use crate::items::printed_item;
use crate::places::{head_place, place_in, production_places};
use crate::symbols::{name_in, printed_symbols, symbol_in, symbols_in};
use sg_ast::decl::Decl;
use sg_grammar::Grammar;
use sg_kinds::fault::{PrintedConflict, SpecFault};
use sg_kinds::memory::NoMemory;
use sg_kinds::spec::Spec;
use sg_lalr::TableFault;
use std::alloc::Global;

/// A fault of tables as it is printed.
#[tactic(auto, unfolding(crate::specs::Tables::printed_table))]
fn printed_table(
    alloc: Global,
    decls: &[Decl],
    spec: &Spec,
    grammar: &Grammar,
    fault: TableFault,
) -> Result<SpecFault, NoMemory>
    requires { grammar.now ≡ grammar_of spec.now }
    ensures { IfOk result (λ f. f ≡ printed_table spec.now (trees_of decls.now) fault) }
{
    match fault {
        TableFault::Unproductive(x) => {
            let name = name_in(alloc, &printed_symbols(alloc, spec, false)?, x)?;
            Ok(SpecFault::Unproductive(head_place(name.as_slice(), decls), name))
        }
        TableFault::States => Ok(SpecFault::States),
        TableFault::Conflict(prefix, terminal, first, second) => {
            let symbols = printed_symbols(alloc, spec, true)?;
            let places = production_places(alloc, decls, spec)?;
            let conflict = PrintedConflict {
                prefix: symbols_in(alloc, &symbols, prefix.as_slice())?,
                terminal: symbol_in(alloc, &symbols, terminal)?,
                first: printed_item(alloc, grammar, &symbols, first)?,
                second: printed_item(alloc, grammar, &symbols, second)?,
            };
            Ok(SpecFault::Conflict(place_in(&places, first.production), conflict))
        }
        TableFault::NoMemory => Ok(SpecFault::NoMemory),
    }
}

/// A fault of the tables of a specification's grammar as it is printed: a nonterminal that derives nothing at its first
/// production, a conflict at the production of its first item, or at the entry whose start production that is.
pub fn table_fault(
    alloc: Global,
    decls: &[Decl],
    spec: &Spec,
    grammar: &Grammar,
    fault: TableFault,
) -> SpecFault
    requires { grammar.now ≡ grammar_of spec.now }
    ensures { result ≢ SpecFault.NoMemory → result ≡ printed_table spec.now (trees_of decls.now) fault }
{
    match printed_table(alloc, decls, spec, grammar, fault) {
        Ok(printed) => printed,
        Err(_) => SpecFault::NoMemory,
    }
}
