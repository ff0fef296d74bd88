// Samples: a sentence's front for the prefix of a conflict, and the nonterminals without a sentence.
ghost use Rattle.std.specs.Prelude.{◌≡◌, ◌++◌, flat_map, IfOk, OnOk, Ok};
ghost use Rattle.sg_ast.specs.View.{trees_of};
ghost use Rattle.sg_grammar.specs.Numbered.{grammar_of};
ghost use Rattle.sg_faults.specs.FaultLine.{fault_line as line_of};
ghost use Rattle.sg_load.specs.Only.{IsTheSpec};
ghost use Rattle.sg_load.specs.Trees.{trees_in};
ghost use Rattle.sg_lalr.specs.Tables.{IsTableFault};
ghost use Rattle.sg_lalr.specs.declared.table.TableFault.TheVariants.{Conflict};
ghost use Rattle.sg_reports.specs.Tables.{printed_table};
ghost use Rattle.sg_reports.specs.Symbols.{name_of, symbol_in as symbol_of};
ghost use Rattle.sg_witnesses.specs.Samples.{IsPrefix, IsSampled, TellsBarren, TellsConflict, barren_text, conflict_lines, deed_text, deed_word, name_text, such_text, symbol_text};

use crate::same::expect_same;
use sg_ast::decl::Decl;
use sg_faults::{write_item, write_symbol};
use sg_grammar::{Grammar, make};
use sg_kinds::fault::{PrintedConflict, PrintedItem, PrintedSymbol, SpecFault};
use sg_kinds::memory::NoMemory;
use sg_kinds::row::Row;
use sg_kinds::spec::Spec;
use sg_lalr::{Item, TableFault, tables};
use sg_load::{assembled, declarations};
use sg_reports::symbols::{printed_symbols, symbol_in};
use sg_reports::tables::table_fault;
use sg_samples::{barren, sample};
use std::alloc::Global;

// The declarations of a text and their record. A text whose verdict is a fault of its grammar has one.
fn record(alloc: Global, bytes: &[u8]) -> Result<(Vec<Decl>, Spec), NoMemory>
    ensures trees { IfOk result (λ r. trees_in bytes.now ≡ Ok (trees_of r.0.items)) }
    ensures the { IfOk result (λ r. IsTheSpec (trees_of r.0.items) r.1) }
{
    let Ok(decls) = declarations(alloc, bytes) else {
        return Err(NoMemory);
    };
    match assembled(alloc, &decls) {
        Ok(spec) => Ok((decls, spec)),
        Err(_) => Err(NoMemory),
    }
}

// A fault of a record's grammar as it is printed.
fn printed(
    alloc: Global,
    decls: &[Decl],
    spec: &Spec,
    grammar: &Grammar,
    of: TableFault,
) -> Result<SpecFault, NoMemory>
    requires { grammar.now ≡ grammar_of spec.now }
    ensures { IfOk result (λ f. f ≡ printed_table spec.now (trees_of decls.now) of) }
{
    let printed = table_fault(alloc, decls, spec, grammar, of);
    if matches!(printed, SpecFault::NoMemory) {
        return Err(NoMemory);
    }
    Ok(printed)
}

// Ends with an error where a fault of a record's grammar is not printed as this one.
fn expect_printed(
    alloc: Global,
    decls: &[Decl],
    spec: &Spec,
    grammar: &Grammar,
    of: TableFault,
    fault: &SpecFault,
) -> Result<(), NoMemory>
    requires { grammar.now ≡ grammar_of spec.now }
    ensures { OnOk result (line_of (printed_table spec.now (trees_of decls.now) of) ≡ line_of fault.now) }
{
    let printed = printed(alloc, decls, spec, grammar, of)?;
    expect_same(alloc, &printed, fault)
}

// The least conflict of a grammar.
#[derive(Drop)]
struct LeastConflict {
    prefix: Row<u32>,
    terminal: u32,
    first: Item,
    second: Item,
}

// That of a grammar that has one.
fn least(alloc: Global, grammar: &Grammar) -> Result<LeastConflict, NoMemory>
    ensures { IfOk result (λ x. IsTableFault grammar.now (Conflict x.prefix x.terminal x.first x.second)) }
{
    match tables(alloc, grammar) {
        Err(TableFault::Conflict(prefix, terminal, first, second)) => Ok(LeastConflict {
            prefix,
            terminal,
            first,
            second,
        }),
        _ => Err(NoMemory),
    }
}

// The prefix of the least conflict of a record's grammar, which is printed as this fault.
#[tactic(auto, using(crate::proofs::Sampled::is_prefix))]
fn prefix(
    alloc: Global,
    decls: &[Decl],
    spec: &Spec,
    grammar: &Grammar,
    fault: &SpecFault,
) -> Result<Row<u32>, NoMemory>
    requires { grammar.now ≡ grammar_of spec.now }
    ensures { IfOk result (IsPrefix (trees_of decls.now) spec.now fault.now) }
{
    let found = least(alloc, grammar)?;
    let kept = found.prefix.copy(alloc)?;
    let of = TableFault::Conflict(found.prefix, found.terminal, found.first, found.second);
    expect_printed(alloc, decls, spec, grammar, of, fault)?;
    Ok(kept)
}

// A sample of that prefix.
fn sampled(
    alloc: Global,
    decls: &[Decl],
    spec: &Spec,
    fault: &SpecFault,
) -> Result<Vec<u32>, NoMemory>
    ensures { IfOk result (λ v. IsSampled (trees_of decls.now) spec.now fault.now v.items) }
{
    let grammar = make(alloc, spec)?;
    let prefix = prefix(alloc, decls, spec, &grammar, fault)?;
    sample(alloc, &grammar, prefix.as_slice())
}

fn write_string(
    alloc: Global,
    out: &mut Vec<u8>,
    symbols: &[PrintedSymbol],
    string: &[u32],
) -> Result<(), NoMemory>
    ensures { OnOk result (out.new.items ≡ out.old.items ++ flat_map (symbol_text symbols.now) string.now) }
{
    for x in string {
        let symbol = symbol_in(alloc, symbols, *x)?;
        out.push(b' ')?;
        write_symbol(out, &symbol)?;
    }
    Ok(())
}

fn write_such(
    alloc: Global,
    out: &mut Vec<u8>,
    symbols: &[PrintedSymbol],
    string: &[u32],
    terminal: &PrintedSymbol,
) -> Result<(), NoMemory>
    ensures { OnOk result (out.new.items ≡ out.old.items ++ such_text symbols.now string.now terminal.now) }
{
    out.extend_from_slice(b"such as")?;
    write_string(alloc, out, symbols, string)?;
    out.extend_from_slice(b", then ")?;
    write_symbol(out, terminal)?;
    out.push(b'\n')?;
    Ok(())
}

// Writes how an item goes on with a terminal, or that it ends.
fn write_word(
    out: &mut Vec<u8>,
    terminal: &PrintedSymbol,
    item: &PrintedItem,
) -> Result<(), NoMemory>
    ensures { OnOk result (out.new.items ≡ out.old.items ++ deed_word terminal.now item.now) }
{
    if (item.dot as usize) < item.right.len() {
        out.extend_from_slice(b" goes on with ")?;
        write_symbol(out, terminal)?;
        return Ok(());
    }
    out.extend_from_slice(b" ends here")?;
    Ok(())
}

// Writes what an item does on a terminal.
fn write_deed(
    out: &mut Vec<u8>,
    terminal: &PrintedSymbol,
    item: &PrintedItem,
) -> Result<(), NoMemory>
    ensures { OnOk result (out.new.items ≡ out.old.items ++ deed_text terminal.now item.now) }
{
    out.extend_from_slice(b"  ")?;
    write_item(out, item)?;
    write_word(out, terminal, item)?;
    out.push(b'\n')?;
    Ok(())
}

// The lines of a conflict with this sample of its prefix.
fn lines(
    alloc: Global,
    spec: &Spec,
    string: &[u32],
    conflict: &PrintedConflict,
) -> Result<Vec<u8>, NoMemory>
    ensures { IfOk result (λ v. v.items ≡ conflict_lines spec.now string.now conflict.now) }
{
    let symbols = printed_symbols(alloc, spec, true)?;
    let mut out = Vec::new(alloc);
    write_such(alloc, &mut out, &symbols, string, &conflict.terminal)?;
    write_deed(&mut out, &conflict.terminal, &conflict.first)?;
    write_deed(&mut out, &conflict.terminal, &conflict.second)?;
    Ok(out)
}

/// A sample of the prefix of a text's fault, which is this conflict, and what each of its items does behind it, as lines.
#[tactic(auto, using(crate::proofs::Sampled::tells_conflict))]
pub fn conflict(
    alloc: Global,
    bytes: &[u8],
    fault: &SpecFault,
    found: &PrintedConflict,
) -> Result<Vec<u8>, NoMemory>
    ensures { IfOk result (λ v. TellsConflict bytes.now fault.now found.now v.items) }
{
    let (decls, spec) = record(alloc, bytes)?;
    let string = sampled(alloc, &decls, &spec, fault)?;
    lines(alloc, &spec, &string, found)
}

// The name of a nonterminal, empty for another symbol.
fn name_at(symbols: &[PrintedSymbol], x: u32) -> &[u8]
    ensures { result.now ≡ name_of (symbol_of symbols.now x) }
{
    match symbols.get(x as usize) {
        Some(PrintedSymbol::Name(name)) => name.as_slice(),
        _ => &[],
    }
}

// Writes the names of nonterminals, each at its first level.
fn write_names(out: &mut Vec<u8>, symbols: &[PrintedSymbol], barren: &[u32]) -> Result<(), NoMemory>
    ensures { OnOk result (out.new.items ≡ out.old.items ++ flat_map (name_text symbols.now) barren.now) }
{
    for x in barren {
        let name = name_at(symbols, *x);
        if name != name_at(symbols, x.saturating_sub(1)) {
            out.push(b' ')?;
            out.extend_from_slice(name)?;
        }
    }
    Ok(())
}

fn barren_line(alloc: Global, spec: &Spec, barren: &[u32]) -> Result<Vec<u8>, NoMemory>
    ensures { IfOk result (λ v. v.items ≡ barren_text spec.now barren.now) }
{
    let symbols = printed_symbols(alloc, spec, false)?;
    let mut out = Vec::new(alloc);
    out.extend_from_slice(b"without a sentence:")?;
    write_names(&mut out, &symbols, barren)?;
    out.push(b'\n')?;
    Ok(out)
}

/// All nonterminals of a text without a sentence, as a line.
#[tactic(auto, using(crate::proofs::Sampled::tells_barren))]
pub fn unproductive(alloc: Global, bytes: &[u8]) -> Result<Vec<u8>, NoMemory>
    ensures { IfOk result (λ v. TellsBarren bytes.now v.items) }
{
    let (_, spec) = record(alloc, bytes)?;
    let grammar = make(alloc, &spec)?;
    let barren = barren(alloc, &grammar)?;
    barren_line(alloc, &spec, &barren)
}
