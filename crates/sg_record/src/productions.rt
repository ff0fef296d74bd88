//! Input productions.
ghost use Rattle.std.specs.Prelude.{◌≡◌, ◌++◌, map, IfOk, OnOk};
ghost use Rattle.sg_ast.specs.View.{tree_of, trees_of, right_of};
ghost use Rattle.sg_names.specs.Names.{map_from};
ghost use Rattle.sg_record.specs.Record as spec;
ghost use Rattle.std.specs.Prelude.{unwrap_or};
ghost use Rattle.sg_typing.specs.Bodies.{result_type};

use crate::bodies::{after, expr_id};
use crate::transforms::phylum_in;
use sg_ast::decl::{Decl, Part, Right};
use sg_ast::name::Name;
use sg_kinds::ids::PhylumId;
use sg_kinds::memory::NoMemory;
use sg_kinds::row::Row;
use sg_kinds::spec::{Production, Symbol};
use sg_kinds::text::Text;
use sg_names::names::Names;
use sg_typing::expr_count;
use std::alloc::Global;

/// The number of a nonterminal, 0 where the name means none.
pub(crate) fn nonterminal_in(names: &Names, name: &Text) -> u32
    ensures { result ≡ spec.nonterminal_in names.now name.now }
{
    match names.nonterminal_named(name) {
        Some(number) => number,
        None => 0,
    }
}

/// The type of the attribute of a nonterminal, 0 where it has none.
fn result_of(names: &Names, name: &Name) -> PhylumId
    ensures { result ≡ unwrap_or (result_type names.now name.now) 0 }
{
    match names.symbol_attrs(&name.text).first() {
        Some(attr) => attr.of,
        None => PhylumId { number: 0 },
    }
}

/// A symbol of a production.
fn symbol(alloc: Global, names: &Names, part: &Part) -> Result<Symbol, NoMemory>
    ensures { IfOk result (λ s. s ≡ spec.symbol_of names.now part.now) }
{
    match part {
        Part::Named(name) => match names.nonterminal_named(&name.text) {
            Some(number) => Ok(Symbol::Nonterminal(number)),
            None => Ok(Symbol::Lexical(phylum_in(names, &name.text))),
        },
        Part::Literal(quoted) => Ok(Symbol::Quoted(quoted.text.copy(alloc)?)),
    }
}

fn symbols(alloc: Global, names: &Names, parts: &[Part]) -> Result<Row<Symbol>, NoMemory>
    ensures { IfOk result (λ r. r ≡ map (spec.symbol_of names.now) parts.now) }
{
    let mut symbols = Vec::new(alloc);
    for part in parts {
        symbols.push(symbol(alloc, names, part)?)?;
    }
    Ok(Row::new(symbols))
}

/// A production of a nonterminal with expression k.
fn production(
    alloc: Global,
    names: &Names,
    left: &Name,
    k: usize,
    right: &Right,
) -> Result<Production, NoMemory>
    ensures { IfOk result (λ r. r ≡ spec.production names.now left.now k (right_of right.now)) }
{
    Ok(Production {
        name: left.text.copy(alloc)?,
        left: nonterminal_in(names, &left.text),
        of: result_of(names, left),
        right: symbols(alloc, names, right.parts.as_slice())?,
        expr: expr_id(k)?,
    })
}

/// Puts productions last, of which the first has expression `first`.
fn add_productions(
    alloc: Global,
    names: &Names,
    left: &Name,
    first: usize,
    rights: &[Right],
    productions: &mut Vec<Production>,
) -> Result<(), NoMemory>
    ensures { OnOk result (productions.new.items ≡ productions.old.items
        ++ map_from (spec.production names.now left.now) first (map right_of rights.now)) }
{
    let mut k = first;
    for right in rights {
        productions.push(production(alloc, names, left, k, right)?)?;
        k = after(k, 1)?;
    }
    Ok(())
}

fn add_productions_at(
    alloc: Global,
    names: &Names,
    k: usize,
    decl: &Decl,
    productions: &mut Vec<Production>,
) -> Result<(), NoMemory>
    ensures { OnOk result (productions.new.items ≡ productions.old.items
        ++ spec.productions_at names.now k (tree_of decl.now)) }
{
    match decl {
        Decl::Productions(left, rights) => {
            add_productions(alloc, names, left, k, rights, productions)
        }
        _ => Ok(()),
    }
}

/// The input productions.
pub(crate) fn productions(
    alloc: Global,
    decls: &[Decl],
    names: &Names,
) -> Result<Vec<Production>, NoMemory>
    ensures { IfOk result (λ v. v.items ≡ spec.productions_in names.now 0 (trees_of decls.now)) }
{
    let mut productions = Vec::new(alloc);
    let mut k = 0;
    for decl in decls {
        add_productions_at(alloc, names, k, decl, &mut productions)?;
        k = after(k, expr_count(decl))?;
    }
    Ok(productions)
}
