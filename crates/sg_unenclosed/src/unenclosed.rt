//! A chain of operators, as it is told.
ghost use Rattle.std.specs.Prelude.{◌≡◌, ◌++◌, flat_map, slice_get, Some, IfOk, OnOk};
ghost use Rattle.sg_ast.specs.View.{trees_of};
ghost use Rattle.sg_kinds.specs.Specification.{phylum_name, phylum_of};
ghost use Rattle.sg_remote.specs.Longer.{names_of};
ghost use Rattle.sg_unenclosed.specs.Unenclosed.{TellsBare, TellsChain, TellsOneOf, chain_text, is_among as is_among_of, is_link as is_link_of, is_step_by, leads as leads_to, line_text, operator_text, step_text};

use crate::search::{Step, is_listed, steps};
use sg_ast::decl::Decl;
use sg_kinds::decimal::write_number;
use sg_kinds::fault::Position;
use sg_kinds::ids::{OpId, PhylumId};
use sg_kinds::memory::NoMemory;
use sg_kinds::spec::{Far, Operator, Phylum};
use sg_names::names::Names;
use sg_names::table::Table;
use sg_remote::atoms::{Atom, atoms};
use sg_remote::hide;
use sg_tables::tables::tables;
use std::alloc::Global;

fn name_of(phyla: &[Phylum], phylum: PhylumId) -> &[u8]
    ensures { result.now ≡ phylum_name phyla.now phylum }
{
    match phyla.get(phylum.number as usize) {
        Some(phylum) => phylum.name.as_slice(),
        None => b"",
    }
}

// Writes the line of an operator that is declared at a place.
fn write_line(
    alloc: Global,
    out: &mut Vec<u8>,
    phyla: &[Phylum],
    operator: &Operator,
    line: u32,
) -> Result<(), NoMemory>
    ensures { OnOk result (out.new.items ≡ out.old.items ++ line_text phyla.now operator.now line) }
{
    out.extend_from_slice(b"  ")?;
    out.extend_from_slice(name_of(phyla, operator.phylum))?;
    out.extend_from_slice(b" : ")?;
    out.extend_from_slice(operator.name.as_slice())?;
    out.extend_from_slice(b", line ")?;
    write_number(alloc, out, line as u64)?;
    out.push(b'\n')?;
    Ok(())
}

fn write_operator(alloc: Global, out: &mut Vec<u8>, table: &Table, op: OpId) -> Result<(), NoMemory>
    ensures { OnOk result (out.new.items ≡ out.old.items ++ operator_text table.now op) }
{
    match (table.ops.place(op.number), table.op_places.place(op.number)) {
        (Some(operator), Some(place)) => {
            write_line(alloc, out, table.phyla.as_slice(), operator, place.line)
        }
        _ => Ok(()),
    }
}

fn write_steps(
    alloc: Global,
    out: &mut Vec<u8>,
    table: &Table,
    steps: &[Step],
) -> Result<(), NoMemory>
    ensures { OnOk result (out.new.items ≡ out.old.items ++ flat_map (step_text table.now) steps.now) }
{
    for step in steps {
        write_operator(alloc, out, table, step.op)?;
    }
    Ok(())
}

fn chain_lines(alloc: Global, table: &Table, steps: &[Step], op: OpId) -> Result<Vec<u8>, NoMemory>
    ensures { IfOk result (λ v. v.items ≡ chain_text table.now steps.now op) }
{
    let mut out = Vec::new(alloc);
    out.extend_from_slice(b"such as, each below the one before:\n")?;
    write_steps(alloc, &mut out, table, steps)?;
    write_operator(alloc, &mut out, table, op)?;
    Ok(out)
}

fn is_among(args: &[PhylumId], phylum: PhylumId) -> bool
    ensures { result ≡ is_among_of args.now phylum }
{
    args.iter().any(|argument| *argument == phylum)
}

// Whether an operator is of this phylum, which is not listed, and has an argument of that one.
fn is_link(operator: &Operator, list: &[Far], phylum: PhylumId, to: PhylumId) -> bool
    ensures { result ≡ is_link_of operator.now list.now phylum to }
{
    operator.phylum == phylum
        && (!is_listed(list, phylum) && is_among(operator.args.as_slice(), to))
}

fn is_step(ops: &[Operator], list: &[Far], phylum: PhylumId, op: OpId, to: PhylumId) -> bool
    ensures { result ≡ is_step_by (slice_get ops.now op) list.now phylum to }
{
    match ops.get(op.number as usize) {
        Some(operator) => is_link(operator, list, phylum, to),
        None => false,
    }
}

// Whether steps lead from one phylum to the other.
fn leads(ops: &[Operator], list: &[Far], from: PhylumId, steps: &[Step], to: PhylumId) -> bool
    ensures { result ≡ leads_to ops.now list.now from steps.now to }
{
    let mut phylum = from;
    for step in steps {
        if !is_step(ops, list, phylum, step.op, step.to) {
            return false;
        }
        phylum = step.to;
    }
    phylum == to
}

// What is told of the reference of an operator of a phylum.
#[tactic(auto, using(crate::proofs::Told::tells_chain))]
fn chain(alloc: Global, table: &Table, atom: &Atom, phylum: PhylumId) -> Result<Vec<u8>, NoMemory>
    requires { phylum_of table.now.ops atom.now.op ≡ Some phylum }
    ensures { IfOk result (λ v. TellsChain table.now atom.now v.items) }
{
    let ops = table.ops.as_slice();
    let list = atom.list.as_slice();
    let found = steps(alloc, table.phyla.len(), ops, list, table.root, phylum)?;
    // The reference is one of which there is such a chain.
    if !leads(ops, list, table.root, &found, phylum) {
        return Err(NoMemory);
    }
    let lines = chain_lines(alloc, table, &found, atom.op)?;
    Ok(lines)
}

fn told(alloc: Global, table: &Table, atom: &Atom) -> Result<Vec<u8>, NoMemory>
    ensures { IfOk result (λ v. TellsChain table.now atom.now v.items) }
{
    match table.ops.place(atom.op.number) {
        Some(operator) => chain(alloc, table, atom, operator.phylum),
        None => Err(NoMemory),
    }
}

// The same of that of some references which stands at a place.
#[tactic(auto, using(crate::proofs::Told::tells_one))]
fn told_at(
    alloc: Global,
    table: &Table,
    atoms: &[Atom],
    place: Position,
) -> Result<Vec<u8>, NoMemory>
    ensures { IfOk result (λ v. TellsOneOf table.now atoms.now place v.items) }
{
    for atom in atoms {
        if atom.place.token == place.token {
            let lines = told(alloc, table, atom)?;
            return Ok(lines);
        }
    }
    Err(NoMemory)
}

#[tactic(auto, using(crate::proofs::Told::tells_bare))]
fn named(alloc: Global, decls: &[Decl], names: &Names, place: Position) -> Result<Vec<u8>, NoMemory>
    requires { names.now ≡ names_of (trees_of decls.now) }
    ensures { IfOk result (λ v. TellsBare (trees_of decls.now) place v.items) }
{
    let found = atoms(alloc, decls, names)?;
    let lines = told_at(alloc, names.table(), &found, place)?;
    Ok(lines)
}

/// Of the reference to enclosing nodes at a place operators from the root phylum down to its own, each below the one
/// before, above which there is none of a listed phylum, as lines.
pub fn unenclosed(alloc: Global, decls: &[Decl], place: Position) -> Result<Vec<u8>, NoMemory>
    ensures { IfOk result (λ v. TellsBare (trees_of decls.now) place v.items) }
{
    let names = hide(alloc, decls, tables(alloc, decls)?)?;
    named(alloc, decls, &names, place)
}
