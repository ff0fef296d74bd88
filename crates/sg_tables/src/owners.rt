//! What phyla, nonterminals and operators own by the declarations.
ghost use Rattle.std.specs.Prelude.{◌≡◌, ◌++◌, ℕ, List, option_map, length, map, unwrap_or, IfOk, OnOk};
ghost use Rattle.sg_ast.specs.View.{tree_of, trees_of};
ghost use Rattle.sg_names.specs.Heads as head;
ghost use Rattle.sg_names.specs.Meaning.{meaning};
ghost use Rattle.sg_names.specs.Names as spec;
ghost use Rattle.sg_names.specs.Rows.{row_at};
ghost use Rattle.sg_names.specs.declared.table.Callable.TheVariants as callable;

use crate::heads::Heads;
use sg_ast::decl::{AttrDecl, Decl};
use sg_ast::name::{Name, Typed};
use sg_kinds::ids::{OpId, PhylumId};
use sg_kinds::marks::Shape;
use sg_kinds::memory::NoMemory;
use sg_kinds::row::Row;
use sg_kinds::spec::{Attr, Local, Operator};
use sg_kinds::text::Text;
use sg_names::callables::number;
use sg_names::groups::Groups;
use sg_names::index::Index;
use sg_names::table::Callable;
use std::alloc::Global;

fn add_attributes(
    alloc: Global,
    phyla: &Heads,
    found: &mut Groups<Attr>,
    owner: u32,
    attrs: &[AttrDecl],
) -> Result<(), NoMemory>
    ensures { OnOk result ((k : ℕ) → row_at found.new k
        ≡ row_at found.old k ++ spec.owned (map (spec.attribute phyla.now owner) attrs.now) k) }
{
    for decl in attrs {
        let attr = Attr {
            name: decl.name.text.copy(alloc)?,
            way: decl.way,
            of: PhylumId {
                number: phyla.number(&decl.of.text),
            },
            far: Row::new(Vec::new(alloc)),
        };
        found.put(alloc, owner, attr)?;
    }
    Ok(())
}

fn add_attributes_at(
    alloc: Global,
    owners: &Heads,
    phyla: &Heads,
    found: &mut Groups<Attr>,
    decl: &Decl,
) -> Result<(), NoMemory>
    ensures { OnOk result ((k : ℕ) → row_at found.new k
        ≡ row_at found.old k ++ spec.owned (spec.attributes_at owners.now phyla.now (tree_of decl.now)) k) }
{
    match decl {
        Decl::Attributes(name, attrs) => {
            let owner = owners.number(&name.text);
            add_attributes(alloc, phyla, found, owner, attrs.as_slice())
        }
        _ => Ok(()),
    }
}

/// The attributes of these owners.
pub(crate) fn attributes(
    alloc: Global,
    owners: &Heads,
    phyla: &Heads,
    decls: &[Decl],
) -> Result<Groups<Attr>, NoMemory>
    ensures { IfOk result (λ g. (k : ℕ) → row_at g k ≡ spec.attributes_of owners.now phyla.now (trees_of decls.now) k) }
{
    let mut found = Groups::new(alloc);
    for decl in decls {
        add_attributes_at(alloc, owners, phyla, &mut found, decl)?;
    }
    Ok(found)
}

fn add_listing_at(
    alloc: Global,
    phyla: &Heads,
    found: &mut Groups<Shape>,
    decl: &Decl,
) -> Result<(), NoMemory>
    ensures { OnOk result ((k : ℕ) → row_at found.new k
        ≡ row_at found.old k ++ spec.owned (spec.listing_at phyla.now (tree_of decl.now)) k) }
{
    match decl {
        Decl::Listed(name) => found.put(alloc, phyla.number(&name.text), Shape::Listed),
        Decl::Optional(true, name) => {
            found.put(alloc, phyla.number(&name.text), Shape::OptionalListed)
        }
        Decl::Optional(false, name) => {
            found.put(alloc, phyla.number(&name.text), Shape::Optional)
        }
        _ => Ok(()),
    }
}

/// What the declarations of lists and optional phyla say.
pub(crate) fn listings(
    alloc: Global,
    phyla: &Heads,
    decls: &[Decl],
) -> Result<Groups<Shape>, NoMemory>
    ensures { IfOk result (λ g. (k : ℕ) → row_at g k ≡ spec.listings_of phyla.now (trees_of decls.now) k) }
{
    let mut found = Groups::new(alloc);
    for decl in decls {
        add_listing_at(alloc, phyla, &mut found, decl)?;
    }
    Ok(found)
}

/// The operators of the phyla.
pub(crate) fn operators(alloc: Global, ops: &[Operator]) -> Result<Groups<OpId>, NoMemory>
    ensures { IfOk result (λ g. (k : ℕ) → row_at g k ≡ spec.owned (spec.owners ops.now) k) }
{
    let mut found = Groups::new(alloc);
    for (place, operator) in ops.iter().enumerate() {
        let op = OpId {
            number: number(place)?,
        };
        found.put(alloc, operator.phylum.number, op)?;
    }
    Ok(found)
}

/// An operator of a phylum.
fn op_of(callables: &Index<Callable>, ops: &[Operator], phylum: u32, name: &Text) -> Option<OpId>
    requires { (n : List ℕ) → meaning callables.now n ≡ option_map callable.Operator (spec.op_named ops.now n) }
    ensures { result ≡ spec.operator_of ops.now phylum name.now }
{
    let op = callables.get(name.as_slice())?.operator()?;
    let operator = ops.get(op.number as usize)?;
    if operator.phylum.number == phylum {
        Some(op)
    } else {
        None
    }
}

/// The number of an operator of a phylum, or of all operators where it is not there.
fn op_number(
    phyla: &Heads,
    callables: &Index<Callable>,
    ops: &[Operator],
    phylum: &Name,
    name: &Name,
) -> Result<u32, NoMemory>
    requires { (n : List ℕ) → meaning callables.now n ≡ option_map callable.Operator (spec.op_named ops.now n) }
    ensures { IfOk result (λ op. op ≡ unwrap_or (spec.operator_of ops.now
        (head.number_in phyla.now phylum.now.text) name.now.text) (length ops.now)) }
{
    match op_of(callables, ops, phyla.number(&phylum.text), &name.text) {
        Some(op) => Ok(op.number),
        None => number(ops.len()),
    }
}

fn add_locals(
    alloc: Global,
    phyla: &Heads,
    found: &mut Groups<Local>,
    op: u32,
    locals: &[Typed],
) -> Result<(), NoMemory>
    ensures { OnOk result ((k : ℕ) → row_at found.new k
        ≡ row_at found.old k ++ spec.owned (map (spec.local phyla.now op) locals.now) k) }
{
    for typed in locals {
        let local = Local {
            name: typed.name.text.copy(alloc)?,
            of: PhylumId {
                number: phyla.number(&typed.of.text),
            },
        };
        found.put(alloc, op, local)?;
    }
    Ok(())
}

fn add_locals_of(
    alloc: Global,
    phyla: &Heads,
    callables: &Index<Callable>,
    ops: &[Operator],
    found: &mut Groups<Local>,
    phylum: &Name,
    name: &Name,
    locals: &[Typed],
) -> Result<(), NoMemory>
    requires { (n : List ℕ) → meaning callables.now n ≡ option_map callable.Operator (spec.op_named ops.now n) }
    ensures { OnOk result ((k : ℕ) → row_at found.new k
        ≡ row_at found.old k ++ spec.owned (spec.locals_in phyla.now ops.now phylum.now name.now locals.now) k) }
{
    let op = op_number(phyla, callables, ops, phylum, name)?;
    add_locals(alloc, phyla, found, op, locals)?;
    Ok(())
}

fn add_locals_at(
    alloc: Global,
    phyla: &Heads,
    callables: &Index<Callable>,
    ops: &[Operator],
    found: &mut Groups<Local>,
    decl: &Decl,
) -> Result<(), NoMemory>
    requires { (n : List ℕ) → meaning callables.now n ≡ option_map callable.Operator (spec.op_named ops.now n) }
    ensures { OnOk result ((k : ℕ) → row_at found.new k
        ≡ row_at found.old k ++ spec.owned (spec.locals_at phyla.now ops.now (tree_of decl.now)) k) }
{
    match decl {
        Decl::Equations(phylum, name, locals, _) => {
            let locals = locals.as_slice();
            add_locals_of(alloc, phyla, callables, ops, found, phylum, name, locals)
        }
        _ => Ok(()),
    }
}

/// The locals of the operators.
pub(crate) fn locals(
    alloc: Global,
    phyla: &Heads,
    callables: &Index<Callable>,
    ops: &[Operator],
    decls: &[Decl],
) -> Result<Groups<Local>, NoMemory>
    requires { (n : List ℕ) → meaning callables.now n ≡ option_map callable.Operator (spec.op_named ops.now n) }
    ensures { IfOk result (λ g. (k : ℕ) → row_at g k ≡ spec.locals_of phyla.now ops.now (trees_of decls.now) k) }
{
    let mut found = Groups::new(alloc);
    for decl in decls {
        add_locals_at(alloc, phyla, callables, ops, &mut found, decl)?;
    }
    Ok(found)
}
