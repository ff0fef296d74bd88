//! Which phyla bear a far attribute, and which may stand below no listed phylum.
ghost use Rattle.std.specs.Prelude.{◌≡◌, ◌++◌, ℕ, List, Some, true, map, slice_get, OnOk, IfOk};
ghost use Rattle.sg_kinds.specs.declared.spec.Far.{Far};
ghost use Rattle.sg_names.specs.Rows.{row_at};
ghost use Rattle.sg_remote.specs.Bearing as spec;
ghost use Rattle.sg_remote.specs.Keys.{AreDistinct, list_of};
ghost use Rattle.sg_remote.specs.Lists.{lists_of};
ghost use Rattle.sg_remote.specs.Reach.{reached};

use crate::atoms::Atom;
use crate::lists::{listed_slot, place_of};
use crate::reach::{Edge, reached};
use indexmap::IndexSet;
use sg_kinds::ids::PhylumId;
use sg_kinds::memory::NoMemory;
use sg_kinds::spec::{Far, Operator};
use sg_names::callables::number;
use sg_names::groups::Groups;
use sg_names::names::Names;
use std::alloc::Global;

/// The edge between the left side of an operator and an argument: upward from the argument, else downward to it.
fn edge(up: bool, left: PhylumId, argument: PhylumId) -> Edge
    ensures { result ≡ spec.edge up left argument }
{
    if up {
        Edge {
            from: argument.number,
            to: left.number,
        }
    } else {
        Edge {
            from: left.number,
            to: argument.number,
        }
    }
}

fn add_arguments(
    up: bool,
    left: PhylumId,
    args: &[PhylumId],
    edges: &mut Vec<Edge>,
) -> Result<(), NoMemory>
    ensures { OnOk result (edges.new.items ≡ edges.old.items ++ spec.argument_edges up left args.now) }
{
    for argument in args {
        edges.push(edge(up, left, *argument))?;
    }
    Ok(())
}

/// Puts the edges of an operator last, if its left side is not listed.
fn add_edges(
    up: bool,
    list: &[Far],
    operator: &Operator,
    edges: &mut Vec<Edge>,
) -> Result<(), NoMemory>
    ensures { OnOk result (edges.new.items ≡ edges.old.items ++ spec.edges_of up list.now operator.now) }
{
    if listed_slot(list, operator.phylum).is_none() {
        add_arguments(up, operator.phylum, operator.args.as_slice(), edges)?;
    }
    Ok(())
}

/// The edges of all operators whose left side is not listed.
fn edges(alloc: Global, up: bool, list: &[Far], ops: &[Operator]) -> Result<Vec<Edge>, NoMemory>
    ensures { IfOk result (λ v. v.items ≡ spec.edges up list.now ops.now) }
{
    let mut edges = Vec::new(alloc);
    for operator in ops {
        add_edges(up, list, operator, &mut edges)?;
    }
    Ok(edges)
}

/// Puts the phylum of a reference's operator behind the users of its list.
fn add_user(
    alloc: Global,
    names: &Names,
    atom: &Atom,
    lists: &IndexSet<Vec<(u32, u32)>>,
    users: &mut Groups<u32>,
) -> Result<(), NoMemory>
    requires { AreDistinct (map (λ k. list_of k.items) lists.now.keys) }
    ensures { OnOk result ((k : ℕ) (fs : List Far) → slice_get (map (λ k. list_of k.items) lists.now.keys) k ≡ Some fs
        → row_at users.new k ≡ row_at users.old k ++ spec.user names.now fs atom.now) }
{
    let Some(place) = place_of(alloc, lists, atom.list.as_slice())? else {
        return Ok(());
    };
    let Some(operator) = names.table().ops.place(atom.op.number) else {
        return Ok(());
    };
    users.put(alloc, number(place)?, operator.phylum.number)?;
    Ok(())
}

/// The phyla whose operators use each of these lists, a row for each list.
pub fn users(
    alloc: Global,
    names: &Names,
    atoms: &[Atom],
    lists: &IndexSet<Vec<(u32, u32)>>,
) -> Result<Groups<u32>, NoMemory>
    requires { map (λ k. list_of k.items) lists.now.keys ≡ lists_of atoms.now }
    ensures { IfOk result (λ g. (k : ℕ) (fs : List Far) → slice_get (lists_of atoms.now) k ≡ Some fs
        → row_at g k ≡ spec.users names.now fs atoms.now) }
{
    let mut users = Groups::new(alloc);
    for atom in atoms {
        add_user(alloc, names, atom, lists, &mut users)?;
    }
    Ok(users)
}

/// The users of a list.
pub fn users_at(users: &Groups<u32>, place: usize) -> &[u32]
    ensures { result.now ≡ row_at users.now place }
{
    match users.rows.get(place) {
        Some(row) => row.as_slice(),
        None => &[],
    }
}

/// The flags of the phyla that bear the far attribute of a list, from the phyla whose operators use it.
pub fn borne(
    alloc: Global,
    names: &Names,
    users: &[u32],
    list: &[Far],
) -> Result<Vec<bool>, NoMemory>
    ensures { IfOk result (λ v. v.items ≡ reached users.now (spec.edges true list.now names.now.ops)) }
{
    let edges = edges(alloc, true, list, names.table().ops.as_slice())?;
    reached(alloc, users, &edges)
}

/// The flags of the phyla of which some node of a term of the root phylum has no enclosing node of a listed phylum.
pub fn opened(alloc: Global, names: &Names, list: &[Far]) -> Result<Vec<bool>, NoMemory>
    ensures { IfOk result (λ v. v.items ≡ spec.opened names.now list.now) }
{
    let table = names.table();
    let edges = edges(alloc, false, list, table.ops.as_slice())?;
    reached(alloc, &[table.root.number], &edges)
}
