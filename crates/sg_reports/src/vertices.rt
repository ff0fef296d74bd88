//! The vertices of operators as they are printed.
ghost use Rattle.std.specs.Prelude.{◌≡◌, suc, [], ◌∷◌, ◌++◌, map, nat_eq, count_by, IfOk, OnOk};
ghost use Rattle.sg_kinds.specs.Specification.{attrs_of};
ghost use Rattle.sg_kinds.specs.declared.spec.Attr.{Attr as AttrOf};
ghost use Rattle.sg_kinds.specs.declared.spec.Local.{Local as LocalOf};
ghost use Rattle.sg_reports.specs.Vertices.{occurrence_vertices, argument_vertices, vertices_of, printed_vertices, vertex_in, printed_cycle, operator_name};

use crate::symbols::phylum_name;
use sg_kinds::fault::PrintedVertex;
use sg_kinds::ids::{OpId, PhylumId};
use sg_kinds::memory::NoMemory;
use sg_kinds::row::Row;
use sg_kinds::spec::{Attr, Local, Operator, Phylum, Spec};
use sg_kinds::text::Text;
use std::alloc::Global;

/// The attributes of a phylum.
fn attrs_of(phyla: &Row<Phylum>, phylum: PhylumId) -> &[Attr]
    ensures { result.now ≡ attrs_of phyla.now phylum }
{
    match phyla.place(phylum.number) {
        Some(phylum) => phylum.attrs.as_slice(),
        None => &[],
    }
}

/// Puts the attributes of a left side behind the other vertices.
fn push_own(
    alloc: Global,
    vertices: &mut Vec<PrintedVertex>,
    attrs: &[Attr],
) -> Result<(), NoMemory>
    ensures { OnOk result (vertices.new.items ≡ vertices.old.items
        ++ map (λ (a : AttrOf). PrintedVertex.Own a.name) attrs.now) }
{
    for attr in attrs {
        let name = attr.name.copy(alloc)?;
        vertices.push(PrintedVertex::Own(name))?;
    }
    Ok(())
}

/// Puts locals behind the other vertices.
fn push_locals(
    alloc: Global,
    vertices: &mut Vec<PrintedVertex>,
    locals: &[Local],
) -> Result<(), NoMemory>
    ensures { OnOk result (vertices.new.items ≡ vertices.old.items
        ++ map (λ (l : LocalOf). PrintedVertex.Local l.name) locals.now) }
{
    for local in locals {
        let name = local.name.copy(alloc)?;
        vertices.push(PrintedVertex::Local(name))?;
    }
    Ok(())
}

/// Puts the attributes of the k-th occurrence of a phylum behind the other vertices.
fn push_occurrence(
    alloc: Global,
    vertices: &mut Vec<PrintedVertex>,
    phyla: &Row<Phylum>,
    phylum: PhylumId,
    k: u32,
) -> Result<(), NoMemory>
    ensures { OnOk result (vertices.new.items ≡ vertices.old.items ++ occurrence_vertices phyla.now phylum k) }
{
    for attr in attrs_of(phyla, phylum) {
        let name = phylum_name(alloc, phyla, phylum)?;
        let attr = attr.name.copy(alloc)?;
        vertices.push(PrintedVertex::Argument(name, k, attr))?;
    }
    Ok(())
}

/// How many occurrences of a phylum there are, and one more.
fn next_number(before: &[PhylumId], phylum: PhylumId) -> Result<u32, NoMemory>
    ensures { IfOk result (λ k. k ≡ suc (count_by (nat_eq phylum) before.now)) }
{
    let count = before.iter().filter(|q| **q == phylum).count();
    if count < u32::MAX as usize {
        Ok(count as u32 + 1)
    } else {
        Err(NoMemory)
    }
}

/// Puts the attributes of arguments behind the other vertices.
fn push_arguments(
    alloc: Global,
    vertices: &mut Vec<PrintedVertex>,
    phyla: &Row<Phylum>,
    left: PhylumId,
    args: &[PhylumId],
) -> Result<(), NoMemory>
    ensures { OnOk result (vertices.new.items ≡ vertices.old.items
        ++ argument_vertices phyla.now (left ∷ []) args.now) }
{
    let mut before = Vec::new(alloc);
    before.push(left)?;
    for phylum in args {
        let k = next_number(&before, *phylum)?;
        push_occurrence(alloc, vertices, phyla, *phylum, k)?;
        before.push(*phylum)?;
    }
    Ok(())
}

/// The vertices of an operator, in the order of their numbers.
pub fn vertices_of(
    alloc: Global,
    phyla: &Row<Phylum>,
    operator: &Operator,
) -> Result<Vec<PrintedVertex>, NoMemory>
    ensures { IfOk result (λ v. v.items ≡ vertices_of phyla.now operator.now) }
{
    let mut vertices = Vec::new(alloc);
    push_own(alloc, &mut vertices, attrs_of(phyla, operator.phylum))?;
    push_arguments(
        alloc,
        &mut vertices,
        phyla,
        operator.phylum,
        operator.args.as_slice(),
    )?;
    push_locals(alloc, &mut vertices, operator.locals.as_slice())?;
    Ok(vertices)
}

/// The same by the operator's number.
fn printed_vertices(alloc: Global, spec: &Spec, op: OpId) -> Result<Vec<PrintedVertex>, NoMemory>
    ensures { IfOk result (λ v. v.items ≡ printed_vertices spec.now op) }
{
    match spec.ops.place(op.number) {
        Some(operator) => Ok(vertices_of(alloc, &spec.phyla, operator)?),
        None => Ok(Vec::new(alloc)),
    }
}

/// An equal vertex.
fn copy(alloc: Global, vertex: &PrintedVertex) -> Result<PrintedVertex, NoMemory>
    ensures { IfOk result (λ v. v ≡ vertex.now) }
{
    match vertex {
        PrintedVertex::Own(attr) => Ok(PrintedVertex::Own(attr.copy(alloc)?)),
        PrintedVertex::Argument(phylum, k, attr) => Ok(PrintedVertex::Argument(
            phylum.copy(alloc)?,
            *k,
            attr.copy(alloc)?,
        )),
        PrintedVertex::Local(name) => Ok(PrintedVertex::Local(name.copy(alloc)?)),
    }
}

/// The vertex with a number.
fn vertex_in(alloc: Global, vertices: &[PrintedVertex], m: usize) -> Result<PrintedVertex, NoMemory>
    ensures { IfOk result (λ v. v ≡ vertex_in vertices.now m) }
{
    match vertices.get(m) {
        Some(vertex) => Ok(copy(alloc, vertex)?),
        None => Ok(PrintedVertex::Local(Text::new(Vec::new(alloc)))),
    }
}

/// A cycle of an operator, by the numbers of its vertices, as it is printed.
pub fn printed_cycle(
    alloc: Global,
    spec: &Spec,
    op: OpId,
    cycle: &[usize],
) -> Result<Row<PrintedVertex>, NoMemory>
    ensures { IfOk result (λ r. r ≡ printed_cycle spec.now op cycle.now) }
{
    let vertices = printed_vertices(alloc, spec, op)?;
    let mut printed = Vec::new(alloc);
    for m in cycle {
        printed.push(vertex_in(alloc, &vertices, *m)?)?;
    }
    Ok(Row::new(printed))
}

/// The name of an operator, empty past the last.
pub fn operator_name(alloc: Global, spec: &Spec, op: OpId) -> Result<Text, NoMemory>
    ensures { IfOk result (λ t. t ≡ operator_name spec.now op) }
{
    match spec.ops.place(op.number) {
        Some(operator) => Ok(operator.name.copy(alloc)?),
        None => Ok(Text::new(Vec::new(alloc))),
    }
}
