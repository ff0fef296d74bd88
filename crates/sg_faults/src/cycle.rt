// Cycles of attribute dependencies.
ghost use Rattle.std.specs.Prelude.{◌≡◌, ◌++◌, OnOk};
ghost use Rattle.sg_faults.specs.FaultLine.{cycle_text, vertex_word};

use crate::words::write_named;
use sg_kinds::decimal::write_number;
use sg_kinds::fault::{Position, PrintedVertex};
use sg_kinds::memory::NoMemory;
use sg_kinds::row::Row;
use sg_kinds::text::Text;
use std::alloc::Global;

/// Writes a vertex: `$$.a` for an attribute of the left side, `P$k.a` for one of the k-th P of the operator, the name
/// of a local.
pub fn write_vertex(
    alloc: Global,
    out: &mut Vec<u8>,
    vertex: &PrintedVertex,
) -> Result<(), NoMemory>
    ensures { OnOk result (out.new.items ≡ out.old.items ++ vertex_word vertex.now) }
{
    match vertex {
        PrintedVertex::Own(attr) => {
            out.extend_from_slice(b"$$.")?;
            out.extend_from_slice(attr.as_slice())?;
        }
        PrintedVertex::Argument(phylum, k, attr) => {
            out.extend_from_slice(phylum.as_slice())?;
            out.push(b'$')?;
            write_number(alloc, out, *k as u64)?;
            out.push(b'.')?;
            out.extend_from_slice(attr.as_slice())?;
        }
        PrintedVertex::Local(name) => out.extend_from_slice(name.as_slice())?,
    }
    Ok(())
}

/// Writes the line of a place, an operator's name and the vertices of a cycle.
pub fn write_cycle(
    alloc: Global,
    out: &mut Vec<u8>,
    place: Position,
    op: &Text,
    cycle: &Row<PrintedVertex>,
) -> Result<(), NoMemory>
    ensures { OnOk result (out.new.items ≡ out.old.items ++ cycle_text place op.now cycle.now) }
{
    write_named(alloc, out, place, op)?;
    out.push(b':')?;
    for vertex in cycle.as_slice() {
        out.push(b' ')?;
        write_vertex(alloc, out, vertex)?;
    }
    Ok(())
}
