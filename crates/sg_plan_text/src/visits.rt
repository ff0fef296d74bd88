// The visits of phyla.
ghost use Rattle.std.specs.Prelude.{◌≡◌, ◌++◌, flat_map, max, nat_eq, slice_index_or, OnOk};
ghost use Rattle.sg_kinds.specs.Instances.{below};
ghost use Rattle.sg_kinds.specs.Specification.{is_leaf_shape};
ghost use Rattle.sg_kinds.specs.Visits.{greatest as greatest_of, row_at};
ghost use Rattle.sg_useless.specs.Uses.{numbered};
ghost use Rattle.sg_plan_text.specs.Plan as meaning;

use sg_kinds::decimal::write_number;
use sg_kinds::marks::{Shape, Way};
use sg_kinds::memory::NoMemory;
use sg_kinds::plans::Plans;
use sg_kinds::spec::{Attr, Phylum};
use std::alloc::Global;

fn is_side(taken: bool, way: Way) -> bool
    ensures { result ≡ meaning.is_side taken way }
{
    match way {
        Way::Inherited => taken,
        Way::Synthesized => !taken,
    }
}

// Whether the attribute of this slot has this visit.
fn is_in(visits: &[u32], slot: usize, j: u32) -> bool
    ensures { result ≡ nat_eq (slice_index_or visits.now slot 0) j }
{
    match visits.get(slot) {
        Some(visit) => *visit == j,
        None => 0 == j,
    }
}

// Writes an attribute that stands on a side of a visit.
fn write_attr(
    out: &mut Vec<u8>,
    visits: &[u32],
    taken: bool,
    j: u32,
    slot: usize,
    attr: &Attr,
) -> Result<(), NoMemory>
    ensures { OnOk result (out.new.items ≡ out.old.items ++ meaning.attr_text visits.now taken j slot attr.now) }
{
    if is_in(visits, slot, j) && is_side(taken, attr.way) {
        out.push(b' ')?;
        out.extend_from_slice(attr.name.as_slice())?;
    }
    Ok(())
}

// Writes those that stand there.
fn write_attrs(
    out: &mut Vec<u8>,
    visits: &[u32],
    taken: bool,
    j: u32,
    attrs: &[Attr],
) -> Result<(), NoMemory>
    ensures { OnOk result (out.new.items ≡ out.old.items ++ meaning.attrs_text visits.now taken j attrs.now) }
{
    for (slot, attr) in attrs.iter().enumerate() {
        write_attr(out, visits, taken, j, slot, attr)?;
    }
    Ok(())
}

// Writes what a visit takes and gives.
fn write_sides(out: &mut Vec<u8>, visits: &[u32], j: u32, attrs: &[Attr]) -> Result<(), NoMemory>
    ensures { OnOk result (out.new.items ≡ out.old.items ++ meaning.sides_text visits.now j attrs.now) }
{
    write_attrs(out, visits, true, j, attrs)?;
    out.extend_from_slice(b" ->")?;
    write_attrs(out, visits, false, j, attrs)?;
    out.push(b'\n')?;
    Ok(())
}

// Writes a phylum of that name and the number of a visit.
fn write_name(alloc: Global, out: &mut Vec<u8>, name: &[u8], j: u32) -> Result<(), NoMemory>
    ensures { OnOk result (out.new.items ≡ out.old.items ++ meaning.visit_name name.now j) }
{
    out.extend_from_slice(b"phylum ")?;
    out.extend_from_slice(name)?;
    out.extend_from_slice(b", visit ")?;
    write_number(alloc, out, j as u64)?;
    out.push(b':')?;
    Ok(())
}

// Writes a visit of a phylum.
fn write_visit(
    alloc: Global,
    out: &mut Vec<u8>,
    phylum: &Phylum,
    visits: &[u32],
    j: u32,
) -> Result<(), NoMemory>
    ensures { OnOk result (out.new.items ≡ out.old.items ++ meaning.visit_text phylum.now visits.now j) }
{
    write_name(alloc, out, phylum.name.as_slice(), j)?;
    write_sides(out, visits, j, phylum.attrs.as_slice())
}

fn greatest(visits: &[u32]) -> u32
    ensures { result ≡ greatest_of visits.now }
{
    let mut most = 0;
    for visit in visits {
        most = most.max(*visit);
    }
    most
}

// The visits of the attributes of a phylum.
fn visits_of(plans: &Plans, p: usize) -> &[u32]
    ensures { result.now ≡ row_at plans.now.visits p }
{
    match plans.visits.as_slice().get(p) {
        Some(visits) => visits.as_slice(),
        None => &[],
    }
}

// How many visits a phylum has whose attributes have these.
fn visit_count(visits: &[u32]) -> u32
    ensures { result ≡ max 1 (greatest_of visits.now) }
{
    1u32.max(greatest(visits))
}

fn is_leaf(shape: Shape) -> bool
    ensures { result ≡ is_leaf_shape shape }
{
    matches!(
        shape,
        Shape::Truths | Shape::Numbers | Shape::Texts | Shape::Lexemes(_)
    )
}

// Writes so many visits of a phylum whose attributes have these.
fn write_visits(
    alloc: Global,
    out: &mut Vec<u8>,
    phylum: &Phylum,
    visits: &[u32],
    count: u32,
) -> Result<(), NoMemory>
    ensures { OnOk result (out.new.items ≡ out.old.items
        ++ flat_map (meaning.next_visit phylum.now visits.now) (below count)) }
{
    for k in 0..count {
        write_visit(alloc, out, phylum, visits, k + 1)?;
    }
    Ok(())
}

fn write_phylum(
    alloc: Global,
    out: &mut Vec<u8>,
    plans: &Plans,
    p: usize,
    phylum: &Phylum,
) -> Result<(), NoMemory>
    ensures { OnOk result (out.new.items ≡ out.old.items ++ meaning.phylum_text plans.now p phylum.now) }
{
    if is_leaf(phylum.shape) {
        return Ok(());
    }
    let visits = visits_of(plans, p);
    write_visits(alloc, out, phylum, visits, visit_count(visits))
}

/// Writes the visits of phyla with operators.
pub fn write_phyla(
    alloc: Global,
    out: &mut Vec<u8>,
    plans: &Plans,
    phyla: &[Phylum],
) -> Result<(), NoMemory>
    ensures { OnOk result (out.new.items ≡ out.old.items ++ numbered (meaning.phylum_text plans.now) 0 phyla.now) }
{
    for (p, phylum) in phyla.iter().enumerate() {
        write_phylum(alloc, out, plans, p, phylum)?;
    }
    Ok(())
}
