//! The parts of a record that others may use.
ghost use Rattle.std.specs.Prelude.{◌≡◌, ◌++◌, map, IfOk, OnOk};
ghost use Rattle.sg_kinds.specs.Instances.{below};
ghost use Rattle.sg_kinds.specs.Specification.{is_leaf_shape};
ghost use Rattle.sg_useless.specs.Uses.{numbered};
ghost use Rattle.sg_useless.specs.Useless as meaning;

use crate::part::Part;
use sg_kinds::marks::Shape;
use sg_kinds::memory::NoMemory;
use sg_kinds::spec::{Attr, Operator, Phylum, Spec};
use std::alloc::Global;

// How many phyla each spec has: BOOL, INT and STR.
const BASE: usize = 3;

#[tactic(auto, using(crate::proofs::Numbers::map_more))]
fn add_functions(count: usize, parts: &mut Vec<Part>) -> Result<(), NoMemory>
    ensures { OnOk result (parts.new.items ≡ parts.old.items ++ map Part.Function (below count)) }
{
    for function in 0..count {
        parts.push(Part::Function(function))?;
    }
    Ok(())
}

fn add_attrs(p: usize, attrs: &[Attr], parts: &mut Vec<Part>) -> Result<(), NoMemory>
    ensures { OnOk result (parts.new.items ≡ parts.old.items ++ numbered (meaning.attr_parts p) 0 attrs.now) }
{
    for (slot, attr) in attrs.iter().enumerate() {
        if attr.far.len() == 0 {
            parts.push(Part::Attribute(p, slot))?;
        }
    }
    Ok(())
}

/// Whether the terms of a phylum of this shape are leaves.
pub fn is_leaf(shape: Shape) -> bool
    ensures { result ≡ is_leaf_shape shape }
{
    matches!(
        shape,
        Shape::Truths | Shape::Numbers | Shape::Texts | Shape::Lexemes(_)
    )
}

fn add_attrs_of(p: usize, phylum: &Phylum, parts: &mut Vec<Part>) -> Result<(), NoMemory>
    ensures { OnOk result (parts.new.items ≡ parts.old.items ++ meaning.attrs_in p phylum.now) }
{
    if is_leaf(phylum.shape) {
        return Ok(());
    }
    add_attrs(p, phylum.attrs.as_slice(), parts)
}

fn add_all_attrs(phyla: &[Phylum], parts: &mut Vec<Part>) -> Result<(), NoMemory>
    ensures { OnOk result (parts.new.items ≡ parts.old.items ++ numbered meaning.attrs_in 0 phyla.now) }
{
    for (p, phylum) in phyla.iter().enumerate() {
        add_attrs_of(p, phylum, parts)?;
    }
    Ok(())
}

#[tactic(auto, using(crate::proofs::Numbers::map_more))]
fn add_locals(op: usize, operator: &Operator, parts: &mut Vec<Part>) -> Result<(), NoMemory>
    ensures { OnOk result (parts.new.items ≡ parts.old.items ++ meaning.locals_in op operator.now) }
{
    for local in 0..operator.locals.len() {
        parts.push(Part::Local(op, local))?;
    }
    Ok(())
}

fn add_all_locals(ops: &[Operator], parts: &mut Vec<Part>) -> Result<(), NoMemory>
    ensures { OnOk result (parts.new.items ≡ parts.old.items ++ numbered meaning.locals_in 0 ops.now) }
{
    for (op, operator) in ops.iter().enumerate() {
        add_locals(op, operator, parts)?;
    }
    Ok(())
}

fn add_phyla(phyla: &[Phylum], parts: &mut Vec<Part>) -> Result<(), NoMemory>
    ensures { OnOk result (parts.new.items ≡ parts.old.items ++ numbered meaning.phylum_parts 0 phyla.now) }
{
    for (p, _) in phyla.iter().enumerate() {
        if p >= BASE {
            parts.push(Part::Phylum(p))?;
        }
    }
    Ok(())
}

/// The functions, the written attributes of phyla with operators, the locals, and the phyla of a record.
pub fn parts(alloc: Global, spec: &Spec) -> Result<Vec<Part>, NoMemory>
    ensures { IfOk result (λ v. v.items ≡ meaning.parts_of spec.now) }
{
    let mut parts = Vec::new(alloc);
    add_functions(spec.functions.len(), &mut parts)?;
    add_all_attrs(spec.phyla.as_slice(), &mut parts)?;
    add_all_locals(spec.ops.as_slice(), &mut parts)?;
    add_phyla(spec.phyla.as_slice(), &mut parts)?;
    Ok(parts)
}
