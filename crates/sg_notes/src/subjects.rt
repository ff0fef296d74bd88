// What a note speaks of, in words that tell one part of a record from another.
ghost use Rattle.std.specs.Prelude.{◌≡◌, IfOk};
ghost use Rattle.sg_notes.specs.Subjects as meaning;

use crate::words::{named, owned, quoted};
use sg_kinds::memory::NoMemory;
use sg_kinds::spec::Spec;
use sg_printed::{nonterminal_name, phylum_name};
use sg_useless::Part;
use std::alloc::Global;

fn function_name(spec: &Spec, f: usize) -> &[u8]
    ensures { result.now ≡ meaning.function_name spec.now f }
{
    match spec.functions.as_slice().get(f) {
        Some(function) => function.name.as_slice(),
        None => &[],
    }
}

fn attribute_name(spec: &Spec, p: usize, slot: usize) -> &[u8]
    ensures { result.now ≡ meaning.attribute_name spec.now p slot }
{
    let Some(phylum) = spec.phyla.as_slice().get(p) else {
        return &[];
    };
    match phylum.attrs.as_slice().get(slot) {
        Some(attr) => attr.name.as_slice(),
        None => &[],
    }
}

fn operator_name(spec: &Spec, op: usize) -> &[u8]
    ensures { result.now ≡ meaning.operator_name spec.now op }
{
    match spec.ops.as_slice().get(op) {
        Some(operator) => operator.name.as_slice(),
        None => &[],
    }
}

fn local_name(spec: &Spec, op: usize, k: usize) -> &[u8]
    ensures { result.now ≡ meaning.local_name spec.now op k }
{
    let Some(operator) = spec.ops.as_slice().get(op) else {
        return &[];
    };
    match operator.locals.as_slice().get(k) {
        Some(local) => local.name.as_slice(),
        None => &[],
    }
}

fn literal_text(spec: &Spec, line: usize, k: usize) -> &[u8]
    ensures { result.now ≡ meaning.literal_text spec.now line k }
{
    let Some(level) = spec.levels.as_slice().get(line) else {
        return &[];
    };
    match level.literals.as_slice().get(k) {
        Some(text) => text.as_slice(),
        None => &[],
    }
}

/// The words of a part.
pub fn subject(alloc: Global, spec: &Spec, part: Part) -> Result<Vec<u8>, NoMemory>
    ensures { IfOk result (λ v. v.items ≡ meaning.subject spec.now part) }
{
    match part {
        Part::Function(f) => named(alloc, "function ", function_name(spec, f)),
        Part::Attribute(p, slot) => {
            let name = attribute_name(spec, p, slot);
            owned(
                alloc,
                "attribute ",
                phylum_name(spec.phyla.as_slice(), p),
                name,
            )
        }
        Part::Local(op, k) => {
            let name = local_name(spec, op, k);
            owned(alloc, "local ", operator_name(spec, op), name)
        }
        Part::Phylum(p) | Part::Entry(p) => {
            named(alloc, "phylum ", phylum_name(spec.phyla.as_slice(), p))
        }
        Part::Nonterminal(n) => {
            let name = nonterminal_name(spec.productions.as_slice(), n);
            named(alloc, "nonterminal ", name)
        }
        Part::Schemes(op) => named(alloc, "schemes of ", operator_name(spec, op)),
        Part::Literal(line, k) => quoted(alloc, "literal ", literal_text(spec, line, k)),
    }
}
