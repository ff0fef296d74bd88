//! Parts of a record as they are printed.
#![tactic(auto)]

ghost use Rattle.std.specs.Prelude.{◌≡◌, count_by, nat_eq, slice_get, take, IfOk};
ghost use Rattle.sg_kinds.specs.Specification.{attrs_of as attrs_of_phylum, phylum_name as name_of_phylum};
ghost use Rattle.sg_printed.specs.Printed as meaning;

use sg_kinds::fault::PrintedVertex;
use sg_kinds::ids::PhylumId;
use sg_kinds::memory::NoMemory;
use sg_kinds::spec::{Attr, Local, Occurrence, Operator, Phylum, Production};
use sg_kinds::text::Text;
use std::alloc::Global;

/// The name of a phylum, empty past the last.
pub fn phylum_name(phyla: &[Phylum], p: usize) -> &[u8]
    ensures { result.now ≡ name_of_phylum phyla.now p }
{
    match phyla.get(p) {
        Some(phylum) => phylum.name.as_slice(),
        None => &[],
    }
}

/// The attributes of a phylum, none past the last.
pub fn attrs_of(phyla: &[Phylum], p: usize) -> &[Attr]
    ensures { result.now ≡ attrs_of_phylum phyla.now p }
{
    match phyla.get(p) {
        Some(phylum) => phylum.attrs.as_slice(),
        None => &[],
    }
}

/// The name of a nonterminal, empty where it has no production.
pub fn nonterminal_name(productions: &[Production], n: usize) -> &[u8]
    ensures { result.now ≡ meaning.nonterminal_name productions.now n }
{
    match productions
        .iter()
        .find(|production| production.left as usize == n)
    {
        Some(production) => production.name.as_slice(),
        None => &[],
    }
}

/// The attribute of the left side, or the local behind them, of this slot.
pub fn own_vertex(
    alloc: Global,
    attrs: &[Attr],
    locals: &[Local],
    slot: usize,
) -> Result<PrintedVertex, NoMemory>
    ensures { IfOk result (λ v. v ≡ meaning.own_vertex attrs.now locals.now slot (slice_get attrs.now slot)) }
{
    if let Some(attr) = attrs.get(slot) {
        return Ok(PrintedVertex::Own(attr.name.copy(alloc)?));
    }
    match locals.get(slot.saturating_sub(attrs.len())) {
        Some(local) => Ok(PrintedVertex::Local(local.name.copy(alloc)?)),
        None => Ok(PrintedVertex::Local(Text::new(Vec::new(alloc)))),
    }
}

// How many of the first k arguments are of that phylum.
fn count_before(args: &[PhylumId], k: usize, phylum: PhylumId) -> usize
    ensures { result ≡ count_by (nat_eq phylum) (take k args.now) }
{
    args.iter()
        .take(k)
        .filter(|other| **other == phylum)
        .count()
}

/// The number of an argument among the occurrences of its phylum, of which the left side is the first.
pub fn number(operator: &Operator, k: usize, phylum: PhylumId) -> Result<u32, NoMemory>
    ensures { IfOk result (λ n. n ≡ meaning.number_of operator.now k phylum) }
{
    let count = count_before(operator.args.as_slice(), k, phylum);
    if count >= u32::MAX as usize - 1 {
        return Err(NoMemory);
    }
    if operator.phylum == phylum {
        Ok(count as u32 + 2)
    } else {
        Ok(count as u32 + 1)
    }
}

// The attribute of this slot of an argument of that phylum.
fn argument_vertex(
    alloc: Global,
    phyla: &[Phylum],
    operator: &Operator,
    k: usize,
    slot: usize,
    phylum: PhylumId,
) -> Result<PrintedVertex, NoMemory>
    ensures { IfOk result (λ v. v ≡ meaning.argument_vertex phyla.now operator.now k slot phylum) }
{
    let name = Text::from_slice(alloc, phylum_name(phyla, phylum.number as usize))?;
    let number = number(operator, k, phylum)?;
    match attrs_of(phyla, phylum.number as usize).get(slot) {
        Some(attr) => Ok(PrintedVertex::Argument(name, number, attr.name.copy(alloc)?)),
        None => Ok(PrintedVertex::Argument(name, number, Text::new(Vec::new(alloc)))),
    }
}

/// An occurrence of an operator; one that is not there is a local without a name.
pub fn vertex_at(
    alloc: Global,
    phyla: &[Phylum],
    operator: &Operator,
    o: Occurrence,
) -> Result<PrintedVertex, NoMemory>
    ensures { IfOk result (λ v. v ≡ meaning.vertex_at phyla.now operator.now o.at o.slot) }
{
    let slot = o.slot as usize;
    if o.at == 0 {
        let attrs = attrs_of(phyla, operator.phylum.number as usize);
        return own_vertex(alloc, attrs, operator.locals.as_slice(), slot);
    }
    let k = o.at - 1;
    match operator.args.place(k) {
        Some(phylum) => argument_vertex(alloc, phyla, operator, k as usize, slot, *phylum),
        None => Ok(PrintedVertex::Local(Text::new(Vec::new(alloc)))),
    }
}
