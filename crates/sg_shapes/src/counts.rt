//! How many nodes completing terms have, counted to one more than the limit.
ghost use Rattle.std.specs.Prelude.{◌≡◌, ◌+◌, ◌↔◌, IsTrue, IfOk};
ghost use Rattle.sg_kinds.specs.Specification.{args_of};
ghost use Rattle.sg_shapes.specs.Counts.{capped, look, total, over, one_element, completed, placeheld, next_counts, deepened, no_counts, fits, both_fit};

use sg_kinds::ids::{OpId, PhylumId};
use sg_kinds::limits::NODES;
use sg_kinds::marks::Shape;
use sg_kinds::memory::NoMemory;
use sg_kinds::spec::{Operator, Phylum};
use std::alloc::Global;

/// The nodes that a made term may have, and the count that stands for more.
const MAX_NODES: u32 = NODES as u32;

const TOO_MANY: u32 = 65_537;

fn plus(a: u32, b: u32) -> u32
    ensures { result ≡ capped (a + b) }
{
    a.saturating_add(b).min(TOO_MANY)
}

fn look(counts: &[Option<u32>], p: PhylumId) -> Option<u32>
    ensures { result ≡ look counts.now p }
{
    match counts.get(p.number as usize) {
        Some(count) => *count,
        None => None,
    }
}

/// A count and those of some phyla together, where all are there.
fn total(counts: &[Option<u32>], first: u32, phyla: &[PhylumId]) -> Option<u32>
    ensures { result ≡ total (look counts.now) first phyla.now }
{
    let mut total = first;
    for p in phyla {
        total = plus(total, look(counts, *p)?);
    }
    Some(total)
}

/// The arguments of an operator; none out of range.
fn args(ops: &[Operator], op: OpId) -> &[PhylumId]
    ensures { result.now ≡ args_of ops.now op }
{
    match ops.get(op.number as usize) {
        Some(operator) => operator.args.as_slice(),
        None => &[],
    }
}

/// An operator over completing terms.
fn over(ops: &[Operator], counts: &[Option<u32>], op: Option<OpId>) -> Option<u32>
    ensures { result ≡ over ops.now (look counts.now) op }
{
    total(counts, 1, args(ops, op?))
}

/// A list with one element.
fn one_element(ops: &[Operator], counts: &[Option<u32>], of: &[OpId]) -> Option<u32>
    ensures { result ≡ one_element ops.now (look counts.now) of.now }
{
    let [_, pair, ..] = of else {
        return None;
    };
    let element = args(ops, *pair).first()?;
    Some(plus(2, look(counts, *element)?))
}

/// The completing term of a phylum.
fn completed(ops: &[Operator], counts: &[Option<u32>], phylum: &Phylum) -> Option<u32>
    ensures { result ≡ completed ops.now (look counts.now) phylum.now.ops phylum.now.shape }
{
    match phylum.shape {
        Shape::Truths | Shape::Numbers | Shape::Texts | Shape::Lexemes(_) => Some(1),
        Shape::Ordinary | Shape::Optional | Shape::OptionalListed => {
            over(ops, counts, phylum.ops.place(0).copied())
        }
        Shape::Listed => one_element(ops, counts, phylum.ops.as_slice()),
    }
}

/// The placeholder of a phylum.
fn placeheld(ops: &[Operator], counts: &[Option<u32>], phylum: &Phylum) -> Option<u32>
    ensures { result ≡ placeheld ops.now (look counts.now) phylum.now.ops phylum.now.shape }
{
    match phylum.shape {
        Shape::Optional => over(ops, counts, phylum.ops.place(1).copied()),
        Shape::OptionalListed => one_element(ops, counts, phylum.ops.as_slice()),
        _ => completed(ops, counts, phylum),
    }
}

/// Whether a count is there and in the limit.
fn fits(count: Option<u32>) -> bool
    ensures { result ≡ fits count }
{
    match count {
        Some(count) => count <= MAX_NODES,
        None => false,
    }
}

/// Whether completing term and placeholder of a phylum are there and in the limit.
pub(crate) fn both_fit(ops: &[Operator], counts: &[Option<u32>], phylum: &Phylum) -> bool
    ensures { result ≡ both_fit ops.now counts.now phylum.now }
{
    fits(completed(ops, counts, phylum)) && fits(placeheld(ops, counts, phylum))
}

/// The counts of terms without depth: there are none.
fn no_counts(alloc: Global, phyla: &[Phylum]) -> Result<Vec<Option<u32>>, NoMemory>
    ensures { IfOk result (λ v. v.items ≡ no_counts phyla.now) }
{
    Ok(phyla.iter().map(|_| None).collect(alloc)?)
}

/// The counts of all phyla for terms that are deeper by one.
fn next_counts(
    alloc: Global,
    phyla: &[Phylum],
    ops: &[Operator],
    counts: &[Option<u32>],
) -> Result<Vec<Option<u32>>, NoMemory>
    ensures { IfOk result (λ v. v.items ≡ next_counts phyla.now ops.now counts.now) }
{
    let mut next = Vec::with_capacity(alloc, phyla.len())?;
    for phylum in phyla {
        next.push(completed(ops, counts, phylum))?;
    }
    Ok(next)
}

/// Whether both tables are one.
fn are_same(a: &[Option<u32>], b: &[Option<u32>]) -> bool
    ensures { IsTrue result ↔ (a.now ≡ b.now) }
{
    a == b
}

/// The counts of completing terms of at most this depth. The rounds end where one finds nothing new.
pub(crate) fn counts(
    alloc: Global,
    phyla: &[Phylum],
    ops: &[Operator],
    depth: u32,
) -> Result<Vec<Option<u32>>, NoMemory>
    ensures { IfOk result (λ v. v.items ≡ deepened phyla.now ops.now depth (no_counts phyla.now)) }
{
    let mut counts = no_counts(alloc, phyla)?;
    for round in 0..depth {
        let next = next_counts(alloc, phyla, ops, &counts)?;
        if are_same(&next, &counts) {
            return Ok(counts);
        }
        counts = next;
    }
    Ok(counts)
}
