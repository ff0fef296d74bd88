//! The layers of a phylum's attributes.
ghost use Rattle.std.specs.Prelude.{◌≡◌, ℕ, ◌+◌, ◌%◌, ◌<◌, ◌≤◌, ◌^◌, false, nat_eq, length, slice_index, IfOk};
ghost use Rattle.sg_sets.specs.Members.{has, Has};
ghost use Rattle.sg_sets.specs.Rows.{Holds};
ghost use Rattle.sg_kinds.specs.Specification.{is_way_inherited};
ghost use Rattle.sg_orders.specs.LeastLayers.{AreLeastLayers};
ghost use Rattle.sg_orders.specs.StrictOrders.{IsStrictOrder, all_predecessors};

use sg_kinds::marks::Way;
use sg_kinds::memory::NoMemory;
use sg_kinds::spec::Attr;
use sg_sets::{BitSet, Relation};
use std::alloc::Global;

/// Returns the layer of each attribute under a relation that holds what follows from it: synthesized attributes have
/// odd layers and inherited ones even layers, and each is as low as those of the attributes that depend on it allow.
pub fn layers(alloc: Global, attrs: &[Attr], relation: &Relation) -> Result<Vec<usize>, NoMemory>
    requires size { length relation.now ≡ length attrs.now }
    requires few { length attrs.now < 2 ^ 32 }
    requires order { IsStrictOrder relation.now }
    ensures { IfOk result (λ v. AreLeastLayers attrs.now relation.now v.items) }
{
    let before = predecessors(alloc, relation)?;
    let count = attrs.len();
    let mut layers = vec![in alloc; 0usize; count]?;
    for passed in 0..count {
        let rank = count - 1 - passed;
        for a in 0..count {
            if before[a] == rank {
                let low = greatest_after(relation, a, layers.as_slice());
                layers[a] = layer_from(attrs[a].way, low);
            }
        }
    }
    Ok(layers)
}

/// How many vertices are related to each.
pub fn predecessors(alloc: Global, relation: &Relation) -> Result<Vec<usize>, NoMemory>
    ensures { IfOk result (λ v. v.items ≡ all_predecessors relation.now) }
{
    let mut counts = vec![in alloc; 0usize; relation.size()]?;
    for a in 0..relation.size() {
        count_each(relation.successors(a), counts.as_mut_slice());
    }
    Ok(counts)
}

/// Adds one to the count of each number of a set.
fn count_each(set: &BitSet, counts: &mut [usize])
    requires size { length set.now ≡ length counts.old }
    requires room { (b : ℕ) → slice_index counts.old b < usize.MAX }
    ensures members { (b : ℕ) → Has set.now b → slice_index counts.new b ≡ slice_index counts.old b + 1 }
    ensures others { (b : ℕ) → has set.now b ≡ false → slice_index counts.new b ≡ slice_index counts.old b }
    ensures size { length counts.new ≡ length counts.old }
{
    let mut from = 0;
    while let Some(b) = set.next(from) {
        counts[b] += 1;
        from = b + 1;
    }
}

/// The greatest layer of the attributes to which one is related.
fn greatest_after(relation: &Relation, a: usize, layers: &[usize]) -> usize
    requires row { a < length relation.now }
    requires size { length relation.now ≡ length layers.now }
    ensures above { (b : ℕ) → Holds relation.now a b → slice_index layers.now b ≤ result }
    ensures least { (m : ℕ) → ((b : ℕ) → Holds relation.now a b → slice_index layers.now b ≤ m) → result ≤ m }
{
    let mut greatest = 0;
    let mut from = 0;
    while let Some(b) = relation.successors(a).next(from) {
        greatest = greatest.max(layers[b]);
        from = b + 1;
    }
    greatest
}

/// The least layer of an attribute's kind that is not below another one.
fn layer_from(way: Way, low: usize) -> usize
    requires { low < 2 ^ 63 }
    ensures positive { 1 ≤ result }
    ensures kind { is_way_inherited way ≡ nat_eq (result % 2) 0 }
    ensures above { low ≤ result }
    ensures least { (m : ℕ) → 1 ≤ m → is_way_inherited way ≡ nat_eq (m % 2) 0 → low ≤ m → result ≤ m }
    ensures near { result ≤ low + 2 }
{
    match way {
        Way::Synthesized => low + (low + 1) % 2,
        Way::Inherited => {
            let low = low.max(1);
            low + low % 2
        }
    }
}
