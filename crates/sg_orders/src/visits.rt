//! The visits of each phylum's attributes.
ghost use Rattle.std.specs.Prelude.{◌≡◌, ℕ, ◌<◌, ◌≤◌, ◌^◌, List, All, map, IfOk};
ghost use Rattle.sg_kinds.specs.ValidPlans.{pair_of};
ghost use Rattle.sg_orders.specs.VisitRows.{pair_count, visits_by};

use sg_kinds::memory::NoMemory;
use sg_kinds::row::Row;
use std::alloc::Global;

/// The visits of each phylum's attributes by their layers.
pub fn all_visits(alloc: Global, layers: &[Row<usize>]) -> Result<Row<Row<u32>>, NoMemory>
    requires { All (λ (row : List ℕ). All (λ l. l < 2 ^ 32) row) layers.now }
    ensures { IfOk result (λ v. v ≡ map visits_by layers.now) }
{
    let mut all = Vec::new(alloc);
    for row in layers {
        all.push(visits(alloc, row.as_slice())?)?;
    }
    Ok(Row::new(all))
}

/// The visit of each attribute, counted from 1: two layers are one visit, and the last evaluated comes first in the
/// layers.
fn visits(alloc: Global, layers: &[usize]) -> Result<Row<u32>, NoMemory>
    requires { All (λ l. l < 2 ^ 32) layers.now }
    ensures { IfOk result (λ v. v ≡ visits_by layers.now) }
{
    let count = count_pairs(layers);
    let mut visits = Vec::new(alloc);
    for &layer in layers {
        visits.push((count + 1 - pair(layer)) as u32)?;
    }
    Ok(Row::new(visits))
}

/// The place of a layer's visit, from the last visit on.
fn pair(layer: usize) -> usize
    requires { layer < 2 ^ 32 }
    ensures { result ≡ pair_of layer }
{
    (layer + 1) / 2
}

/// How many visits the layers make.
fn count_pairs(layers: &[usize]) -> usize
    requires { All (λ l. l < 2 ^ 32) layers.now }
    ensures exact { result ≡ pair_count layers.now }
    ensures high { All (λ l. pair_of l ≤ result) layers.now }
    ensures low { result ≤ 2 ^ 31 }
{
    let mut count = 1;
    for &layer in layers {
        count = count.max(pair(layer));
    }
    count
}
