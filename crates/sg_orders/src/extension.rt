//! The dependencies with those of all layers on earlier evaluated ones.
ghost use Rattle.std.specs.Prelude.{◌≡◌, ℕ, ◌↔◌, Bool, List, length, IfOk, OnOk};
ghost use Rattle.sg_sets.specs.Rows.{Holds};
ghost use Rattle.sg_kinds.specs.Dependencies.{InOperator};
ghost use Rattle.sg_dependencies.specs.Faults.{AreAcyclic};
ghost use Rattle.sg_dependencies.specs.Induced.{AreInduced};
ghost use Rattle.sg_dependencies.specs.Rounds.{AreFitting};
ghost use Rattle.sg_dependencies.specs.Vertices.{AreInRange};
ghost use Rattle.sg_orders.specs.Layerings.{AreLayerings, IsLayered, AreLater, AreExtended};

use crate::layers::layers;
use sg_dependencies::{Dependencies, Frame, spread_all};
use sg_kinds::memory::NoMemory;
use sg_kinds::row::Row;
use sg_kinds::spec::Rules;
use sg_sets::Relation;
use std::alloc::Global;

/// The layers of each phylum's attributes.
pub fn all_layers(
    alloc: Global,
    rules: &Rules,
    dependencies: &Dependencies,
) -> Result<Vec<Row<usize>>, NoMemory>
    requires range { AreInRange rules.now }
    requires induced { AreInduced rules.now dependencies.now }
    requires acyclic { AreAcyclic rules.now (InOperator rules.now) }
    ensures { IfOk result (λ v. AreLayerings rules.now v.items) }
{
    let mut all = Vec::new(alloc);
    for (place, phylum) in rules.phyla.as_slice().iter().enumerate() {
        let found = layers(alloc, phylum.attrs.as_slice(), &dependencies.phyla[place])?;
        all.push(Row::new(found))?;
    }
    Ok(all)
}

/// Adds to each operator's relation, at each occurrence, all pairs of attributes from an earlier evaluated layer to a
/// later one.
pub fn extend(
    alloc: Global,
    frames: &[Frame],
    layers: &[Row<usize>],
    operators: &mut [Relation],
) -> Result<(), NoMemory>
    requires { (later : List (List (List Bool))) → AreLater layers.now later
        → AreFitting frames.now operators.old later }
    ensures { OnOk result ((later : List (List (List Bool))) × AreLater layers.now later
        × AreExtended frames.now operators.old operators.new later) }
{
    let later = all_later(alloc, layers)?;
    spread_each(frames, operators, &later);
    Ok(())
}

/// Relates the vertices of each operator as its phyla relate their attributes.
fn spread_each(frames: &[Frame], operators: &mut [Relation], phyla: &[Relation])
    requires { AreFitting frames.now operators.old phyla.now }
    ensures { AreExtended frames.now operators.old operators.new phyla.now }
{
    for (p, frame) in frames.iter().enumerate() {
        spread_all(&mut operators[p], frame.spots.as_slice(), phyla);
    }
}

/// Relates each phylum's attributes to those of later evaluated layers.
fn all_later(alloc: Global, layers: &[Row<usize>]) -> Result<Vec<Relation>, NoMemory>
    ensures { IfOk result (λ v. AreLater layers.now v.items) }
{
    let mut all = Vec::new(alloc);
    for row in layers {
        all.push(later(alloc, row.as_slice())?)?;
    }
    Ok(all)
}

/// Relates attributes to those of later evaluated layers.
fn later(alloc: Global, layers: &[usize]) -> Result<Relation, NoMemory>
    ensures size { IfOk result (λ r. length r ≡ length layers.now) }
    ensures holds { IfOk result (λ r. (a b : ℕ) → Holds r a b ↔ IsLayered layers.now a b) }
{
    let mut relation = Relation::new(alloc, layers.len())?;
    for a in 0..layers.len() {
        for b in 0..layers.len() {
            if layers[b] < layers[a] {
                relation.add(a, b);
            }
        }
    }
    Ok(relation)
}
