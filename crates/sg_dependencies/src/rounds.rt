//! Rounds over all operators, until the dependencies of no phylum grow.
ghost use Rattle.std.specs.Prelude.{◌≡◌, ℕ, ◌+◌, ◌<◌, ◌≤◌, ◌^◌, ◌↔◌, ◌⊎◌, if◌then◌else◌, length, sum_by, All, IfOk, OnOk};
ghost use Rattle.std.specs.Bool.{OnFalse};
ghost use Rattle.sg_sets.specs.Paths.{Path};
ghost use Rattle.sg_sets.specs.Rows.{Holds, all_missing};
ghost use Rattle.sg_dependencies.specs.Induced.{relation_at};
ghost use Rattle.sg_dependencies.specs.Waiting.{AreSettledElse};
ghost use Rattle.sg_dependencies.specs.Rounds.{Fits, IsPlaced, IsMet, IsSpread, IsJoined, AreAlike, AreFitting, AreSettled, StaySound};

use crate::frame::{Frame, Spot};
use crate::waiting::call;
use sg_kinds::memory::NoMemory;
use sg_sets::Relation;
use std::alloc::Global;

/// Adds to the operators' relations and to the phyla's what follows from one another, until nothing is to be added.
pub fn saturate(
    alloc: Global,
    frames: &[Frame],
    operators: &mut [Relation],
    phyla: &mut [Relation],
) -> Result<(), NoMemory>
    requires { AreFitting frames.now operators.old phyla.old }
    ensures operators { OnOk result (AreAlike operators.old operators.new) }
    ensures phyla { OnOk result (AreAlike phyla.old phyla.new) }
    ensures sound { OnOk result (StaySound frames.now operators.old phyla.old operators.new phyla.new) }
    ensures keeps { OnOk result ((p m n : ℕ) → Holds (relation_at operators.old p) m n
        → Holds (relation_at operators.new p) m n) }
    ensures settled { OnOk result (AreSettled frames.now operators.new phyla.new) }
{
    let mut waiting = vec![in alloc; true; frames.len()]?;
    exhaust(alloc, frames, operators, phyla, waiting.as_mut_slice())
}

/// Settles the operators that wait, and those that wait then, until none does.
fn exhaust(
    alloc: Global,
    frames: &[Frame],
    operators: &mut [Relation],
    phyla: &mut [Relation],
    waiting: &mut [bool],
) -> Result<(), NoMemory>
    requires fit { AreFitting frames.now operators.old phyla.old }
    requires flags { length waiting.old ≡ length frames.now }
    requires others { AreSettledElse frames.now waiting.old operators.old phyla.old }
    ensures operators { OnOk result (AreAlike operators.old operators.new) }
    ensures phyla { OnOk result (AreAlike phyla.old phyla.new) }
    ensures sound { OnOk result (StaySound frames.now operators.old phyla.old operators.new phyla.new) }
    ensures keeps { OnOk result ((p m n : ℕ) → Holds (relation_at operators.old p) m n
        → Holds (relation_at operators.new p) m n) }
    ensures settled { OnOk result (AreSettled frames.now operators.new phyla.new) }
{
    while round(alloc, frames, operators, phyla, waiting)? {}
    Ok(())
}

/// Settles each operator that waits, and returns whether a phylum gained a pair. Then those that have the phylum wait.
fn round(
    alloc: Global,
    frames: &[Frame],
    operators: &mut [Relation],
    phyla: &mut [Relation],
    waiting: &mut [bool],
) -> Result<bool, NoMemory>
    requires fit { AreFitting frames.now operators.old phyla.old }
    requires flags { length waiting.old ≡ length frames.now }
    requires others { AreSettledElse frames.now waiting.old operators.old phyla.old }
    ensures operators { OnOk result (AreAlike operators.old operators.new) }
    ensures phyla { OnOk result (AreAlike phyla.old phyla.new) }
    ensures sound { OnOk result (StaySound frames.now operators.old phyla.old operators.new phyla.new) }
    ensures keeps { OnOk result ((p m n : ℕ) → Holds (relation_at operators.old p) m n
        → Holds (relation_at operators.new p) m n) }
    ensures fewer { IfOk result (λ gained. sum_by all_missing phyla.new +
        (if gained then 1 else 0) ≤ sum_by all_missing phyla.old) }
    ensures flags { OnOk result (length waiting.new ≡ length frames.now) }
    ensures others { OnOk result (AreSettledElse frames.now waiting.new operators.new phyla.new) }
    ensures settled { IfOk result (λ gained. OnFalse gained (AreSettled frames.now operators.new phyla.new)) }
{
    let mut gained = false;
    for (p, frame) in frames.iter().enumerate() {
        if waiting[p] {
            if settle(alloc, frame.spots.as_slice(), &mut operators[p], phyla)? {
                gained = true;
                call(frames, frame.spots.as_slice(), waiting);
            } else {
                waiting[p] = false;
            }
        }
    }
    Ok(gained)
}

/// Relates the vertices of an occurrence as its phylum relates their attributes.
fn spread(relation: &mut Relation, spot: Spot, phylum: &Relation)
    requires room { spot.first + spot.attrs ≤ length relation.old }
    requires small { spot.first + spot.attrs < 2 ^ 32 }
    requires attrs { length phylum.now ≡ spot.attrs }
    ensures spreads { (m n : ℕ) → Holds relation.new m n ↔ (Holds relation.old m n ⊎ IsPlaced spot phylum.now m n) }
    ensures size { length relation.new ≡ length relation.old }
{
    for a in 0..spot.attrs {
        relation.add_part(
            spot.first + a,
            spot.first,
            phylum.successors(a),
            0,
            spot.attrs,
        );
    }
}

/// Relates the attributes of an occurrence's phylum as their vertices are related, and returns whether some were not.
fn gather(phylum: &mut Relation, spot: Spot, closed: &Relation) -> bool
    requires attrs { length phylum.old ≡ spot.attrs }
    requires small { spot.first + spot.attrs < 2 ^ 32 }
    requires room { spot.first + spot.attrs ≤ length closed.now }
    ensures gathers { (a b : ℕ) → Holds phylum.new a b ↔ (Holds phylum.old a b ⊎ IsMet spot (Holds closed.now) a b) }
    ensures size { length phylum.new ≡ length phylum.old }
    ensures fewer { all_missing phylum.new + (if result then 1 else 0) ≤ all_missing phylum.old }
    ensures stays { OnFalse result (phylum.new ≡ phylum.old) }
{
    let mut gained = false;
    for a in 0..spot.attrs {
        let row = closed.successors(spot.first + a);
        if phylum.add_part(a, 0, row, spot.first, spot.attrs) {
            gained = true;
        }
    }
    gained
}

/// Relates the vertices of an operator as its phyla relate their attributes.
pub fn spread_all(relation: &mut Relation, spots: &[Spot], phyla: &[Relation])
    requires { All (Fits (length relation.old) phyla.now) spots.now }
    ensures spreads { (m n : ℕ) → Holds relation.new m n ↔ (Holds relation.old m n ⊎ IsSpread spots.now phyla.now m n) }
    ensures size { length relation.new ≡ length relation.old }
{
    for &spot in spots {
        spread(relation, spot, &phyla[spot.phylum]);
    }
}

/// Relates the attributes of an operator's phyla as its vertices are related, and returns whether some were not.
fn gather_all(phyla: &mut [Relation], spots: &[Spot], closed: &Relation) -> bool
    requires { All (Fits (length closed.now) phyla.old) spots.now }
    ensures gathers { (X a b : ℕ) → Holds (relation_at phyla.new X) a b
        ↔ (Holds (relation_at phyla.old X) a b ⊎ IsJoined spots.now (Holds closed.now) X a b) }
    ensures alike { AreAlike phyla.old phyla.new }
    ensures fewer { sum_by all_missing phyla.new + (if result then 1 else 0) ≤ sum_by all_missing phyla.old }
    ensures stays { OnFalse result (phyla.new ≡ phyla.old) }
{
    let mut gained = false;
    for &spot in spots {
        if gather(&mut phyla[spot.phylum], spot, closed) {
            gained = true;
        }
    }
    gained
}

/// Adds to an operator's relation what its phyla relate, and to its phyla what it joins then, and returns whether a
/// phylum gained a pair.
fn settle(
    alloc: Global,
    spots: &[Spot],
    relation: &mut Relation,
    phyla: &mut [Relation],
) -> Result<bool, NoMemory>
    requires { All (Fits (length relation.old) phyla.old) spots.now }
    ensures spreads { OnOk result ((m n : ℕ) → Holds relation.new m n
        ↔ (Holds relation.old m n ⊎ IsSpread spots.now phyla.old m n)) }
    ensures joins { OnOk result ((X a b : ℕ) → Holds (relation_at phyla.new X) a b
        ↔ (Holds (relation_at phyla.old X) a b ⊎ IsJoined spots.now (Path (Holds relation.new)) X a b)) }
    ensures size { OnOk result (length relation.new ≡ length relation.old) }
    ensures alike { OnOk result (AreAlike phyla.old phyla.new) }
    ensures fewer { IfOk result (λ gained. sum_by all_missing phyla.new +
        (if gained then 1 else 0) ≤ sum_by all_missing phyla.old) }
    ensures stays { IfOk result (λ gained. OnFalse gained (phyla.new ≡ phyla.old)) }
{
    spread_all(relation, spots, phyla);
    let mut closed = relation.copy(alloc)?;
    closed.close();
    Ok(gather_all(phyla, spots, &closed))
}
