//! The direct dependencies: what each equation names, and what it defines.
ghost use Rattle.std.specs.Prelude.{◌≡◌, ℕ, ◌<◌, ◌↔◌, ◌⊎◌, length, map, All, IfOk};
ghost use Rattle.sg_sets.specs.Rows.{Holds};
ghost use Rattle.sg_kinds.specs.Dependencies.{Direct};
ghost use Rattle.sg_dependencies.specs.Frames.{Frame as IsFrame, frames_of};
ghost use Rattle.sg_dependencies.specs.Induced.{relation_at};
ghost use Rattle.sg_dependencies.specs.Rounds.{no_pairs, IsNumberedBelow, IsNamed};
ghost use Rattle.sg_dependencies.specs.Vertices.{AreInRange, AreRowsOf};

use crate::frame::Frame;
use sg_kinds::memory::NoMemory;
use sg_kinds::row::item;
use sg_kinds::spec::{Rule, Rules};
use sg_sets::Relation;
use std::alloc::Global;

/// For each operator the relation of what its equations name to what they define.
pub fn direct(alloc: Global, rules: &Rules, frames: &[Frame]) -> Result<Vec<Relation>, NoMemory>
    requires rules { AreInRange rules.now }
    requires frames { frames.now ≡ frames_of rules.now }
    ensures count { IfOk result (λ v. length v.items ≡ length rules.now.ops) }
    ensures each { IfOk result (λ v. (p : ℕ) → p < length rules.now.ops
        → AreRowsOf rules.now p (Direct rules.now p) (relation_at v.items p)) }
{
    let mut relations = empty(alloc, frames)?;
    for rule in rules.rules.as_slice() {
        let op = operator(rule);
        relate(&mut relations[op], item(frames, op), rule);
    }
    Ok(relations)
}

/// The place of an equation's operator.
pub fn operator(rule: &Rule) -> usize
    ensures { result ≡ rule.now.op }
{
    rule.op.number as usize
}

/// For each operator the relation that relates none of its vertices.
fn empty(alloc: Global, frames: &[Frame]) -> Result<Vec<Relation>, NoMemory>
    ensures { IfOk result (λ v. v.items ≡ map (λ (f : IsFrame). no_pairs f.count) frames.now) }
{
    let mut relations = Vec::new(alloc);
    for frame in frames {
        relations.push(Relation::new(alloc, frame.count)?)?;
    }
    Ok(relations)
}

/// Relates what an equation names to what it defines.
fn relate(relation: &mut Relation, frame: &Frame, rule: &Rule)
    requires target { IsNumberedBelow frame.now (length relation.old) rule.now.target }
    requires args { All (IsNumberedBelow frame.now (length relation.old)) rule.now.args }
    ensures relates { (m n : ℕ) → Holds relation.new m n
        ↔ (Holds relation.old m n ⊎ IsNamed frame.now rule.now (length rule.now.args) m n) }
    ensures size { length relation.new ≡ length relation.old }
{
    let target = frame.number(rule.target);
    for &arg in rule.args.as_slice() {
        relation.add(frame.number(arg), target);
    }
}
