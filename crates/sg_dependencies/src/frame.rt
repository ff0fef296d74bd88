//! The numbers of an operator's vertices.
ghost use Rattle.std.specs.Prelude.{◌≡◌, ℕ, ◌<◌, ◌^◌, Some, length, IfOk};
ghost use Rattle.sg_kinds.specs.Instances.{attr_count};
ghost use Rattle.sg_kinds.specs.ValidPlans.{vertices};
ghost use Rattle.sg_dependencies.specs.Frames.{frame_of, frames_of, number_in};

use sg_kinds::ids::PhylumId;
use sg_kinds::memory::NoMemory;
use sg_kinds::row::{Row, item};
use sg_kinds::spec::{Occurrence, Rules};
use std::alloc::Global;

/// The left side or an argument of an operator: its phylum, the number of its first attribute, and how many it has.
#[derive(Clone, Copy)]
pub struct Spot {
    pub phylum: usize,
    pub first: usize,
    pub attrs: usize,
}

/// The vertices of an operator, numbered by occurrence from left to right, by attribute in declaration order, then the
/// locals.
#[derive(Drop)]
pub struct Frame {
    pub spots: Row<Spot>,
    /// the number of the first local
    pub locals: usize,
    /// how many vertices there are
    pub count: usize,
}

impl Spot {
    /// An occurrence of the phylum whose first attribute has this number.
    fn of(rules: &Rules, phylum: PhylumId, first: usize) -> Spot
        ensures { result ≡ record { phylum = phylum; first = first; attrs = attr_count rules.now (Some phylum) } }
    {
        Spot {
            phylum: phylum.number as usize,
            first,
            attrs: attrs_in(rules, phylum),
        }
    }
}

impl Frame {
    /// The vertices of operator `op`.
    pub fn of(alloc: Global, rules: &Rules, op: usize) -> Result<Frame, NoMemory>
        requires there { op < length rules.now.ops }
        requires small { vertices rules.now op < 2 ^ 32 }
        ensures { IfOk result (λ f. f ≡ frame_of rules.now op) }
    {
        let operator = item(rules.ops.as_slice(), op);
        let mut spots = Vec::new(alloc);
        let left = Spot::of(rules, operator.phylum, 0);
        spots.push(left)?;
        let mut next = left.attrs;
        for &arg in operator.args.as_slice() {
            let spot = Spot::of(rules, arg, next);
            spots.push(spot)?;
            next += spot.attrs;
        }
        Ok(Frame {
            spots: Row::new(spots),
            locals: next,
            count: next + operator.locals.len(),
        })
    }

    /// The number of a vertex.
    pub fn number(&self, o: Occurrence) -> usize
        requires there { o.at < length self.now.spots }
        requires small { number_in self.now o < 2 ^ 32 }
        ensures { result ≡ number_in self.now o }
    {
        let spots = self.spots.as_slice();
        let here = item(spots, 0).attrs;
        let slot = o.slot as usize;
        if o.at == 0 && here <= slot {
            self.locals + (slot - here)
        } else {
            item(spots, o.at as usize).first + slot
        }
    }
}

/// How many attributes a phylum has.
pub fn attrs_in(rules: &Rules, phylum: PhylumId) -> usize
    ensures { result ≡ attr_count rules.now (Some phylum) }
{
    match rules.phyla.place(phylum.number) {
        None => 0,
        Some(phylum) => phylum.attrs.len(),
    }
}

/// The vertices of each operator.
pub fn frames(alloc: Global, rules: &Rules) -> Result<Vec<Frame>, NoMemory>
    requires { (p : ℕ) → vertices rules.now p < 2 ^ 32 }
    ensures { IfOk result (λ v. v.items ≡ frames_of rules.now) }
{
    let mut frames = Vec::new(alloc);
    for op in 0..rules.ops.len() {
        frames.push(Frame::of(alloc, rules, op)?)?;
    }
    Ok(frames)
}
