//! The least shortest cycle of a relation, and the least shortest way from one vertex to another.
ghost use Rattle.std.specs.Prelude.{◌≡◌, ℕ, ◌<◌, ◌≤◌, ◌↔◌, List, ◌∷◌, length, IfOk, IfSome, IfNone};
ghost use Rattle.sg_sets.specs.Cycles.{IsCycle, HasNoCycle, StartsLeast, IsShortest, IsLeast};
ghost use Rattle.sg_sets.specs.Layers.{AreLayers, IsApart, IsLeastWay};
ghost use Rattle.sg_sets.specs.Members.{Has};
ghost use Rattle.sg_sets.specs.Paths.{Path};
ghost use Rattle.sg_sets.specs.Rows.{Holds};
ghost use Rattle.sg_sets.specs.Ways.{IsWay, IsShortestWay, IsFirstWay};

use crate::{BitSet, Relation};
use std::alloc::{AllocError, Global};

impl Relation {
    /// Returns the cycle that starts at the least vertex of any cycle, is a shortest one from there,
    /// and of those the least sequence of numbers, or `None` where there is no cycle.
    ///
    /// A cycle is written as its vertices from the first on: each is related to the next, and the last
    /// to the first.
    pub fn cycle(&self, alloc: Global) -> Result<Option<Vec<usize>>, AllocError>
        ensures none { IfOk result (λ found. IfNone found (HasNoCycle (Holds self.now))) }
        ensures cycle { IfOk result (λ found. IfSome found (λ c. IsCycle (Holds self.now) c.items)) }
        ensures start { IfOk result (λ found. IfSome found (λ c. StartsLeast (Holds self.now) c.items)) }
        ensures shortest { IfOk result (λ found. IfSome found (λ c. IsShortest (Holds self.now) c.items)) }
        ensures least { IfOk result (λ found. IfSome found (λ c. IsLeast (Holds self.now) c.items)) }
    {
        let Some(start) = self.first_on_cycle(alloc)? else {
            return Ok(None);
        };
        let layers = self.layers(alloc, start, start)?;
        let cycle = self.least_way(alloc, start, start, layers)?;
        Ok(Some(cycle))
    }

    /// Returns a shortest way from `a` to `b`, of one step at least, and of those the least sequence
    /// of numbers, or `None` where none leads there.
    ///
    /// A way is written as its vertices, both ends with it: each is related to the next.
    pub fn way(&self, alloc: Global, a: usize, b: usize) -> Result<Option<Vec<usize>>, AllocError>
        ensures none { IfOk result (λ found. IfNone found (¬ (Path (Holds self.now) a b))) }
        ensures way { IfOk result (λ found. IfSome found (λ w. IsWay (Holds self.now) a b w.items)) }
        ensures shortest { IfOk result (λ found. IfSome found (λ w. IsShortestWay (Holds self.now) a b w.items)) }
        ensures least { IfOk result (λ found. IfSome found (λ w. IsFirstWay (Holds self.now) a b w.items)) }
    {
        if a >= self.size() {
            return Ok(None);
        }
        let mut closed = self.copy(alloc)?;
        closed.close();
        if !closed.successors(a).contains(b) {
            return Ok(None);
        }
        let layers = self.layers(alloc, a, b)?;
        let mut way = self.least_way(alloc, a, b, layers)?;
        way.push(b)?;
        Ok(Some(way))
    }

    /// Returns the least vertex that leads to itself.
    fn first_on_cycle(&self, alloc: Global) -> Result<Option<usize>, AllocError>
        ensures none { IfOk result (λ found. IfNone found ((v : ℕ) → ¬ (Path (Holds self.now) v v))) }
        ensures cycle { IfOk result (λ found. IfSome found (λ s. Path (Holds self.now) s s)) }
        ensures least { IfOk result (λ found. IfSome found (λ s. (v : ℕ) → Path (Holds self.now) v v → s ≤ v)) }
    {
        let mut closed = self.copy(alloc)?;
        closed.close();
        for v in 0..closed.size() {
            if closed.holds(v, v) {
                return Ok(Some(v));
            }
        }
        Ok(None)
    }

    /// Returns the vertices that are related to a member of the set.
    fn before(&self, alloc: Global, set: &BitSet) -> Result<BitSet, AllocError>
        requires { length set.now ≡ length self.now }
        ensures width { IfOk result (λ s. length s ≡ length self.now) }
        ensures before { IfOk result (λ s. (v : ℕ) → Has s v ↔ ((b : ℕ) × Holds self.now v b × Has set.now b)) }
    {
        let mut found = BitSet::new(alloc, self.size())?;
        for v in 0..self.size() {
            if self.successors(v).meets(set) {
                found.insert(v);
            }
        }
        Ok(found)
    }

    /// Returns the layers round the goal that lack the start, from the innermost on.
    fn layers(&self, alloc: Global, start: usize, goal: usize) -> Result<Vec<BitSet>, AllocError>
        requires path { Path (Holds self.now) start goal }
        requires goal { goal < length self.now }
        ensures layers { IfOk result (λ layers. AreLayers (Holds self.now) goal (length self.now) layers.items) }
        ensures apart { IfOk result (λ layers. IsApart (Holds self.now) goal start (length layers.items)) }
    {
        let mut target = BitSet::new(alloc, self.size())?;
        target.insert(goal);
        let mut layer = self.before(alloc, &target)?;
        let mut layers = Vec::new(alloc);
        while !layer.contains(start) {
            let mut next = self.before(alloc, &layer)?;
            next.union(&layer);
            layers.push(layer)?;
            layer = next;
        }
        Ok(layers)
    }

    /// Returns the start and the least way from it to the goal, without the goal, through the layers
    /// round the goal, from the outermost on.
    fn least_way(
        &self,
        alloc: Global,
        start: usize,
        goal: usize,
        mut layers: Vec<BitSet>,
    ) -> Result<Vec<usize>, AllocError>
        requires layers { AreLayers (Holds self.now) goal (length self.now) layers.items }
        requires apart { IsApart (Holds self.now) goal start (length layers.items) }
        ensures { IfOk result (λ c. (via : List ℕ) × (c.items ≡ start ∷ via)
            × IsLeastWay (Holds self.now) goal start (length layers.items) via) }
    {
        let mut way = Vec::new(alloc);
        way.push(start)?;
        let mut at = start;
        while let Some(layer) = layers.pop() {
            at = self.successors(at).first_shared(&layer).unwrap();
            way.push(at)?;
        }
        Ok(way)
    }
}
