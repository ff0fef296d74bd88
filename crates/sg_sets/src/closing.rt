//! The closing of a relation, each number behind those that it leads to.
ghost use Rattle.std.specs.Prelude.{◌≡◌, ℕ, ◌<◌, length, [], All, IfOk, OnOk};
ghost use Rattle.sg_sets.specs.Members.{Has};
ghost use Rattle.sg_sets.specs.Paths.{Path, IsTransitive};
ghost use Rattle.sg_sets.specs.Relations.{HasPassedOn, AreClosed};
ghost use Rattle.sg_sets.specs.Rows.{Holds};

use crate::{BitSet, Relation};
use std::alloc::{AllocError, Global};

impl Relation {
    /// Makes the relation transitive, where there is memory for it, by the pairs that this takes and no other.
    pub(crate) fn close_in_order(&mut self) -> Result<(), AllocError>
        ensures contains { (a b : ℕ) → Holds self.old a b → Holds self.new a b }
        ensures transitive { OnOk result (IsTransitive (Holds self.new)) }
        ensures least { (a b : ℕ) → Holds self.new a b → Path (Holds self.old) a b }
        ensures size { length self.new ≡ length self.old }
    {
        let alloc = self.rows.allocator();
        let order = self.order(alloc)?;
        let mut done = BitSet::new(alloc, self.size())?;
        let mut passed = BitSet::new(alloc, self.size())?;
        for &a in &order {
            self.reach(a, &mut done, &mut passed);
        }
        for a in 0..self.size() {
            self.reach(a, &mut done, &mut passed);
        }
        Ok(())
    }

    /// Relates `a` to all that it leads to, unless that is done.
    fn reach(&mut self, a: usize, done: &mut BitSet, passed: &mut BitSet)
        requires there { a < length self.old }
        requires flags { length done.old ≡ length self.old }
        requires width { length passed.old ≡ length self.old }
        requires closed { AreClosed done.old self.old }
        ensures contains { (x y : ℕ) → Holds self.old x y → Holds self.new x y }
        ensures least { (x y : ℕ) → Holds self.new x y → Path (Holds self.old) x y }
        ensures closed { AreClosed done.new self.new }
        ensures done { Has done.new a }
        ensures keeps { (x : ℕ) → Has done.old x → Has done.new x }
        ensures size { length self.new ≡ length self.old }
        ensures flags { length done.new ≡ length self.new }
        ensures width { length passed.new ≡ length self.new }
    {
        if done.contains(a) {
            return;
        }
        self.take_over_all(a, done, passed);
        done.insert(a);
    }

    /// Relates `a` to all that it leads to. What those lead to that are done is taken over at once.
    fn take_over_all(&mut self, a: usize, done: &BitSet, passed: &mut BitSet)
        requires there { a < length self.old }
        requires width { length passed.old ≡ length self.old }
        requires closed { AreClosed done.now self.old }
        ensures contains { (x y : ℕ) → Holds self.old x y → Holds self.new x y }
        ensures least { (x y : ℕ) → Holds self.new x y → Path (Holds self.old) x y }
        ensures passed { HasPassedOn self.new a }
        ensures size { length self.new ≡ length self.old }
        ensures width { length passed.new ≡ length self.new }
    {
        passed.clear();
        while let Some(k) = self.successors(a).first_outside(passed) {
            self.take_over(a, k);
            passed.insert(k);
            if done.contains(k) {
                passed.union(self.successors(k));
            }
        }
    }

    /// Returns numbers of the relation: where it has no cycle each of them, behind those that it leads to.
    fn order(&self, alloc: Global) -> Result<Vec<usize>, AllocError>
        ensures { IfOk result (λ order. All (λ a. a < length self.now) order.items) }
    {
        let mut seen = BitSet::new(alloc, self.size())?;
        let mut order = Vec::new(alloc);
        let mut way = Vec::new(alloc);
        for a in 0..self.size() {
            if !seen.contains(a) {
                seen.insert(a);
                way.push(a)?;
                self.descend(&mut way, &mut seen, &mut order)?;
            }
        }
        Ok(order)
    }

    /// Goes on from the last number of the way to what has not been seen, and back, until the way is empty.
    fn descend(
        &self,
        way: &mut Vec<usize>,
        seen: &mut BitSet,
        order: &mut Vec<usize>,
    ) -> Result<(), AllocError>
        requires way { All (λ a. a < length self.now) way.old.items }
        requires order { All (λ a. a < length self.now) order.old.items }
        requires seen { length seen.old ≡ length self.now }
        ensures order { OnOk result (All (λ a. a < length self.now) order.new.items) }
        ensures way { OnOk result (way.new.items ≡ []) }
        ensures seen { OnOk result (length seen.new ≡ length self.now) }
    {
        while let Some(&a) = way.last() {
            if let Some(k) = self.successors(a).first_outside(seen) {
                seen.insert(k);
                way.push(k)?;
            } else {
                way.pop();
                order.push(a)?;
            }
        }
        Ok(())
    }
}
