//! `Relation`, a relation on the numbers below its size, with its closure.
ghost use Rattle.std.specs.Prelude.{◌≡◌, ℕ, ◌+◌, ◌<◌, ◌≤◌, ◌↔◌, ◌⊎◌, Bool, false, not, if◌then◌else◌, length, replicate, IfOk, IfSome, IsTrue};
ghost use Rattle.std.specs.Bool.{OnTrue, OnFalse};
ghost use Rattle.sg_sets.specs.Members.{has, IsMoved};
ghost use Rattle.sg_sets.specs.Rows.{row_of, Holds, all_missing};
ghost use Rattle.sg_sets.specs.Paths.{Path, IsTransitive};
ghost use Rattle.sg_sets.specs.Relations.{HasPassedOn, predecessors};

use crate::{BitSet, Rows};
use std::alloc::{AllocError, Global};
use std::marker::Model;

/// How many steps are tried before numbers are put into an order, which costs more where a relation has few pairs.
const FEW: usize = 4096;

/// So many steps of a round are free; behind them there may be so many for each number that is done.
const FREE: usize = 64;

const FOR_EACH: usize = 8;

/// A relation on the numbers below its size, each of them a vertex of a graph.
#[derive(Drop)]
pub struct Relation {
    pub(crate) rows: Rows,
}

impl Model for Relation {
    ghost use Rattle.std.specs.Prelude.{◌≡◌, List, Bool, length};

    ghost Value = { List (List Bool) };

    ghost view = { λ r. r.rows.rows };

    ghost invariant = { λ r. r.rows.width ≡ length r.rows.rows };
}

impl Relation {
    /// Returns the empty relation on the numbers below `n`.
    pub fn new(alloc: Global, n: usize) -> Result<Relation, AllocError>
        ensures { IfOk result (λ r. r ≡ replicate n (replicate n false)) }
    {
        let rows = Rows::new(alloc, n, n)?;
        Ok(Relation { rows })
    }

    /// Returns the size: the relation is on the numbers below it.
    pub fn size(&self) -> usize
        ensures { result ≡ length self.now }
    {
        self.rows.count()
    }

    /// Returns whether `a` is related to `b`.
    pub fn holds(&self, a: usize, b: usize) -> bool
        ensures { IsTrue result ↔ Holds self.now a b }
    {
        self.rows.holds(a, b)
    }

    /// Returns the numbers that `a` is related to.
    pub fn successors(&self, a: usize) -> &BitSet
        requires { a < length self.now }
        ensures row { result.now ≡ row_of self.now a }
        ensures width { length result.now ≡ length self.now }
    {
        self.rows.row(a)
    }

    /// Relates `a` to `b`, and returns whether they were not related before.
    pub fn add(&mut self, a: usize, b: usize) -> bool
        requires from { a < length self.old }
        requires to { b < length self.old }
        ensures absent { result ≡ not (has (row_of self.old a) b) }
        ensures gains { (x y : ℕ) → Holds self.new x y ↔ (Holds self.old x y ⊎ ((x ≡ a) × (y ≡ b))) }
        ensures counted { all_missing self.old ≡ all_missing self.new + (if result then 1 else 0) }
        ensures stays { OnFalse result (self.new ≡ self.old) }
        ensures size { length self.new ≡ length self.old }
    {
        self.rows.insert(a, b)
    }

    /// Relates `a` to the numbers of a set from `from` on, at so many places, moved to `to`, and returns whether some
    /// of them were not related before.
    pub fn add_part(&mut self, a: usize, to: usize, set: &BitSet, from: usize, count: usize) -> bool
        requires row { a < length self.old }
        requires to { to + count ≤ length self.old }
        requires from { from + count ≤ length set.now }
        requires to_fits { to + count ≤ usize.MAX }
        requires from_fits { from + count ≤ usize.MAX }
        ensures gains { (x y : ℕ) → Holds self.new x y ↔ (Holds self.old x y
            ⊎ ((x ≡ a) × IsMoved set.now from to count y)) }
        ensures grows { OnTrue result (all_missing self.new < all_missing self.old) }
        ensures stays { OnFalse result (self.new ≡ self.old) }
        ensures size { length self.new ≡ length self.old }
    {
        self.rows.union_part(a, to, set, from, count)
    }

    /// Relates what `other` does, and returns whether some pair was not related before.
    pub fn join(&mut self, other: &Relation) -> bool
        requires { length self.old ≡ length other.now }
        ensures joins { (x y : ℕ) → Holds self.new x y ↔ (Holds self.old x y ⊎ Holds other.now x y) }
        ensures grows { OnTrue result (all_missing self.new < all_missing self.old) }
        ensures stays { OnFalse result (self.new ≡ self.old) }
        ensures size { length self.new ≡ length self.old }
    {
        self.rows.union(&other.rows)
    }

    /// Returns an equal relation.
    pub fn copy(&self, alloc: Global) -> Result<Relation, AllocError>
        ensures { IfOk result (λ r. r ≡ self.now) }
    {
        let rows = self.rows.copy(alloc)?;
        Ok(Relation { rows })
    }

    /// Returns how many numbers are related to `b`.
    pub fn predecessors(&self, b: usize) -> usize
        ensures { result ≡ predecessors self.now b }
    {
        let mut count = 0;
        for a in 0..self.size() {
            if self.holds(a, b) {
                count += 1;
            }
        }
        count
    }

    /// Makes the relation transitive by the pairs that this takes and no other.
    pub fn close(&mut self)
        ensures contains { (a b : ℕ) → Holds self.old a b → Holds self.new a b }
        ensures transitive { IsTransitive (Holds self.new) }
        ensures least { (a b : ℕ) → Holds self.new a b → Path (Holds self.old) a b }
        ensures size { length self.new ≡ length self.old }
    {
        if self.close_in_few() {
            return;
        }
        if self.close_in_order().is_ok() {
            return;
        }
        while self.lengthen() {}
    }

    /// Lengthens while the steps are few, and returns whether the relation is transitive then.
    fn close_in_few(&mut self) -> bool
        ensures contains { (a b : ℕ) → Holds self.old a b → Holds self.new a b }
        ensures transitive { OnTrue result (IsTransitive (Holds self.new)) }
        ensures least { (a b : ℕ) → Holds self.new a b → Path (Holds self.old) a b }
        ensures size { length self.new ≡ length self.old }
    {
        let mut steps = 0;
        while let Some(grown) = self.lengthen_few(&mut steps) {
            if !grown {
                return true;
            }
        }
        false
    }

    /// Relates each number to those that one leads to which it is related to, and returns whether some were not
    /// related before, or nothing where the steps are too many: in all, or for so many numbers.
    fn lengthen_few(&mut self, steps: &mut usize) -> Option<bool>
        ensures contains { (a b : ℕ) → Holds self.old a b → Holds self.new a b }
        ensures least { (a b : ℕ) → Holds self.new a b → Path (Holds self.old) a b }
        ensures grows { IfSome result (λ grown. OnTrue grown (all_missing self.new < all_missing self.old)) }
        ensures stays { IfSome result (λ grown. OnFalse grown (IsTransitive (Holds self.new))) }
        ensures size { length self.new ≡ length self.old }
    {
        let before = *steps;
        let mut grown = false;
        for a in 0..self.size() {
            let here = steps.saturating_sub(before);
            if *steps > FEW || here.saturating_sub(FREE) / FOR_EACH > a {
                return None;
            }
            if self.lengthen_from(a, steps) {
                grown = true;
            }
        }
        Some(grown)
    }

    /// Relates each number to those that one leads to which it is related to, and returns whether some were not
    /// related before.
    fn lengthen(&mut self) -> bool
        ensures contains { (a b : ℕ) → Holds self.old a b → Holds self.new a b }
        ensures least { (a b : ℕ) → Holds self.new a b → Path (Holds self.old) a b }
        ensures grows { OnTrue result (all_missing self.new < all_missing self.old) }
        ensures stays { OnFalse result (IsTransitive (Holds self.new)) }
        ensures size { length self.new ≡ length self.old }
    {
        let mut grown = false;
        let mut steps = 0;
        for a in 0..self.size() {
            if self.lengthen_from(a, &mut steps) {
                grown = true;
            }
        }
        grown
    }

    /// The same for the number `a`. Each number that it is related to is a step.
    fn lengthen_from(&mut self, a: usize, steps: &mut usize) -> bool
        requires { a < length self.old }
        ensures contains { (x y : ℕ) → Holds self.old x y → Holds self.new x y }
        ensures least { (x y : ℕ) → Holds self.new x y → Path (Holds self.old) x y }
        ensures grows { OnTrue result (all_missing self.new < all_missing self.old) }
        ensures stays { OnFalse result (self.new ≡ self.old) }
        ensures passed { OnFalse result (HasPassedOn self.new a) }
        ensures size { length self.new ≡ length self.old }
    {
        let mut grown = false;
        let mut from = 0;
        while let Some(k) = self.successors(a).next(from) {
            if self.take_over(a, k) {
                grown = true;
            }
            *steps = steps.saturating_add(1);
            from = k + 1;
        }
        grown
    }

    /// Relates `a` to what `k` is related to, and returns whether it was not to some of that.
    pub(crate) fn take_over(&mut self, a: usize, k: usize) -> bool
        requires to { a < length self.old }
        requires from { k < length self.old }
        ensures takes { (x y : ℕ) → Holds self.new x y ↔ (Holds self.old x y ⊎ ((x ≡ a) × Holds self.old k y)) }
        ensures grows { OnTrue result (all_missing self.new < all_missing self.old) }
        ensures stays { OnFalse result (self.new ≡ self.old) }
        ensures size { length self.new ≡ length self.old }
    {
        self.rows.join_row(k, a)
    }
}
