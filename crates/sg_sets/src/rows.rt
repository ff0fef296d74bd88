//! `Rows`, sets of numbers of one width, which flow along links.
ghost use Rattle.std.specs.Prelude.{◌≡◌, ℕ, ◌+◌, ◌*◌, ◌<◌, ◌≤◌, ◌↔◌, ◌⊎◌, false, true, not, if◌then◌else◌, [], length, replicate, All, IfOk, IsTrue};
ghost use Rattle.std.specs.Bool.{OnTrue, OnFalse};
ghost use Rattle.sg_sets.specs.Members.{has, Has, IsMoved};
ghost use Rattle.sg_sets.specs.Flags.{IsFresh, HasPassed, AreFlagged, Flows};
ghost use Rattle.sg_sets.specs.Rows.{Table, table, row_of, Holds, all_missing, SameShape, AreRows, IsSettled};
ghost use Rattle.sg_sets.specs.Paths.{Reaches, Linked};

use crate::BitSet;
use std::alloc::{AllocError, Global};
use std::marker::Model;
use std::mem;

/// Sets of numbers below one width, each with a number of its own.
#[derive(Drop)]
pub struct Rows {
    rows: Vec<BitSet>,
    width: usize,
}

impl Model for Rows {
    ghost use Rattle.sg_sets.specs.Rows.{Table, table, AllOfWidth};

    ghost Value = { Table };

    ghost view = { λ r. table r.width r.rows.items };

    ghost invariant = { λ r. AllOfWidth r.width r.rows.items };
}

impl Rows {
    /// Returns `count` empty rows of numbers below `width`.
    pub fn new(alloc: Global, count: usize, width: usize) -> Result<Rows, AllocError>
        ensures { IfOk result (λ r. r ≡ table width (replicate count (replicate width false))) }
    {
        let mut rows = Vec::with_capacity(alloc, count)?;
        for _ in 0..count {
            rows.push(BitSet::new(alloc, width)?)?;
        }
        Ok(Rows { rows, width })
    }

    /// Returns how many rows there are.
    pub fn count(&self) -> usize
        ensures { result ≡ length self.now.rows }
    {
        self.rows.len()
    }

    /// Returns the width: each number of a row is below it.
    pub fn width(&self) -> usize
        ensures { result ≡ self.now.width }
    {
        self.width
    }

    /// Returns what the rows take their memory from.
    pub(crate) fn allocator(&self) -> Global {
        *self.rows.allocator()
    }

    /// Returns row `a`.
    pub fn row(&self, a: usize) -> &BitSet
        requires { a < length self.now.rows }
        ensures row { result.now ≡ row_of self.now.rows a }
        ensures width { length result.now ≡ self.now.width }
    {
        &self.rows[a]
    }

    /// Returns whether row `a` has `b`.
    pub fn holds(&self, a: usize, b: usize) -> bool
        ensures { IsTrue result ↔ Holds self.now.rows a b }
    {
        a < self.rows.len() && self.rows[a].contains(b)
    }

    /// Puts `b` into row `a`, and returns whether it was not there.
    pub fn insert(&mut self, a: usize, b: usize) -> bool
        requires row { a < length self.old.rows }
        requires number { b < self.old.width }
        ensures absent { result ≡ not (has (row_of self.old.rows a) b) }
        ensures gains { (x y : ℕ) → Holds self.new.rows x y ↔ (Holds self.old.rows x y ⊎ ((x ≡ a) × (y ≡ b))) }
        ensures counted { all_missing self.old.rows ≡ all_missing self.new.rows + (if result then 1 else 0) }
        ensures stays { OnFalse result (self.new ≡ self.old) }
        ensures shape { SameShape self.old self.new }
    {
        self.rows[a].insert(b)
    }

    /// Puts the numbers of a set into row `a`, and returns whether some of them were not there.
    pub fn union_row(&mut self, a: usize, set: &BitSet) -> bool
        requires row { a < length self.old.rows }
        requires width { length set.now ≡ self.old.width }
        ensures joins { (x y : ℕ) → Holds self.new.rows x y ↔ (Holds self.old.rows x y ⊎ ((x ≡ a) × Has set.now y)) }
        ensures grows { OnTrue result (all_missing self.new.rows < all_missing self.old.rows) }
        ensures stays { OnFalse result (self.new ≡ self.old) }
        ensures shape { SameShape self.old self.new }
    {
        self.rows[a].union(set)
    }

    /// Puts the numbers of a set from `from` on, at so many places, into row `a` from `to` on, and returns whether some
    /// of them were not there.
    pub fn union_part(
        &mut self,
        a: usize,
        to: usize,
        set: &BitSet,
        from: usize,
        count: usize,
    ) -> bool
        requires row { a < length self.old.rows }
        requires to { to + count ≤ self.old.width }
        requires from { from + count ≤ length set.now }
        requires to_fits { to + count ≤ usize.MAX }
        requires from_fits { from + count ≤ usize.MAX }
        ensures joins { (x y : ℕ) → Holds self.new.rows x y ↔ (Holds self.old.rows x y
            ⊎ ((x ≡ a) × IsMoved set.now from to count y)) }
        ensures grows { OnTrue result (all_missing self.new.rows < all_missing self.old.rows) }
        ensures stays { OnFalse result (self.new ≡ self.old) }
        ensures shape { SameShape self.old self.new }
    {
        self.rows[a].union_part(to, set, from, count)
    }

    /// Puts the numbers of each row of `other` into the same row, and returns whether some of them
    /// were not there.
    pub(crate) fn union(&mut self, other: &Rows) -> bool
        requires { SameShape self.old other.now }
        ensures joins { (x y : ℕ) → Holds self.new.rows x y ↔ (Holds self.old.rows x y ⊎ Holds other.now.rows x y) }
        ensures grows { OnTrue result (all_missing self.new.rows < all_missing self.old.rows) }
        ensures stays { OnFalse result (self.new ≡ self.old) }
        ensures shape { SameShape self.old self.new }
    {
        let mut grown = false;
        for a in 0..self.count() {
            if self.union_row(a, other.row(a)) {
                grown = true;
            }
        }
        grown
    }

    /// Puts the numbers of row `from` into row `to`, and returns whether some of them were not there.
    pub fn join_row(&mut self, from: usize, to: usize) -> bool
        requires from_row { from < length self.old.rows }
        requires to_row { to < length self.old.rows }
        ensures joins { (x y : ℕ) → Holds self.new.rows x y ↔ (Holds self.old.rows x y
            ⊎ ((x ≡ to) × Holds self.old.rows from y)) }
        ensures grows { OnTrue result (all_missing self.new.rows < all_missing self.old.rows) }
        ensures stays { OnFalse result (self.new ≡ self.old) }
        ensures shape { SameShape self.old self.new }
    {
        if from == to {
            return false;
        }
        let none = BitSet::none(*self.rows.allocator());
        let set = mem::replace(&mut self.rows[from], none);
        let grown = self.rows[to].union(&set);
        self.rows[from] = set;
        grown
    }

    /// Returns equal rows.
    pub fn copy(&self, alloc: Global) -> Result<Rows, AllocError>
        ensures { IfOk result (λ r. r ≡ self.now) }
    {
        let mut rows = Vec::with_capacity(alloc, self.rows.len())?;
        for row in &self.rows {
            rows.push(row.copy(alloc)?)?;
        }
        Ok(Rows {
            rows,
            width: self.width,
        })
    }

    /// Lets the numbers of the rows flow along the links, each from its first row to its second, until
    /// no row changes.
    pub fn flow(&mut self, links: &[(usize, usize)])
        requires { All (AreRows self.old.rows) links.now }
        ensures flows { (x y : ℕ) → Holds self.new.rows x y ↔ ((s : ℕ) × Holds self.old.rows s y
            × Reaches (Linked links.now) s x) }
        ensures shape { SameShape self.old self.new }
    {
        let mut was = self.filled();
        let mut fresh = flags(*self.rows.allocator(), self.rows.len());
        while self.flow_both(links, &mut was, &mut fresh) {}
    }

    /// Returns flags for the rows that have numbers.
    fn filled(&self) -> BitSet
        ensures { (a y : ℕ) → Holds self.now.rows a y → IsFresh result a }
    {
        let mut filled = flags(*self.rows.allocator(), self.rows.len());
        for a in 0..self.rows.len() {
            if self.rows[a].meets(&self.rows[a]) {
                mark(&mut filled, a);
            }
        }
        filled
    }

    /// Takes each link there and back, by the rows that changed before, and returns whether a row changed
    /// on the way back. Along a chain of links that stand in either order, one of the two ways goes from end to end.
    fn flow_both(&mut self, links: &[(usize, usize)], was: &mut BitSet, fresh: &mut BitSet) -> bool
        requires rows { All (AreRows self.old.rows) links.now }
        requires flagged { AreFlagged links.now self.old.rows was.old }
        ensures flows { Flows links.now self.old self.new }
        ensures grows { OnTrue result (all_missing self.new.rows < all_missing self.old.rows) }
        ensures settled { OnFalse result (IsSettled links.now self.new.rows) }
        ensures flagged { OnTrue result (AreFlagged links.now self.new.rows was.new) }
    {
        self.flow_forth(links, was, fresh) && self.flow_back(links, fresh, was)
    }

    /// Takes each link once, unless its first row changed neither before nor on the way, and returns whether a
    /// row changed. Those that did are flagged then.
    fn flow_forth(&mut self, links: &[(usize, usize)], was: &BitSet, fresh: &mut BitSet) -> bool
        requires rows { All (AreRows self.old.rows) links.now }
        requires flagged { AreFlagged links.now self.old.rows was.now }
        ensures flows { Flows links.now self.old self.new }
        ensures grows { OnTrue result (all_missing self.new.rows < all_missing self.old.rows) }
        ensures settled { OnFalse result (IsSettled links.now self.new.rows) }
        ensures flagged { AreFlagged links.now self.new.rows fresh.new }
    {
        fresh.clear();
        let mut grown = false;
        for &(from, to) in links {
            if self.flow_along(from, to, was, fresh) {
                grown = true;
            }
        }
        grown
    }

    /// The same from the last link on.
    fn flow_back(&mut self, links: &[(usize, usize)], was: &BitSet, fresh: &mut BitSet) -> bool
        requires rows { All (AreRows self.old.rows) links.now }
        requires flagged { AreFlagged links.now self.old.rows was.now }
        ensures flows { Flows links.now self.old self.new }
        ensures grows { OnTrue result (all_missing self.new.rows < all_missing self.old.rows) }
        ensures settled { OnFalse result (IsSettled links.now self.new.rows) }
        ensures flagged { AreFlagged links.now self.new.rows fresh.new }
    {
        fresh.clear();
        let mut grown = false;
        for passed in 0..links.len() {
            let (from, to) = links[links.len() - 1 - passed];
            if self.flow_along(from, to, was, fresh) {
                grown = true;
            }
        }
        grown
    }

    /// Takes a link, unless its first row is not flagged, and returns whether its second row changed, which is
    /// flagged then.
    fn flow_along(&mut self, from: usize, to: usize, was: &BitSet, fresh: &mut BitSet) -> bool
        requires from_row { from < length self.old.rows }
        requires to_row { to < length self.old.rows }
        requires flagged { HasPassed self.old.rows from to ⊎ (IsFresh was.now from ⊎ IsFresh fresh.old from) }
        ensures gains { (x y : ℕ) → Holds self.new.rows x y
            → Holds self.old.rows x y ⊎ ((x ≡ to) × Holds self.old.rows from y) }
        ensures keeps { (x y : ℕ) → Holds self.old.rows x y → Holds self.new.rows x y }
        ensures passed { HasPassed self.new.rows from to }
        ensures grows { OnTrue result (all_missing self.new.rows < all_missing self.old.rows) }
        ensures stays { OnFalse result (self.new ≡ self.old) }
        ensures flags { (x : ℕ) → IsFresh fresh.old x → IsFresh fresh.new x }
        ensures flag { OnTrue result (IsFresh fresh.new to) }
        ensures shape { SameShape self.old self.new }
    {
        if !is_fresh(was, from) && !is_fresh(fresh, from) {
            return false;
        }
        let grown = self.join_row(from, to);
        if grown {
            mark(fresh, to);
        }
        grown
    }
}

/// Returns so many flags, or none where there is no memory for them: each row is then taken for flagged.
fn flags(alloc: Global, count: usize) -> BitSet
    ensures { (result ≡ replicate count false) ⊎ (result ≡ []) }
{
    match BitSet::new(alloc, count) {
        Ok(set) => set,
        Err(_) => BitSet::none(alloc),
    }
}

/// Returns whether row `a` is flagged.
fn is_fresh(flags: &BitSet, a: usize) -> bool
    ensures { IsTrue result ↔ IsFresh flags.now a }
{
    flags.width() <= a || flags.contains(a)
}

/// Flags row `a`.
fn mark(flags: &mut BitSet, a: usize)
    ensures keeps { (x : ℕ) → IsFresh flags.old x → IsFresh flags.new x }
    ensures marks { IsFresh flags.new a }
{
    if a < flags.width() {
        flags.insert(a);
    }
}
