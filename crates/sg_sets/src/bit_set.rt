//! `BitSet`, a set of numbers below a width, a bit a number.
ghost use Rattle.std.specs.Prelude.{◌≡◌, ℕ, ◌+◌, ◌/◌, ◌%◌, ◌<◌, ◌≤◌, ◌↔◌, ◌⊎◌, false, true, not, [], length, replicate, slice_set, IfOk, IfSome, IfNone, IsTrue};
ghost use Rattle.std.specs.Bool.{OnTrue, OnFalse};
ghost use Rattle.sg_sets.specs.Members.{has, Has, IsNext, missing_of, Shared, Outside, IsMoved};

use crate::words;
use std::alloc::{AllocError, Global};
use std::marker::Model;

/// A set of numbers below a width, which is chosen when the set is made.
#[derive(Drop)]
pub struct BitSet {
    words: Vec<u64>,
    width: usize,
}

impl Model for BitSet {
    ghost use Rattle.std.specs.Prelude.{List, Bool};
    ghost use Rattle.sg_sets.specs.Words.{bits_of, IsPacked};

    ghost Value = { List Bool };

    ghost view = { λ s. bits_of s.width s.words.items };

    ghost invariant = { λ s. IsPacked s.width s.words.items };
}

impl BitSet {
    /// Returns the empty set of numbers below `width`.
    pub fn new(alloc: Global, width: usize) -> Result<BitSet, AllocError>
        ensures { IfOk result (λ s. s ≡ replicate width false) }
    {
        let words = vec![in alloc; 0u64; width.div_ceil(64)]?;
        Ok(BitSet { words, width })
    }

    /// Returns the set of width 0, which takes no memory.
    pub(crate) fn none(alloc: Global) -> BitSet
        ensures { result ≡ [] }
    {
        BitSet {
            words: Vec::new(alloc),
            width: 0,
        }
    }

    /// Returns the width: each number of the set is below it.
    pub fn width(&self) -> usize
        ensures { result ≡ length self.now }
    {
        self.width
    }

    /// Returns whether `a` is in the set.
    pub fn contains(&self, a: usize) -> bool
        ensures { IsTrue result ↔ Has self.now a }
    {
        a < self.width && (self.words[a / 64] >> (a % 64)) & 1 == 1
    }

    /// Puts `a` into the set, and returns whether it was not there.
    pub fn insert(&mut self, a: usize) -> bool
        requires { a < length self.old }
        ensures absent { result ≡ not (has self.old a) }
        ensures gains { self.new ≡ slice_set self.old a true }
    {
        let absent = !self.contains(a);
        self.words[a / 64] |= 1 << (a % 64);
        absent
    }

    /// Takes every number out of the set.
    pub fn clear(&mut self)
        ensures { self.new ≡ replicate (length self.old) false }
    {
        words::clear(&mut self.words);
    }

    /// Returns an equal set.
    pub fn copy(&self, alloc: Global) -> Result<BitSet, AllocError>
        ensures { IfOk result (λ s. s ≡ self.now) }
    {
        let words = Vec::from_slice(alloc, &self.words)?;
        Ok(BitSet {
            words,
            width: self.width,
        })
    }

    /// Puts the numbers of `other` into the set, and returns whether some of them were not there.
    pub fn union(&mut self, other: &BitSet) -> bool
        requires { length self.old ≡ length other.now }
        ensures joins { (a : ℕ) → Has self.new a ↔ (Has self.old a ⊎ Has other.now a) }
        ensures width { length self.new ≡ length self.old }
        ensures grows { OnTrue result (missing_of self.new < missing_of self.old) }
        ensures stays { OnFalse result (self.new ≡ self.old) }
    {
        words::join(&mut self.words, &other.words)
    }

    /// Puts the numbers of `other` from `from` on, at so many places, into the set from `to` on, and returns whether
    /// some of them were not there.
    pub fn union_part(&mut self, to: usize, other: &BitSet, from: usize, count: usize) -> bool
        requires to { to + count ≤ length self.old }
        requires from { from + count ≤ length other.now }
        requires to_fits { to + count ≤ usize.MAX }
        requires from_fits { from + count ≤ usize.MAX }
        ensures joins { (a : ℕ) → Has self.new a ↔ (Has self.old a ⊎ IsMoved other.now from to count a) }
        ensures width { length self.new ≡ length self.old }
        ensures grows { OnTrue result (missing_of self.new < missing_of self.old) }
        ensures stays { OnFalse result (self.new ≡ self.old) }
    {
        let end = from + count;
        let mut grown = false;
        let mut at = from;
        while let Some(n) = other.next(at)
            && n < end
        {
            let place = to + (n - from);
            let long = (end - n).min(64 - n % 64).min(64 - place % 64);
            if self.union_piece(place, other, n, long) {
                grown = true;
            }
            at = n + long;
        }
        grown
    }

    /// The same where the places lie in one word here and in one word there.
    fn union_piece(&mut self, to: usize, other: &BitSet, from: usize, count: usize) -> bool
        requires some { 1 ≤ count }
        requires to { to + count ≤ length self.old }
        requires to_word { to % 64 + count ≤ 64 }
        requires from { from + count ≤ length other.now }
        requires from_word { from % 64 + count ≤ 64 }
        ensures joins { (a : ℕ) → Has self.new a ↔ (Has self.old a ⊎ IsMoved other.now from to count a) }
        ensures width { length self.new ≡ length self.old }
        ensures grows { OnTrue result (missing_of self.new < missing_of self.old) }
        ensures stays { OnFalse result (self.new ≡ self.old) }
    {
        words::join_piece(&mut self.words, to, &other.words, from, count)
    }

    /// Returns the least number of the set that is not below `from`.
    pub fn next(&self, from: usize) -> Option<usize>
        ensures none { IfNone result ((a : ℕ) → from ≤ a → ¬ (Has self.now a)) }
        ensures least { IfSome result (IsNext self.now from) }
        ensures low { IfSome result (λ m. m < usize.MAX) }
    {
        let words = self.words.as_slice();
        let mut at = from;
        while at < self.width {
            let rest = words[at / 64] >> (at % 64);
            if rest != 0 {
                return Some(at + rest.trailing_zeros() as usize);
            }
            at = at.saturating_add(64 - at % 64);
        }
        None
    }

    /// Returns the least number that is in both sets.
    pub fn first_shared(&self, other: &BitSet) -> Option<usize>
        requires { length self.now ≡ length other.now }
        ensures none { IfNone result ((a : ℕ) → ¬ (Shared self.now other.now a)) }
        ensures shared { IfSome result (Shared self.now other.now) }
        ensures least { IfSome result (λ m. (a : ℕ) → Shared self.now other.now a → m ≤ a) }
    {
        words::first_shared(&self.words, &other.words)
    }

    /// Returns the least number that is not in `other`.
    pub fn first_outside(&self, other: &BitSet) -> Option<usize>
        requires { length self.now ≡ length other.now }
        ensures none { IfNone result ((a : ℕ) → ¬ (Outside self.now other.now a)) }
        ensures outside { IfSome result (Outside self.now other.now) }
        ensures least { IfSome result (λ m. (a : ℕ) → Outside self.now other.now a → m ≤ a) }
    {
        words::first_outside(&self.words, &other.words)
    }

    /// Returns whether some number is in both sets.
    pub(crate) fn meets(&self, other: &BitSet) -> bool
        requires { length self.now ≡ length other.now }
        ensures { IsTrue result ↔ ((a : ℕ) × Shared self.now other.now a) }
    {
        self.first_shared(other).is_some()
    }
}
