//! Least sets of symbols.
ghost use Rattle.std.specs.Prelude.{◌≡◌, ℕ, ◌∷◌, [], ◌<◌, ◌≤◌, ◌↔◌, ◌⊎◌, length, All, IfOk, IsTrue};
ghost use Rattle.std.specs.Bool.{OnTrue, OnFalse};
ghost use Rattle.sg_sets.specs.Members.{Has, missing_of};
ghost use Rattle.sg_lalr.specs.Least.{Grown, HasOnly, IsClosed};

use sg_grammar::{Grammar, Production};
use sg_sets::BitSet;
use std::alloc::{AllocError, Global};

/// Whether a set has each symbol.
pub(crate) fn has_all(set: &BitSet, symbols: &[u32]) -> bool
    ensures { IsTrue result ↔ All (Has set.now) symbols.now }
{
    symbols.iter().all(|x| set.contains(*x as usize))
}

/// Puts the left side of a rule into a set that has its right side, and returns whether it was not there.
fn add_left(rule: &Production, set: &mut BitSet) -> bool
    requires { rule.now.left < length set.old }
    ensures width { length set.new ≡ length set.old }
    ensures keeps { (X : ℕ) → Has set.old X → Has set.new X }
    ensures was { (X : ℕ) → Has set.new X → ((X ≡ rule.now.left) × All (Has set.old) rule.now.right) ⊎ Has set.old X }
    ensures has { All (Has set.old) rule.now.right → Has set.new rule.now.left }
    ensures grows { OnTrue result (missing_of set.new < missing_of set.old) }
    ensures stays { OnFalse result (set.new ≡ set.old) }
{
    has_all(set, rule.right.as_slice()) && set.insert(rule.left as usize)
}

/// Puts the left sides of right sides that the set has into it, and returns whether some were not there.
fn grow(rules: &[Production], set: &mut BitSet) -> bool
    requires { All (λ r. r.left < length set.old) rules.now }
    ensures width { length set.new ≡ length set.old }
    ensures keeps { (X : ℕ) → Has set.old X → Has set.new X }
    ensures only { (low : ℕ) → HasOnly rules.now low set.old → HasOnly rules.now low set.new }
    ensures grows { OnTrue result (missing_of set.new < missing_of set.old) }
    ensures closed { OnFalse result (IsClosed set.new rules.now) }
{
    let mut grown = false;
    for rule in rules {
        if add_left(rule, set) {
            grown = true;
        }
    }
    grown
}

/// The least set that has the symbols below a bound, and each left side whose right side it has.
pub(crate) fn least_set(alloc: Global, g: &Grammar, low: u32) -> Result<BitSet, AllocError>
    requires { low ≤ g.now.symbols }
    ensures width { IfOk result (λ s. length s ≡ g.now.symbols) }
    ensures exact { IfOk result (λ s. (X : ℕ) → Has s X ↔ Grown g.now.rules low (X ∷ [])) }
{
    g.sound();
    let mut set = BitSet::new(alloc, g.symbols() as usize)?;
    for x in 0..low {
        set.insert(x as usize);
    }
    while grow(g.rules(), &mut set) {}
    Ok(set)
}
