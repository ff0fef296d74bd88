//! The terminals with which strings of symbols begin.
ghost use Rattle.std.specs.Prelude.{◌≡◌, ℕ, ◌<◌, ◌≤◌, ◌↔◌, ◌⊎◌, length, take, All, Contains, IfOk, OnOk, IsTrue};
ghost use Rattle.sg_sets.specs.Members.{Has};
ghost use Rattle.sg_sets.specs.Paths.{Linked};
ghost use Rattle.sg_sets.specs.Rows.{Holds};
ghost use Rattle.sg_grammar.specs.declared.grammar.Production.{Production};
ghost use Rattle.sg_lalr.specs.Firsts.{First, StandsBehind, IsNullable};

use crate::least_set::has_all;
use sg_grammar::{Grammar, Production};
use sg_sets::{BitSet, Rows};
use std::alloc::{AllocError, Global};

/// Whether a set has the first symbols of a string.
fn has_front(set: &BitSet, symbols: &[u32], n: usize) -> bool
    requires { n ≤ length symbols.now }
    ensures { IsTrue result ↔ All (Has set.now) (take n symbols.now) }
{
    has_all(set, &symbols[..n])
}

/// Links the symbols of a right side that stand behind nullable ones to the left side.
fn link_rule(
    nullable: &BitSet,
    rule: &Production,
    links: &mut Vec<(usize, usize)>,
) -> Result<(), AllocError>
    ensures { OnOk result ((a b : ℕ) → Linked links.new.items a b
        ↔ (Linked links.old.items a b ⊎ ((b ≡ rule.now.left) × StandsBehind nullable.now rule.now.right a))) }
{
    let right = rule.right.as_slice();
    for d in 0..right.len() {
        if has_front(nullable, right, d) {
            links.push((right[d] as usize, rule.left as usize))?;
        }
    }
    Ok(())
}

/// The links along which terminals flow to the symbols that begin with them.
fn link_rules(
    alloc: Global,
    nullable: &BitSet,
    rules: &[Production],
) -> Result<Vec<(usize, usize)>, AllocError>
    ensures { IfOk result (λ v. (a b : ℕ) → Linked v.items a b
        ↔ ((r : Production) × Contains rules.now r × (b ≡ r.left) × StandsBehind nullable.now r.right a)) }
{
    let mut links = Vec::new(alloc);
    for rule in rules {
        link_rule(nullable, rule, &mut links)?;
    }
    Ok(links)
}

/// For each symbol the terminals with which it begins.
pub(crate) fn firsts(alloc: Global, g: &Grammar, nullable: &BitSet) -> Result<Rows, AllocError>
    requires { IsNullable g.now nullable.now }
    ensures count { IfOk result (λ rows. length rows.rows ≡ g.now.symbols) }
    ensures width { IfOk result (λ rows. rows.width ≡ g.now.terminals) }
    ensures exact { IfOk result (λ rows. (X u : ℕ) → Holds rows.rows X u ↔ ((X < g.now.symbols) × First g.now X u)) }
{
    g.sound();
    let links = link_rules(alloc, nullable, g.rules())?;
    let mut rows = Rows::new(alloc, g.symbols() as usize, g.terminals() as usize)?;
    for x in 0..g.terminals() as usize {
        rows.insert(x, x);
    }
    rows.flow(&links);
    Ok(rows)
}

/// The terminals with which a string begins.
pub(crate) fn first_of(
    alloc: Global,
    nullable: &BitSet,
    rows: &Rows,
    symbols: &[u32],
) -> Result<BitSet, AllocError>
    requires { All (λ X. X < length rows.now.rows) symbols.now }
    ensures width { IfOk result (λ s. length s ≡ rows.now.width) }
    ensures exact { IfOk result (λ s. (u : ℕ) → Has s u
        ↔ ((Y : ℕ) × StandsBehind nullable.now symbols.now Y × Holds rows.now.rows Y u)) }
{
    let mut set = BitSet::new(alloc, rows.width())?;
    for d in 0..symbols.len() {
        if has_front(nullable, symbols, d) {
            set.union(rows.row(symbols[d] as usize));
        }
    }
    Ok(set)
}
