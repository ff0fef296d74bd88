//! Closures of lists of items.
ghost use Rattle.std.specs.Prelude.{◌≡◌, ◌≢◌, ℕ, ◌<◌, ◌↔◌, ◌⊎◌, List, [], ◌++◌, length, map, slice_index_or, All, AllPairs, IfOk, OnOk, Contains};
ghost use Rattle.sg_sets.specs.Members.{Has};
ghost use Rattle.sg_lalr.specs.Items.{Item, IsRising};
ghost use Rattle.sg_lalr.specs.Closure.{HasLeft, Opens, OpensAt, AreOpenings, AreOpened, InRange, IsOpened, IsKernel, IsClosure};
ghost use Rattle.sg_lalr.specs.Lefts.{AreHeads};

use crate::items::Item;
use crate::lefts::{heads, lefts, of_symbol};
use crate::moves::symbol_of;
use sg_grammar::Grammar;
use sg_sets::BitSet;
use std::alloc::{AllocError, Global};

/// Puts those of some numbers that are not in the set into it, and behind the others.
fn open(list: &[u32], there: &mut BitSet, opened: &mut Vec<u32>) -> Result<(), AllocError>
    requires within { All (λ q. q < length there.old) list.now }
    requires opened { AreOpened there.old opened.old.items }
    ensures width { length there.new ≡ length there.old }
    ensures opened { OnOk result (AreOpened there.new opened.new.items) }
    ensures gains { OnOk result ((q : ℕ) → Has there.new q ↔ (Has there.old q ⊎ Contains list.now q)) }
    ensures keeps { OnOk result ((more : List ℕ) × (opened.new.items ≡ opened.old.items ++ more)) }
{
    for p in list {
        if there.insert(*p as usize) {
            opened.push(*p)?;
        }
    }
    Ok(())
}

/// The symbols whose productions begin because of a symbol behind a dot.
fn reached(alloc: Global, g: &Grammar, heads: &[Vec<u32>], x: u32) -> Result<Vec<u32>, AllocError>
    requires heads { AreHeads g.now.rules (map (λ l. l.items) heads.now) }
    requires there { x < g.now.symbols }
    ensures { IfOk result (λ v. (q : ℕ)
        → Opens g.now.rules x q ↔ ((Y : ℕ) × Contains v.items Y × HasLeft g.now.rules Y q)) }
{
    g.sound();
    let mut seen = BitSet::new(alloc, g.symbols() as usize)?;
    let mut reached = Vec::new(alloc);
    open(&[x], &mut seen, &mut reached)?;
    let mut k = 0;
    'reached: while k < reached.len() {
        let symbol = reached[k];
        open(of_symbol(heads, symbol), &mut seen, &mut reached)?;
        k += 1;
    }
    Ok(reached)
}

/// The productions of some symbols.
fn of_symbols(alloc: Global, lefts: &[Vec<u32>], symbols: &[u32]) -> Result<Vec<u32>, AllocError>
    ensures { IfOk result (λ v. (q : ℕ) → Contains v.items q ↔ ((Y : ℕ)
        × Contains symbols.now Y × Contains (slice_index_or (map (λ l. l.items) lefts.now) Y []) q)) }
{
    let mut productions = Vec::new(alloc);
    for y in symbols {
        productions.extend_from_slice(of_symbol(lefts, *y))?;
    }
    Ok(productions)
}

/// For each symbol the productions that begin because of it behind a dot. Of a terminal these are none.
pub(crate) fn openings(alloc: Global, g: &Grammar) -> Result<Vec<Vec<u32>>, AllocError>
    ensures { IfOk result (λ v. AreOpenings g.now (map (λ l. l.items) v.items)) }
{
    g.sound();
    let lefts = lefts(alloc, g)?;
    let heads = heads(alloc, g)?;
    let mut lists = Vec::with_capacity(alloc, g.symbols() as usize)?;
    for x in 0..g.symbols() {
        lists.push(if x < g.terminals() {
            Vec::new(alloc)
        } else {
            let symbols = reached(alloc, g, &heads, x)?;
            of_symbols(alloc, &lefts, &symbols)?
        })?;
    }
    Ok(lists)
}

/// The productions that begin because of the items of a kernel, each once.
fn open_all(
    alloc: Global,
    g: &Grammar,
    opens: &[Vec<u32>],
    kernel: &[Item],
) -> Result<Vec<u32>, AllocError>
    requires opens { AreOpenings g.now (map (λ l. l.items) opens.now) }
    requires within { All (InRange g.now) kernel.now }
    ensures apart { IfOk result (λ v. AllPairs ◌≢◌ v.items) }
    ensures exact { IfOk result (λ v. (q : ℕ)
        → Contains v.items q ↔ ((i : Item) × Contains kernel.now i × OpensAt g.now i q)) }
{
    let mut there = BitSet::new(alloc, g.rules().len())?;
    let mut opened = Vec::new(alloc);
    for item in kernel {
        if let Some(x) = symbol_of(g, *item) {
            open(&opens[x as usize], &mut there, &mut opened)?;
        }
    }
    Ok(opened)
}

/// The items of a kernel and the beginnings of productions, in their order.
fn merge(alloc: Global, opened: &[u32], kernel: &[Item]) -> Result<Vec<Item>, AllocError>
    requires opened { AllPairs ◌<◌ opened.now }
    requires rising { IsRising kernel.now }
    requires dots { All (λ i. Contains opened.now i.production → 0 < i.dot) kernel.now }
    ensures rising { IfOk result (λ v. IsRising v.items) }
    ensures has { IfOk result (λ v. (i : Item) → Contains v.items i
        ↔ (Contains kernel.now i ⊎ IsOpened opened.now i)) }
{
    let mut items = Vec::with_capacity(alloc, opened.len() + kernel.len())?;
    let mut at = 0;
    'opened: for p in opened {
        'kept: while at < kernel.len() && kernel[at].production < *p {
            items.push(kernel[at])?;
            at += 1;
        }
        items.push(Item {
            production: *p,
            dot: 0,
        })?;
    }
    items.extend_from_slice(&kernel[at..])?;
    Ok(items)
}

/// The closure of a kernel.
pub(crate) fn closure(
    alloc: Global,
    g: &Grammar,
    opens: &[Vec<u32>],
    kernel: &[Item],
) -> Result<Vec<Item>, AllocError>
    requires opens { AreOpenings g.now (map (λ l. l.items) opens.now) }
    requires kernel { IsKernel g.now kernel.now }
    ensures { IfOk result (λ v. IsClosure g.now kernel.now v.items) }
{
    let mut opened = open_all(alloc, g, opens, kernel)?;
    opened.sort()?;
    let items = merge(alloc, &opened, kernel)?;
    Ok(items)
}
