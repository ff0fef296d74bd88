//! Numbers that are reached along edges.
ghost use Rattle.std.specs.Prelude.{◌≡◌, ◌≤◌, ◌^◌, ◌++◌, ◌↔◌, IsTrue, false, true, reverse, slice_set, IfOk};
ghost use Rattle.sg_remote.specs.Reach as spec;

use sg_kinds::memory::NoMemory;
use std::alloc::Global;

/// What reaches `from` reaches `to`.
#[derive(Clone, Copy)]
pub struct Edge {
    pub from: u32,
    pub to: u32,
}

/// Whether the flag of a number stands.
pub fn flag(flags: &[bool], k: u32) -> bool
    ensures { result ≡ spec.flag flags.now k }
{
    match flags.get(k as usize) {
        Some(flag) => *flag,
        None => false,
    }
}

/// Puts the flag of a number up, if there is one.
#[tactic(auto, using(crate::proofs::Flags::set_past))]
fn set(flags: &mut [bool], k: u32)
    ensures { flags.new ≡ slice_set flags.old k true }
{
    let k = k as usize;
    if k < flags.len() {
        flags[k] = true;
    }
}

fn put_all(flags: &mut [bool], starts: &[u32])
    ensures { flags.new ≡ spec.put_all flags.old starts.now }
{
    for k in starts {
        set(flags, *k);
    }
}

fn follow(flags: &mut [bool], edge: Edge)
    ensures { flags.new ≡ spec.follow flags.old edge }
{
    if flag(flags, edge.from) {
        set(flags, edge.to);
    }
}

fn pass(flags: &mut [bool], edges: &[Edge])
    ensures { flags.new ≡ spec.pass flags.old edges.now }
{
    for edge in edges {
        follow(flags, *edge);
    }
}

fn are_same(a: &[bool], b: &[bool]) -> bool
    ensures { IsTrue result ↔ (a.now ≡ b.now) }
{
    a == b
}

/// A copy of the flags after a pass.
fn passed(alloc: Global, edges: &[Edge], flags: &[bool]) -> Result<Vec<bool>, NoMemory>
    ensures { IfOk result (λ v. v.items ≡ spec.pass flags.now edges.now) }
{
    let mut next = Vec::from_slice(alloc, flags)?;
    pass(&mut next, edges);
    Ok(next)
}

/// The flags after so many passes, which end where one puts up nothing.
fn passes(
    alloc: Global,
    count: usize,
    edges: &[Edge],
    start: Vec<bool>,
) -> Result<Vec<bool>, NoMemory>
    ensures { IfOk result (λ v. v.items ≡ spec.passes count edges.now start.items) }
{
    let mut flags = start;
    for round in 0..count {
        let next = passed(alloc, edges, &flags)?;
        if are_same(&next, &flags) {
            return Ok(flags);
        }
        flags = next;
    }
    Ok(flags)
}

/// One more than the greatest of these numbers.
fn past(starts: &[u32]) -> usize
    ensures count { result ≡ spec.past starts.now }
    ensures few { result ≤ 2 ^ 32 }
{
    let mut most = 0usize;
    for k in starts {
        most = most.max(*k as usize + 1);
    }
    most
}

/// One more than the greatest end of these edges.
fn past_edges(edges: &[Edge]) -> usize
    ensures count { result ≡ spec.past_edges edges.now }
    ensures few { result ≤ 2 ^ 32 }
{
    let mut most = 0usize;
    for edge in edges {
        most = most.max(edge.to as usize + 1);
    }
    most
}

/// The edges, and then the same ones the other way along.
fn both_ways(alloc: Global, edges: &[Edge]) -> Result<Vec<Edge>, NoMemory>
    ensures { IfOk result (λ v. v.items ≡ edges.now ++ reverse edges.now) }
{
    let mut back = Vec::from_slice(alloc, edges)?;
    back.reverse();
    let mut both = Vec::from_slice(alloc, edges)?;
    both.append(&mut back)?;
    Ok(both)
}

/// The flags of the numbers that are reached from these along the edges. Passes go over the edges forth and back, so
/// that a chain of edges in either order takes one of them.
pub fn reached(alloc: Global, starts: &[u32], edges: &[Edge]) -> Result<Vec<bool>, NoMemory>
    ensures { IfOk result (λ v. v.items ≡ spec.reached starts.now edges.now) }
{
    let width = past(starts).max(past_edges(edges));
    let both = both_ways(alloc, edges)?;
    let mut flags = vec![in alloc; false; width]?;
    put_all(&mut flags, starts);
    passes(alloc, width + 1, &both, flags)
}
