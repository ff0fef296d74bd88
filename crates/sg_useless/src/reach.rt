//! Numbers that are reached along steps.
ghost use Rattle.std.specs.Prelude.{◌≡◌, ◌||◌, ◌&&◌, ℕ, length, nat_eq, nat_lt, IfOk};
ghost use Rattle.std.specs.List.{list_any};
ghost use Rattle.sg_useless.specs.Reach as spec;

use sg_kinds::memory::NoMemory;
use std::alloc::Global;

/// What reaches `from` reaches `to`.
#[derive(Clone, Copy)]
pub struct Step {
    pub from: usize,
    pub to: usize,
}

/// Whether the flag of a number stands.
pub fn flag(flags: &[bool], number: usize) -> bool
    ensures { result ≡ spec.flag flags.now number }
{
    match flags.get(number) {
        Some(flag) => *flag,
        None => false,
    }
}

// Puts the flag of a number up, if it has one.
fn set(flags: &mut [bool], number: usize)
    ensures { (n : ℕ) → spec.flag flags.new n
        ≡ (spec.flag flags.old n || (nat_lt n (length flags.old) && nat_eq number n)) }
{
    if number < flags.len() {
        flags[number] = true;
    }
}

// The flags of the starts.
fn started(alloc: Global, width: usize, starts: &[usize]) -> Result<Vec<bool>, NoMemory>
    ensures flags { IfOk result (λ v. (n : ℕ) → spec.flag v.items n ≡ (nat_lt n width && list_any (nat_eq n) starts.now)) }
    ensures width { IfOk result (λ v. length v.items ≡ width) }
{
    let mut flags = vec![in alloc; false; width]?;
    for start in starts {
        set(&mut flags, *start);
    }
    Ok(flags)
}

// Puts up the flag to which a step leads from one that stands.
#[tactic(auto, using(crate::proofs::Flags::followed, crate::proofs::Flags::unfollowed))]
fn follow(next: &mut [bool], flags: &[bool], step: Step)
    ensures { (n : ℕ) → spec.flag next.new n
        ≡ (spec.flag next.old n || (nat_lt n (length next.old) && spec.leads (spec.flag flags.now) n step)) }
{
    if flag(flags, step.from) {
        set(next, step.to);
    }
}

// The flags after one step more.
fn farther(alloc: Global, flags: &[bool], steps: &[Step]) -> Result<Vec<bool>, NoMemory>
    ensures flags { IfOk result (λ v. (n : ℕ) → spec.flag v.items n ≡ (spec.flag flags.now n
        || (nat_lt n (length flags.now) && list_any (spec.leads (spec.flag flags.now) n) steps.now))) }
    ensures width { IfOk result (λ v. length v.items ≡ length flags.now) }
{
    let mut next = Vec::from_slice(alloc, flags)?;
    for step in steps {
        follow(&mut next, flags, *step);
    }
    Ok(next)
}

/// The flags of the numbers below a width that are reached from the starts along the steps.
pub fn reached(
    alloc: Global,
    width: usize,
    starts: &[usize],
    steps: &[Step],
) -> Result<Vec<bool>, NoMemory>
    ensures { IfOk result (λ v. (n : ℕ) → spec.flag v.items n ≡ spec.is_reached width starts.now steps.now width n) }
{
    let mut flags = started(alloc, width, starts)?;
    for _round in 0..width {
        flags = farther(alloc, &flags, steps)?;
    }
    Ok(flags)
}
