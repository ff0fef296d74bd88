//! First faults.
ghost use Rattle.std.specs.Prelude.{◌≡◌, IfOk, Option};
ghost use Rattle.std.specs.BTreeMap.{is_at};
ghost use Rattle.sg_ast.specs.FirstFault.{first, first_repeat, over};

use sg_kinds::memory::NoMemory;
use std::alloc::Global;
use std::collections::BTreeSet;

/// The place of the first key that has an equal one before it.
pub fn first_repeat<K: Ord + Copy + Drop>(
    alloc: Global,
    keys: &[K],
) -> Result<Option<usize>, NoMemory>
    ensures { IfOk result (λ place. place ≡ first_repeat (λ a b. is_at (K.cmp a) b) keys.now) }
{
    let mut seen = BTreeSet::new(alloc);
    for (place, key) in keys.iter().enumerate() {
        if !seen.insert(*key)? {
            return Ok(Some(place));
        }
    }
    Ok(None)
}

/// The count, where it is over its limit.
pub fn over(limit: usize, count: usize) -> Option<usize>
    ensures { result ≡ over limit count }
{
    if limit < count { Some(count) } else { None }
}

/// A rule: the fault of each spot, if it has one.
pub trait Rule<X, A> {
    /// The fault of a spot.
    ghost fault_of: { Self → X → Option A };

    fn fault(&self, alloc: Global, spot: &X) -> Result<Option<A>, NoMemory>
        ensures { IfOk result (λ fault. fault ≡ fault_of self.now spot.now) };
}

/// The fault of the first spot that has one.
pub fn first_found<X, A: Drop, R: Rule<X, A>>(
    alloc: Global,
    rule: &R,
    spots: &[X],
) -> Result<Option<A>, NoMemory>
    ensures { IfOk result (λ fault. fault ≡ first (R.fault_of rule.now) spots.now) }
{
    for spot in spots {
        if let Some(fault) = rule.fault(alloc, spot)? {
            return Ok(Some(fault));
        }
    }
    Ok(None)
}
