//! How many different elements there are, and which of them come too often.
ghost use Rattle.std.specs.Prelude.{◌≡◌, length, count_by, IfOk};
ghost use Rattle.std.specs.BTreeMap.{is_at};
ghost use Rattle.sg_counts.specs.Crowds.{different, crowd};

use sg_kinds::memory::NoMemory;
use std::alloc::Global;
use std::collections::{BTreeMap, BTreeSet};

/// How many different keys there are.
pub fn different<K: Ord + Copy + Drop>(alloc: Global, keys: &[K]) -> Result<usize, NoMemory>
    ensures { IfOk result (λ n. n ≡ length (different (λ a b. is_at (K.cmp a) b) keys.now)) }
{
    let mut seen = BTreeSet::new(alloc);
    for key in keys {
        seen.insert(*key)?;
    }
    Ok(seen.len())
}

/// How many keys equal this one.
fn amount<K: Ord + Copy + Drop>(keys: &[K], key: K) -> usize
    ensures { result ≡ count_by (λ a. is_at (K.cmp a) key) keys.now }
{
    keys.iter()
        .filter(|other| (**other).cmp(&key).is_eq())
        .count()
}

/// The whole count of the key that is the first with so many equal ones before it.
pub fn crowd<K: Ord + Copy + Drop>(
    alloc: Global,
    limit: usize,
    keys: &[K],
) -> Result<Option<usize>, NoMemory>
    ensures { IfOk result (λ n. n ≡ crowd (λ a b. is_at (K.cmp a) b) limit keys.now) }
{
    let mut counts = BTreeMap::new(alloc);
    for key in keys {
        let before = counts.get(key).copied().unwrap_or(0);
        if before >= limit {
            return Ok(Some(amount(keys, *key)));
        }
        counts.insert(*key, before + 1)?;
    }
    Ok(None)
}
