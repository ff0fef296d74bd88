//! The parts that are used, with an ordered set of them.
ghost use Rattle.std.specs.Prelude.{◌≡◌, IfOk};
ghost use Rattle.std.specs.BTreeMap.{is_at};
ghost use Rattle.std.specs.BTreeSet.{contains};
ghost use Rattle.std.specs.List.{list_any};
ghost use Rattle.sg_useless.specs.Keys.{AreKeys};
ghost use Rattle.sg_useless.specs.Parts.{is_among};
ghost use Rattle.sg_useless.specs.Useless.{unused_parts};

use crate::part::Part;
use sg_kinds::memory::NoMemory;
use std::alloc::Global;
use std::collections::BTreeSet;

// The set of these keys.
fn set_of<K: Ord + Copy + Drop>(alloc: Global, keys: &[K]) -> Result<BTreeSet<K>, NoMemory>
    ensures { IfOk result (λ s. (q : K) → contains K.cmp s q ≡ list_any (λ k. is_at (K.cmp k) q) keys.now) }
{
    let mut set = BTreeSet::new(alloc);
    for key in keys {
        set.insert(*key)?;
    }
    Ok(set)
}

// The set of these parts.
fn keys(alloc: Global, parts: &[Part]) -> Result<BTreeSet<Part>, NoMemory>
    ensures { IfOk result (AreKeys parts.now) }
{
    let set = set_of(alloc, parts)?;
    Ok(set)
}

/// The parts that are used, with an ordered set of them: an author may write many.
#[derive(Drop)]
pub struct Used<'a> {
    parts: &'a [Part],
    keys: BTreeSet<Part>,
    ghost known: { AreKeys parts.now keys },
}

impl<'a> Used<'a> {
    /// These parts.
    pub fn new(alloc: Global, parts: &'a [Part]) -> Result<Used<'a>, NoMemory>
        ensures { IfOk result (λ u. u.parts.now ≡ parts.now) }
    {
        let keys = keys(alloc, parts)?;
        Ok(Used { parts, keys })
    }

    /// Whether a part is among them.
    pub fn has(&self, part: Part) -> bool
        ensures { result ≡ is_among self.now.parts.now part }
    {
        self.keys.contains(&part)
    }
}

/// Those of these parts that are not used.
pub fn unused(alloc: Global, used: &Used<'_>, parts: &[Part]) -> Result<Vec<Part>, NoMemory>
    ensures { IfOk result (λ v. v.items ≡ unused_parts used.now.parts.now parts.now) }
{
    let mut unused = Vec::new(alloc);
    for part in parts {
        if !used.has(*part) {
            unused.push(*part)?;
        }
    }
    Ok(unused)
}
