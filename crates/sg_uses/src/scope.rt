//! The variables that are visible.
ghost use Rattle.std.specs.Prelude.{◌≡◌, [], length, take, OnOk};
ghost use Rattle.sg_names.specs.Uses.{is_visible, with_variable};

use sg_kinds::memory::NoMemory;
use std::alloc::Global;
use std::collections::BTreeSet;
use std::marker::Model;

/// The names that are visible, in the order in which they were bound, beside an ordered set of them: an author may
/// write many. Contracts see their list.
#[derive(Drop)]
pub(crate) struct Scope {
    names: Vec<Vec<u8>>,
    seen: BTreeSet<Vec<u8>>,
}

impl Model for Scope {
    ghost use Rattle.std.specs.Prelude.{List, ℕ, map};
    ghost use Rattle.sg_uses.specs.Seen.{IsSeen};

    ghost Value = { List (List ℕ) };

    ghost view = { λ s. map (λ v. v.items) s.names.items };

    ghost invariant = { λ s. IsSeen (map (λ v. v.items) s.names.items) s.seen };
}

impl Scope {
    /// Nothing is visible.
    pub fn new(alloc: Global) -> Scope
        ensures { result ≡ [] }
    {
        Scope {
            names: Vec::new(alloc),
            seen: BTreeSet::new(alloc),
        }
    }

    /// How many names are visible.
    pub fn len(&self) -> usize
        ensures { result ≡ length self.now }
    {
        self.names.len()
    }

    /// Whether a name is visible.
    pub fn has(&self, name: &[u8]) -> bool
        ensures { result ≡ is_visible self.now name.now }
    {
        self.seen.contains(name)
    }

    /// Makes a name visible.
    pub fn bind(&mut self, alloc: Global, name: &[u8]) -> Result<(), NoMemory>
        ensures { OnOk result (self.new ≡ with_variable self.old name.now) }
    {
        if self.seen.contains(name) {
            return Ok(());
        }
        let key = Vec::from_slice(alloc, name)?;
        self.names.push(Vec::from_slice(alloc, name)?)?;
        match self.seen.insert(key) {
            Ok(_) => Ok(()),
            Err(_) => {
                self.names.pop();
                Err(NoMemory)
            }
        }
    }

    /// Leaves the first names alone.
    pub fn leave(&mut self, count: usize)
        ensures { self.new ≡ take count self.old }
    {
        while self.names.len() > count {
            if let Some(name) = self.names.pop() {
                self.seen.remove(name.as_slice());
            }
        }
    }
}
