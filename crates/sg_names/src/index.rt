//! Names and what they mean.
ghost use Rattle.std.specs.Prelude.{◌≡◌, bytes_eq, if◌then◌else◌, List, ℕ, Some, None, OnOk};
ghost use Rattle.sg_ast.specs.FirstFault.{or_else};
ghost use Rattle.sg_names.specs.Meaning.{meaning};

use indexmap::IndexMap;
use sg_kinds::memory::NoMemory;
use std::alloc::Global;

/// What names mean, each by its first entry.
#[derive(Drop)]
pub struct Index<V> {
    pub map: IndexMap<Vec<u8>, V>,
}

impl<V: Copy + Drop> Index<V> {
    /// No names.
    pub fn new(alloc: Global) -> Index<V>
        ensures { (n : List ℕ) → meaning result n ≡ None }
    {
        Index {
            map: IndexMap::new(alloc),
        }
    }

    /// What a name means.
    pub fn get(&self, name: &[u8]) -> Option<V>
        ensures { result ≡ meaning self.now name.now }
    {
        self.map.get(name).copied()
    }

    /// Gives a name its meaning, unless it has one.
    pub fn put(&mut self, alloc: Global, name: &[u8], value: V) -> Result<(), NoMemory>
        ensures { OnOk result ((n : List ℕ) → meaning self.new n
            ≡ or_else (meaning self.old n) (if bytes_eq n name.now then Some value else None)) }
    {
        if self.map.get(name).is_none() {
            self.map.insert(Vec::from_slice(alloc, name)?, value)?;
        }
        Ok(())
    }
}
