//! What a replacement still has to look at.
ghost use Rattle.std.specs.Prelude.{◌≡◌, ◌↔◌, ◌⊎◌, ℕ, [], Contains, IsTrue, OnOk, OnErr};

use indexmap::IndexSet;
use sg_forest::NodeId;
use sg_kinds::memory::NoMemory;
use std::alloc::Global;
use std::marker::Model;

// for how many active nodes there is room from the start: a set that grows puts all of its members anew each time
const ROOM: usize = 1024;

/// The slots of nodes whose values have become others, and the nodes that are active: those below which some may
/// become so. Contracts see two lists whose order says nothing.
#[derive(Drop)]
pub struct Work {
    changed: IndexSet<(usize, u32)>,
    active: IndexSet<usize>,
}

impl Model for Work {
    ghost use Rattle.sg_propagate.specs.Worklist.{Worklist};

    ghost Value = { Worklist };

    ghost view = { λ w. record { changed = w.changed.keys; active = w.active.keys } };
}

impl Work {
    /// Nothing changed, and no node active. There is room for as many active nodes as a long way up has, where there is memory
    /// for it.
    pub fn new(alloc: Global) -> Work
        ensures { result ≡ record { changed = []; active = [] } }
    {
        Work {
            changed: IndexSet::new(alloc),
            active: match IndexSet::with_capacity(alloc, ROOM) {
                Ok(active) => active,
                Err(_) => IndexSet::new(alloc),
            },
        }
    }

    /// Notes that a slot of a node has another value. Without memory nothing changes.
    pub fn note(&mut self, node: NodeId, slot: u32) -> Result<(), NoMemory>
        ensures changed { OnOk result ((x : ℕ × ℕ) →
            Contains self.new.changed x ↔ (Contains self.old.changed x ⊎ (x ≡ (node.key, slot)))) }
        ensures active { self.new.active ≡ self.old.active }
        ensures err { OnErr result (self.new ≡ self.old) }
    {
        self.changed.insert((node.key, slot))?;
        Ok(())
    }

    /// Whether a slot of a node has another value. Where nothing is noted yet no look-up is made.
    pub fn is_noted(&self, node: NodeId, slot: u32) -> bool
        ensures { IsTrue result ↔ Contains self.now.changed (node.key, slot) }
    {
        !self.changed.is_empty() && self.changed.contains(&(node.key, slot))
    }

    /// Makes a node active. Without memory nothing changes.
    pub fn activate(&mut self, node: NodeId) -> Result<(), NoMemory>
        ensures active { OnOk result ((n : ℕ) →
            Contains self.new.active n ↔ (Contains self.old.active n ⊎ (n ≡ node.key))) }
        ensures changed { self.new.changed ≡ self.old.changed }
        ensures err { OnErr result (self.new ≡ self.old) }
    {
        self.active.insert(node.key)?;
        Ok(())
    }

    /// Whether a node is active.
    pub fn is_active(&self, node: NodeId) -> bool
        ensures { IsTrue result ↔ Contains self.now.active node.key }
    {
        self.active.contains(&node.key)
    }
}
