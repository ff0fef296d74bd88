//! Trails.
ghost use Rattle.std.specs.Prelude.{◌≡◌, ℕ, [], ◌∷◌, ◌++◌, IfOk, OnOk, OnErr};
ghost use Rattle.sg_pool.specs.Pools.{IsGrown};
ghost use Rattle.sg_forest.specs.Trees.{IsLive};
ghost use Rattle.sg_groves.specs.Grove.{Grove, nodes};
ghost use Rattle.sg_groves.specs.Stored.{number_at};
ghost use Rattle.sg_groves.specs.Unchanged.{OnlyStored};
ghost use Rattle.sg_trail.specs.Trails.{was_in, AreCovered, AreStorable, TellsNumbers, IsAnySlot, LeadsBack};

use crate::entry::WasStored;
use crate::saved::save_tree;
use sg_forest::NodeId;
use sg_kinds::memory::NoMemory;
use sg_terms::Terms;
use std::alloc::Global;
use std::marker::Model;

/// The way back from an exchange of two trees: the two nodes, and the numbers that slots had before others were
/// stored there, the oldest first. Contracts see its fields.
#[derive(Drop)]
pub struct Trail {
    at: NodeId,
    detached: NodeId,
    entries: Vec<WasStored>,
}

impl Model for Trail {
    ghost use Rattle.sg_trail.specs.Trails.{Way};

    ghost Value = { Way };

    ghost view = { λ t. record { at = t.at; detached = t.detached; entries = t.entries.items } };
}

impl Trail {
    /// A trail for an exchange of the tree under `at` and that of `detached`, with the numbers of the latter's nodes,
    /// so that what is stored in it later needs no entry.
    pub fn save(
        alloc: Global,
        terms: &Terms,
        at: NodeId,
        detached: NodeId,
    ) -> Result<Trail, NoMemory>
        requires { IsLive (nodes terms.now) detached }
        ensures at { IfOk result (λ t. t.at ≡ at) }
        ensures detached { IfOk result (λ t. t.detached ≡ detached) }
        ensures storable { IfOk result (λ t. AreStorable terms.now t.entries) }
        ensures numbers { IfOk result (λ t. TellsNumbers terms.now terms.now t.entries) }
        ensures covered { IfOk result (λ t. AreCovered terms.now detached t.entries) }
    {
        let mut entries = Vec::new(alloc);
        save_tree(terms, detached, &mut entries)?;
        Ok(Trail {
            at,
            detached,
            entries,
        })
    }

    /// Keeps the number that a slot has, before another is stored there. Without memory nothing changes.
    pub fn push(&mut self, entry: WasStored) -> Result<(), NoMemory>
        ensures pushed { OnOk result (self.new.entries ≡ self.old.entries ++ entry ∷ []) }
        ensures at { self.new.at ≡ self.old.at }
        ensures detached { self.new.detached ≡ self.old.detached }
        ensures err { OnErr result (self.new ≡ self.old) }
    {
        self.entries.push(entry)?;
        Ok(())
    }

    /// Stores the numbers of then and exchanges the two trees again: each node is as it was before. It takes no
    /// memory; only the pool keeps what was added.
    pub fn back(self, terms: &mut Terms)
        requires { (before : Grove) × LeadsBack before terms.old self }
        ensures nodes { (before : Grove) → LeadsBack before terms.old self
            → (n : _) → nodes terms.new n ≡ nodes before n }
        ensures spec { terms.new.spec ≡ terms.old.spec }
        ensures view { terms.new.view ≡ terms.old.view }
        ensures pool { terms.new.pool ≡ terms.old.pool }
        ensures grown { (before : Grove) → LeadsBack before terms.old self → IsGrown before.pool terms.new.pool }
    {
        store_back(self.entries, terms);
        terms.swap(self.detached, self.at);
    }
}

// the numbers of the entries, the newest first
fn store_back(entries: Vec<WasStored>, terms: &mut Terms)
    requires { AreStorable terms.old entries.items }
    ensures stored { OnlyStored terms.old terms.new IsAnySlot }
    ensures pool { terms.new.pool ≡ terms.old.pool }
    ensures numbers { (n : _) (slot : ℕ)
        → number_at terms.new n slot ≡ was_in entries.items n slot (number_at terms.old n slot) }
{
    let mut rest = entries;
    while let Some(entry) = rest.pop() {
        let _ = terms.store(entry.node, entry.slot, entry.number);
    }
}
