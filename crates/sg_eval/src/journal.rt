// The journal of evaluations.
ghost use Rattle.std.specs.Prelude.{◌≡◌, ℕ, ◌+◌, ◌<◌, ◌^◌, [], ◌∷◌, ◌++◌, OnOk, OnErr};
ghost use Rattle.sg_eval.specs.Journal.{now_of, total_of, counted};

use sg_forest::NodeId;
use sg_kinds::ids::RuleId;
use sg_kinds::memory::NoMemory;
use std::marker::Model;

/// An evaluation: the rule that was evaluated, for a slot of a node. The node may be any number.
#[derive(Clone, Copy, PartialEq, Eq)]
pub struct Instance {
    pub node: NodeId,
    pub slot: u32,
    pub rule: RuleId,
}

/// What was evaluated since the last `begin`, in order, and how many evaluations there were before. Only the runtime
/// gives a new one, and only an evaluator writes in it.
#[derive(Drop)]
pub struct Journal {
    entries: Vec<Instance>,
    total: u64,
}

impl Model for Journal {
    ghost use Rattle.std.specs.Prelude.{ℕ, List};
    ghost use Rattle.sg_eval.specs.declared.journal.Instance.{Instance};

    ghost Value = { List Instance × ℕ };

    ghost view = { λ j. (j.entries.items, j.total) };
}

impl Journal {
    /// A journal without entries. Only who has the runtime itself can make one: an allocator is not enough.
    pub fn new(rt: &HostRuntime) -> Journal
        ensures now { now_of result ≡ [] }
        ensures total { total_of result ≡ 0 }
    {
        Journal {
            entries: Vec::new(rt.alloc()),
            total: 0,
        }
    }

    /// Counts the entries into the total, and empties the list.
    pub fn begin(&mut self)
        requires { counted self.old < 2 ^ 62 }
        ensures now { now_of self.new ≡ [] }
        ensures total { total_of self.new ≡ counted self.old }
    {
        self.total += self.entries.len() as u64;
        self.entries.clear();
    }

    /// The entries since the last `begin`, in the order in which they were made.
    pub fn now(&self) -> &[Instance]
        ensures { result.now ≡ now_of self.now }
    {
        self.entries.as_slice()
    }

    /// How many entries there were before the last `begin`.
    pub fn total(&self) -> u64
        ensures { result ≡ total_of self.now }
    {
        self.total
    }

    // one entry more
    pub(crate) fn note(&mut self, who: Instance) -> Result<(), NoMemory>
        ensures ok { OnOk result (now_of self.new ≡ now_of self.old ++ who ∷ []) }
        ensures err { OnErr result (now_of self.new ≡ now_of self.old) }
        ensures total { total_of self.new ≡ total_of self.old }
    {
        self.entries.push(who)?;
        Ok(())
    }
}
