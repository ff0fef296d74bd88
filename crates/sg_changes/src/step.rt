// The steps of a history.
ghost use Rattle.std.specs.Prelude.{◌≡◌, option_to_list};
ghost use Rattle.sg_changes.specs.StepChanges.{hanging, hung};

use crate::spot::Spot;
use sg_forest::NodeId;
use sg_kinds::row::Path;

/// How a node is shown: its scheme number and whether it is elided.
#[derive(Clone, Copy)]
pub struct Marks {
    /// below 16
    pub scheme: u32,
    pub elided: bool,
}

/// A step of a history, with what is selected and shown before and after it.
#[derive(Drop)]
pub enum Step {
    /// another subterm at a path; `hangs` is the top of the one that is not in the term: the old one in the past, the
    /// new one in the future
    Replaced {
        path: Path,
        hangs: NodeId,
        before: Spot,
        after: Spot,
    },
    /// other marks of the node at a path
    Marked {
        path: Path,
        old: Marks,
        new: Marks,
        before: Spot,
        after: Spot,
    },
}

impl Step {
    /// The step of a replaced subterm. It takes no memory.
    pub fn replaced(path: Path, hangs: NodeId, before: Spot, after: Spot) -> Step
        ensures { result ≡ Step.Replaced path hangs before after }
    {
        Step::Replaced {
            path,
            hangs,
            before,
            after,
        }
    }

    /// The step of changed marks. It takes no memory.
    pub fn marked(path: Path, old: Marks, new: Marks, before: Spot, after: Spot) -> Step
        ensures { result ≡ Step.Marked path old new before after }
    {
        Step::Marked {
            path,
            old,
            new,
            before,
            after,
        }
    }

    /// The top of the subtree that is not in the term, of a replaced subterm.
    pub fn hanging(&self) -> Option<NodeId>
        ensures { option_to_list result ≡ hanging self.now }
    {
        match self {
            Step::Replaced { hangs, .. } => Some(*hangs),
            Step::Marked { .. } => None,
        }
    }

    /// The step with another top hanging, where it is of a replaced subterm. It takes no memory.
    pub fn hung(self, top: NodeId) -> Step
        ensures { result ≡ hung self top }
    {
        match self {
            Step::Replaced {
                path,
                before,
                after,
                ..
            } => Step::Replaced {
                path,
                hangs: top,
                before,
                after,
            },
            marked => marked,
        }
    }
}
