// What stands for values while an expression is evaluated.
ghost use Rattle.std.specs.Prelude.{◌≡◌};
ghost use Rattle.sg_eval.specs.Truths.{live_truth, truth_of};
ghost use Rattle.sg_eval.specs.declared.live.Stop.TheVariants.{NoMemory as StopNoMemory};

use sg_kinds::marks::FaultKind;
use sg_kinds::memory::NoMemory;
use std::alloc::{AllocError, AllocFailed};

/// A truth value or a number as it is; any value by its number in the pool. The truth values are kinds of their own: a kind and
/// a word stand in two registers.
#[derive(Clone, Copy)]
pub enum Live {
    False,
    True,
    Number(i64),
    Kept(usize),
}

impl Live {
    /// A truth value.
    pub fn truth(b: bool) -> Live
        ensures { result ≡ live_truth b }
    {
        if b { Live::True } else { Live::False }
    }

    /// The truth value that it is, none where it is another value.
    pub fn to_truth(self) -> Option<bool>
        ensures { result ≡ truth_of self }
    {
        match self {
            Live::False => Some(false),
            Live::True => Some(true),
            _ => None,
        }
    }
}

/// Why an evaluation ends before its value: the fault that is its outcome, or want of memory.
#[derive(Clone, Copy)]
pub enum Stop {
    Fault(FaultKind),
    NoMemory,
}

impl From<AllocError> for Stop {
    ghost from_gives = { λ _ e. e ≡ StopNoMemory };

    fn from(_: AllocError) -> Stop {
        Stop::NoMemory
    }
}

impl<T: Drop> From<AllocFailed<T>> for Stop {
    ghost from_gives = { λ _ e. e ≡ StopNoMemory };

    fn from(_: AllocFailed<T>) -> Stop {
        Stop::NoMemory
    }
}
