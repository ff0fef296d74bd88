//! Why a text is no script.
ghost use Rattle.std.specs.Prelude.{◌≡◌};
ghost use Rattle.sg_script.specs.declared.fault.ScriptFault.TheVariants.{NoMemory as ScriptNoMemory};

use sg_kinds::memory::NoMemory;
use std::alloc::AllocFailed;

/// Why a text is no script; of several reasons the first.
#[derive(Clone, Copy, Debug, PartialEq, Eq)]
pub enum ScriptFault {
    /// the text has over 1,048,576 bytes
    Long,
    /// the first line that is no command, counted from 1
    Line(usize),
    /// how many commands there are, where they are over 10,000
    Many(usize),
    NoMemory,
}

impl From<NoMemory> for ScriptFault {
    ghost from_gives = { λ _ e. e ≡ ScriptNoMemory };

    fn from(_: NoMemory) -> ScriptFault {
        ScriptFault::NoMemory
    }
}

impl<T: Drop> From<AllocFailed<T>> for ScriptFault {
    ghost from_gives = { λ _ e. e ≡ ScriptNoMemory };

    fn from(_: AllocFailed<T>) -> ScriptFault {
        ScriptFault::NoMemory
    }
}
