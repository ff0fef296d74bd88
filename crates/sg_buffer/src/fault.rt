//! Why a buffer refuses a term.
ghost use Rattle.std.specs.Prelude.{◌≡◌};
ghost use Rattle.sg_buffer.specs.declared.fault.BufferFault.TheVariants.{NoMemory as FaultNoMemory};

use sg_build::Counts;
use sg_kinds::memory::NoMemory;

/// Why a buffer's term is not made or changed.
#[derive(Clone, Copy, Debug, PartialEq, Eq)]
pub enum BufferFault {
    /// the whole term has more nodes than a buffer's term may have, or is deeper: its counts
    Size(Counts),
    NoMemory,
}

impl From<NoMemory> for BufferFault {
    ghost from_gives = { λ _ e. e ≡ FaultNoMemory };

    fn from(_: NoMemory) -> BufferFault {
        BufferFault::NoMemory
    }
}
