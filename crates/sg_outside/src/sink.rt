// A sink of bytes.
ghost use Rattle.std.specs.Prelude.{◌≡◌, ◌≤◌, OnOk, IsErrOf};
ghost use Rattle.sg_outside.specs.declared.sink.SinkError.TheVariants.{NoMemory as OutOfMemory};
ghost use Rattle.sg_outside.specs.Count.{Rose, tallied};
ghost use Rattle.sg_outside.specs.Sink.{SinkState, CutShort, appended};

use std::alloc::AllocError;

/// Why a sink did not take the whole piece.
#[derive(Clone, Copy, Debug, PartialEq, Eq)]
pub enum SinkError {
    /// The sink failed, and counted it.
    Failed,
    /// There was not enough memory.
    NoMemory,
}

impl From<AllocError> for SinkError {
    ghost from_gives = { λ _ e. e ≡ OutOfMemory };

    fn from(_: AllocError) -> Self {
        SinkError::NoMemory
    }
}

/// A place where bytes are written in order, and whose puts may fail.
pub trait Sink {
    /// What is known of the sink: its bytes and how many puts there were, where it tells them, and
    /// how often a put failed. Each count stays at 2^64 - 1.
    ghost state: { Self → SinkState };

    /// Writes the whole piece, or at `Failed` a front of it, and at `NoMemory` nothing.
    fn put(&mut self, piece: &[u8]) -> Result<(), SinkError>
        ensures ok { OnOk result ((state self.new).written ≡ appended (state self.old).written piece.now) }
        ensures failed { IsErrOf result SinkError.Failed
            → CutShort (state self.old).written (state self.new).written piece.now }
        ensures memory { IsErrOf result SinkError.NoMemory → (state self.new).written ≡ (state self.old).written }
        ensures later { (state self.old).faults ≤ (state self.new).faults }
        ensures cause { IsErrOf result SinkError.Failed → Rose (state self.old).faults (state self.new).faults }
        ensures counted { (state self.new).puts ≡ tallied 1 (state self.old).puts };
}
