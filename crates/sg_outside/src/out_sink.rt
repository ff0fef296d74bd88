// The standard output as a sink.
ghost use Rattle.std.specs.Prelude.{◌≡◌, ◌≤◌, None, IsErrOf};
ghost use Rattle.sg_outside.specs.Count.{Rose, raised};

use crate::{Sink, SinkError};
use std::io::{self, Print, Write};
use std::marker::Model;

/// The standard output. It tells nothing of contents.
#[derive(Drop)]
pub struct OutSink<'a, R: Print> {
    rt: &'a R,
    faults: u64,
}

impl<'a, R: Print> Model for OutSink<'a, R> {
    ghost use Rattle.sg_outside.specs.Edge.{SystemEdge};

    ghost Value = { SystemEdge };

    ghost view = { λ s. record { faults = s.faults } };
}

impl<'a, R: Print> OutSink<'a, R> {
    /// The standard output of this runtime.
    pub fn new(rt: &'a R) -> Self
        ensures { result.faults ≡ 0 }
    {
        OutSink { rt, faults: 0 }
    }
}

impl<R: Print> Sink for OutSink<'_, R> {
    ghost state = { λ sink. record { written = None; faults = sink.faults; puts = None } };

    // A write of no byte is an error too.
    fn put(&mut self, piece: &[u8]) -> Result<(), SinkError>
        ensures risen { IsErrOf result SinkError.Failed → self.new.faults ≡ raised self.old.faults }
        ensures quiet { (IsErrOf result SinkError.Failed → ⊥) → self.new.faults ≡ self.old.faults }
        ensures later { self.old.faults ≤ self.new.faults }
        ensures cause { IsErrOf result SinkError.Failed → Rose self.old.faults self.new.faults }
    {
        match io::writer(self.rt).write_all(piece) {
            Ok(()) => Ok(()),
            Err(_) => {
                self.faults = self.faults.saturating_add(1);
                Err(SinkError::Failed)
            }
        }
    }
}
