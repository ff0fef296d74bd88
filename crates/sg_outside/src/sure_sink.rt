// A sink in memory that never fails.
ghost use Rattle.std.specs.Prelude.{◌≡◌, ◌++◌, [], Some, OnOk, OnErr, IsErrOf};
ghost use Rattle.sg_outside.specs.Count.{raised};

use crate::{Sink, SinkError};
use std::alloc::Global;
use std::marker::Model;

/// A sink in memory that never fails, and tells its bytes and its puts.
#[derive(Drop)]
pub struct SureSink {
    written: Vec<u8>,
    puts: u64,
}

impl Model for SureSink {
    ghost use Rattle.sg_outside.specs.SureSink.{UnfailingSink};

    ghost Value = { UnfailingSink };

    ghost view = { λ s. record { written = s.written.items; puts = s.puts } };
}

impl SureSink {
    /// An empty sink.
    pub fn new(alloc: Global) -> Self
        ensures written { result.written ≡ [] }
        ensures puts { result.puts ≡ 0 }
    {
        SureSink {
            written: Vec::new(alloc),
            puts: 0,
        }
    }

    /// What was written.
    pub fn written(&self) -> &[u8]
        ensures { result.now ≡ self.now.written }
    {
        &self.written
    }
}

impl Sink for SureSink {
    ghost state = { λ sink. record { written = Some sink.written; faults = 0; puts = Some sink.puts } };

    fn put(&mut self, piece: &[u8]) -> Result<(), SinkError>
        ensures ok { OnOk result (self.new.written ≡ self.old.written ++ piece.now) }
        ensures err { OnErr result (self.new.written ≡ self.old.written) }
        ensures sure { IsErrOf result SinkError.Failed → ⊥ }
        ensures puts { self.new.puts ≡ raised self.old.puts }
    {
        self.puts = self.puts.saturating_add(1);
        self.written.extend_from_slice(piece)?;
        Ok(())
    }
}
