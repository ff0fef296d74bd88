// A sink in memory whose puts fail at given numbers.
ghost use Rattle.std.specs.Prelude.{◌≡◌, ◌≤◌, ◌++◌, [], Some, None, take, OnOk, IsErrOf, IsSomeAnd};
ghost use Rattle.sg_outside.specs.Count.{Rose, raised};
ghost use Rattle.sg_outside.specs.Sink.{CutShort};
ghost use Rattle.sg_outside.specs.MemSink.{cut_of};

use crate::{Sink, SinkError};
use std::alloc::Global;
use std::marker::Model;

/// A sink in memory, which tells its bytes and its puts. Its puts are numbered from 1, and from
/// 2^64 - 1 on the number stays. A put fails where its number is listed.
#[derive(Drop)]
pub struct MemSink {
    written: Vec<u8>,
    fails: Vec<(u64, usize)>,
    puts: u64,
    faults: u64,
}

impl Model for MemSink {
    ghost use Rattle.sg_outside.specs.MemSink.{NumberedSink};

    ghost Value = { NumberedSink };

    ghost view = { λ s. record { written = s.written.items; fails = s.fails.items; puts = s.puts; faults = s.faults } };
}

impl MemSink {
    /// An empty sink. By the pair (k, m) its put number k fails once the first m bytes of the piece
    /// are written, or all where it is shorter; of several pairs with one number the first counts.
    pub fn new(alloc: Global, fails: Vec<(u64, usize)>) -> Self
        ensures written { result.written ≡ [] }
        ensures fails { result.fails ≡ fails.items }
        ensures puts { result.puts ≡ 0 }
        ensures faults { result.faults ≡ 0 }
    {
        MemSink {
            written: Vec::new(alloc),
            fails,
            puts: 0,
            faults: 0,
        }
    }

    /// What was written.
    pub fn written(&self) -> &[u8]
        ensures { result.now ≡ self.now.written }
    {
        &self.written
    }
}

// After how many bytes the put of that number fails, if it does.
fn cut(fails: &[(u64, usize)], number: u64) -> Option<usize>
    ensures { result ≡ cut_of fails.now number }
{
    fails
        .iter()
        .find(|fail| fail.0 == number)
        .map(|fail| fail.1)
}

impl Sink for MemSink {
    ghost state = { λ sink. record { written = Some sink.written; faults = sink.faults; puts = Some sink.puts } };

    // Where the put fails and there is no memory for the bytes before, the answer is `NoMemory`.
    fn put(&mut self, piece: &[u8]) -> Result<(), SinkError>
        ensures ok { OnOk result (self.new.written ≡ self.old.written ++ piece.now) }
        ensures sure { OnOk result (cut_of self.old.fails self.new.puts ≡ None) }
        ensures cut { IsErrOf result SinkError.Failed → IsSomeAnd (cut_of self.old.fails self.new.puts)
            (λ m. self.new.written ≡ self.old.written ++ take m piece.now) }
        ensures failed { IsErrOf result SinkError.Failed
            → CutShort (Some self.old.written) (Some self.new.written) piece.now }
        ensures memory { IsErrOf result SinkError.NoMemory → self.new.written ≡ self.old.written }
        ensures fails { self.new.fails ≡ self.old.fails }
        ensures puts { self.new.puts ≡ raised self.old.puts }
        ensures risen { IsErrOf result SinkError.Failed → self.new.faults ≡ raised self.old.faults }
        ensures quiet { (IsErrOf result SinkError.Failed → ⊥) → self.new.faults ≡ self.old.faults }
        ensures later { self.old.faults ≤ self.new.faults }
        ensures cause { IsErrOf result SinkError.Failed → Rose self.old.faults self.new.faults }
    {
        self.puts = self.puts.saturating_add(1);
        match cut(&self.fails, self.puts) {
            None => Ok(self.written.extend_from_slice(piece)?),
            Some(most) => {
                let front = &piece[..most.min(piece.len())];
                self.written.extend_from_slice(front)?;
                self.faults = self.faults.saturating_add(1);
                Err(SinkError::Failed)
            }
        }
    }
}
