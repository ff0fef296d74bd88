// A shelf in memory that never fails.
ghost use Rattle.std.specs.Prelude.{◌≡◌, ◌≤◌, Some, vec_len, IfOk, OnOk, OnErr, IsErrOf};
ghost use Rattle.std.specs.FinMap.{insert};
ghost use Rattle.sg_outside.specs.Count.{more_answered, one_unanswered};
ghost use Rattle.sg_outside.specs.Shelf.{files_from, front_or_empty};
ghost use Rattle.sg_outside.specs.Shelf.KnownFiles.{OrEmpty};

use crate::file_log::{FileLog, front};
use crate::{NoMemory, Shelf, ShelfError};
use std::alloc::Global;
use std::marker::Model;

/// A shelf in memory that never fails, and tells its files and its calls. A name that is not there
/// reads as the empty file.
#[derive(Drop)]
pub struct SureShelf {
    log: FileLog,
    answered: u64,
    unanswered: u64,
}

impl Model for SureShelf {
    ghost use Rattle.sg_outside.specs.SureShelf.{UnfailingShelf, unfailing_shelf_code};

    ghost Value = { UnfailingShelf };

    ghost coded = { unfailing_shelf_code };

    ghost view = { λ s. record { files = s.log; calls = record { answered = s.answered; unanswered = s.unanswered } } };
}

impl SureShelf {
    /// A shelf of these files, of which the last of a name counts.
    pub fn new(alloc: Global, files: Vec<(String, Vec<u8>)>) -> Result<Self, NoMemory>
        ensures files { IfOk result (λ shelf. shelf.files ≡ files_from files.items) }
        ensures answered { IfOk result (λ shelf. shelf.calls.answered ≡ 0) }
        ensures unanswered { IfOk result (λ shelf. shelf.calls.unanswered ≡ 0) }
    {
        Ok(SureShelf {
            log: FileLog::new(alloc, files)?,
            answered: 0,
            unanswered: 0,
        })
    }

    fn answer(&mut self)
        ensures files { self.new.files ≡ self.old.files }
        ensures calls { self.new.calls ≡ more_answered 1 self.old.calls }
    {
        self.answered = self.answered.saturating_add(1);
    }

    // Counts a call for which there was no memory.
    fn miss(&mut self) -> ShelfError
        ensures memory { result ≡ ShelfError.NoMemory }
        ensures files { self.new.files ≡ self.old.files }
        ensures calls { self.new.calls ≡ one_unanswered self.old.calls }
    {
        self.unanswered = self.unanswered.saturating_add(1);
        ShelfError::NoMemory
    }
}

impl Shelf for SureShelf {
    ghost state = { λ shelf. record { files = OrEmpty shelf.files; faults = 0; calls = Some shelf.calls } };

    fn fetch(&mut self, alloc: Global, name: &str, most: usize) -> Result<Vec<u8>, ShelfError>
        ensures bound { IfOk result (λ bytes. vec_len bytes ≤ most) }
        ensures content { IfOk result (λ bytes. bytes.items ≡ front_or_empty self.old.files name.now most) }
        ensures sure { IsErrOf result ShelfError.Failed → ⊥ }
        ensures same { self.new.files ≡ self.old.files }
        ensures answered { (IsErrOf result ShelfError.NoMemory → ⊥) → self.new.calls ≡ more_answered 1 self.old.calls }
        ensures unanswered { IsErrOf result ShelfError.NoMemory → self.new.calls ≡ one_unanswered self.old.calls }
    {
        let Ok(bytes) = front(alloc, self.log.get(name).unwrap_or(&[]), most) else {
            return Err(self.miss());
        };
        self.answer();
        Ok(bytes)
    }

    fn keep(&mut self, name: &str, bytes: &[u8]) -> Result<(), ShelfError>
        ensures ok { OnOk result (self.new.files ≡ insert self.old.files name.now bytes.now) }
        ensures err { OnErr result (self.new.files ≡ self.old.files) }
        ensures sure { IsErrOf result ShelfError.Failed → ⊥ }
        ensures answered { (IsErrOf result ShelfError.NoMemory → ⊥) → self.new.calls ≡ more_answered 1 self.old.calls }
        ensures unanswered { IsErrOf result ShelfError.NoMemory → self.new.calls ≡ one_unanswered self.old.calls }
    {
        if self.log.insert(name, bytes).is_err() {
            return Err(self.miss());
        }
        self.answer();
        Ok(())
    }
}
