// A shelf in memory whose calls fail at given numbers.
ghost use Rattle.std.specs.Prelude.{◌≡◌, ◌≤◌, ◌↔◌, Some, vec_len, IfOk, OnOk, OnErr, IsErrOf, IsTrue};
ghost use Rattle.std.specs.FinMap.{insert};
ghost use Rattle.sg_outside.specs.Count.{Rose, raised, more_answered, one_unanswered};
ghost use Rattle.sg_outside.specs.Shelf.{Fetches, files_from};
ghost use Rattle.sg_outside.specs.Shelf.KnownFiles.{Exactly};
ghost use Rattle.sg_outside.specs.MemShelf.{IsDue, FailsFetch};

use crate::file_log::{FileLog, front};
use crate::{NoMemory, Shelf, ShelfError};
use std::alloc::Global;
use std::marker::Model;

/// A shelf in memory, which tells its files and its calls. All its calls are numbered from 1, and
/// from 2^64 - 1 on the number stays. A call fails where its number is listed, and a fetch where
/// the name is not there.
#[derive(Drop)]
pub struct MemShelf {
    log: FileLog,
    fails: Vec<u64>,
    answered: u64,
    unanswered: u64,
    faults: u64,
}

impl Model for MemShelf {
    ghost use Rattle.sg_outside.specs.MemShelf.{NumberedShelf, numbered_shelf_code};

    ghost Value = { NumberedShelf };

    ghost coded = { numbered_shelf_code };

    ghost view = { λ s. record {
      files = s.log;
      fails = s.fails.items;
      calls = record { answered = s.answered; unanswered = s.unanswered };
      faults = s.faults;
    } };
}

impl MemShelf {
    /// A shelf of these files, of which the last of a name counts, whose calls of these numbers
    /// fail.
    pub fn new(
        alloc: Global,
        files: Vec<(String, Vec<u8>)>,
        fails: Vec<u64>,
    ) -> Result<Self, NoMemory>
        ensures files { IfOk result (λ shelf. shelf.files ≡ files_from files.items) }
        ensures fails { IfOk result (λ shelf. shelf.fails ≡ fails.items) }
        ensures answered { IfOk result (λ shelf. shelf.calls.answered ≡ 0) }
        ensures unanswered { IfOk result (λ shelf. shelf.calls.unanswered ≡ 0) }
        ensures faults { IfOk result (λ shelf. shelf.faults ≡ 0) }
    {
        Ok(MemShelf {
            log: FileLog::new(alloc, files)?,
            fails,
            answered: 0,
            unanswered: 0,
            faults: 0,
        })
    }

    // Whether the next call is to fail.
    fn is_due(&self) -> bool
        ensures { IsTrue result ↔ IsDue self.now }
    {
        let made = self.answered.saturating_add(self.unanswered);
        self.fails.contains(&made.saturating_add(1))
    }

    fn answer(&mut self)
        ensures { self.new ≡ record self.old { calls = more_answered 1 self.old.calls } }
    {
        self.answered = self.answered.saturating_add(1);
    }

    // Counts a call that failed, which is an answer.
    fn fail(&mut self) -> ShelfError
        ensures failed { result ≡ ShelfError.Failed }
        ensures counted { self.new ≡ record self.old {
          calls = more_answered 1 self.old.calls;
          faults = raised self.old.faults;
        } }
        ensures later { self.old.faults ≤ self.new.faults }
    {
        self.answer();
        self.faults = self.faults.saturating_add(1);
        ShelfError::Failed
    }

    // Counts a call for which there was no memory.
    fn miss(&mut self) -> ShelfError
        ensures memory { result ≡ ShelfError.NoMemory }
        ensures counted { self.new ≡ record self.old { calls = one_unanswered self.old.calls } }
    {
        self.unanswered = self.unanswered.saturating_add(1);
        ShelfError::NoMemory
    }
}

impl Shelf for MemShelf {
    ghost state = { λ shelf. record { files = Exactly shelf.files; faults = shelf.faults; calls = Some shelf.calls } };

    fn fetch(&mut self, alloc: Global, name: &str, most: usize) -> Result<Vec<u8>, ShelfError>
        ensures bound { IfOk result (λ bytes. vec_len bytes ≤ most) }
        ensures content { IfOk result (λ bytes. Fetches (Exactly self.old.files) name.now most bytes.items) }
        ensures failed { IsErrOf result ShelfError.Failed ↔ FailsFetch self.old name.now }
        ensures same { self.new.files ≡ self.old.files }
        ensures fails { self.new.fails ≡ self.old.fails }
        ensures answered { (IsErrOf result ShelfError.NoMemory → ⊥) → self.new.calls ≡ more_answered 1 self.old.calls }
        ensures unanswered { IsErrOf result ShelfError.NoMemory → self.new.calls ≡ one_unanswered self.old.calls }
        ensures risen { IsErrOf result ShelfError.Failed → self.new.faults ≡ raised self.old.faults }
        ensures quiet { (IsErrOf result ShelfError.Failed → ⊥) → self.new.faults ≡ self.old.faults }
        ensures later { self.old.faults ≤ self.new.faults }
        ensures cause { IsErrOf result ShelfError.Failed → Rose self.old.faults self.new.faults }
    {
        if self.is_due() {
            return Err(self.fail());
        }
        let Some(bytes) = self.log.get(name) else {
            return Err(self.fail());
        };
        let Ok(bytes) = front(alloc, bytes, most) else {
            return Err(self.miss());
        };
        self.answer();
        Ok(bytes)
    }

    fn keep(&mut self, name: &str, bytes: &[u8]) -> Result<(), ShelfError>
        ensures ok { OnOk result (self.new.files ≡ insert self.old.files name.now bytes.now) }
        ensures err { OnErr result (self.new.files ≡ self.old.files) }
        ensures failed { IsErrOf result ShelfError.Failed ↔ IsDue self.old }
        ensures fails { self.new.fails ≡ self.old.fails }
        ensures answered { (IsErrOf result ShelfError.NoMemory → ⊥) → self.new.calls ≡ more_answered 1 self.old.calls }
        ensures unanswered { IsErrOf result ShelfError.NoMemory → self.new.calls ≡ one_unanswered self.old.calls }
        ensures risen { IsErrOf result ShelfError.Failed → self.new.faults ≡ raised self.old.faults }
        ensures quiet { (IsErrOf result ShelfError.Failed → ⊥) → self.new.faults ≡ self.old.faults }
        ensures later { self.old.faults ≤ self.new.faults }
        ensures cause { IsErrOf result ShelfError.Failed → Rose self.old.faults self.new.faults }
    {
        if self.is_due() {
            return Err(self.fail());
        }
        if self.log.insert(name, bytes).is_err() {
            return Err(self.miss());
        }
        self.answer();
        Ok(())
    }
}
