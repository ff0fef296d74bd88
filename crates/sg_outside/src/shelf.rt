// A shelf of files.
ghost use Rattle.std.specs.Prelude.{◌≡◌, ◌≤◌, vec_len, IfOk, OnOk, OnErr, IsErrOf};
ghost use Rattle.sg_outside.specs.declared.shelf.ShelfError.TheVariants.{NoMemory as OutOfMemory};
ghost use Rattle.sg_outside.specs.Count.{Rose, answered_by, unanswered_once};
ghost use Rattle.sg_outside.specs.Shelf.{ShelfState, Fetches, kept};

use std::alloc::{AllocError, AllocFailed, Global};

/// There was not enough memory.
pub use std::alloc::AllocError as NoMemory;

/// Why a shelf did not do what was asked.
#[derive(Clone, Copy, Debug, PartialEq, Eq)]
pub enum ShelfError {
    /// The shelf failed, and counted it.
    Failed,
    /// There was not enough memory.
    NoMemory,
}

impl From<AllocError> for ShelfError {
    ghost from_gives = { λ _ e. e ≡ OutOfMemory };

    fn from(_: AllocError) -> Self {
        ShelfError::NoMemory
    }
}

impl<T: Drop> From<AllocFailed<T>> for ShelfError {
    ghost from_gives = { λ _ e. e ≡ OutOfMemory };

    fn from(_: AllocFailed<T>) -> Self {
        ShelfError::NoMemory
    }
}

/// A place where files are found by name and kept, and whose calls may fail.
pub trait Shelf {
    /// What is known of the shelf: its files by name and its calls, where it tells them, and how
    /// often a call failed. Each count stays at 2^64 - 1.
    ghost state: { Self → ShelfState };

    /// The first `most` bytes of the file of that name, or the whole file where it is shorter.
    /// For a name that is not there it never answers so where the shelf tells exactly its files, and
    /// by the empty file where it says that other names are empty.
    fn fetch(&mut self, alloc: Global, name: &str, most: usize) -> Result<Vec<u8>, ShelfError>
        ensures bound { IfOk result (λ bytes. vec_len bytes ≤ most) }
        ensures content { IfOk result (λ bytes. Fetches (state self.old).files name.now most bytes.items) }
        ensures same { (state self.new).files ≡ (state self.old).files }
        ensures later { (state self.old).faults ≤ (state self.new).faults }
        ensures cause { IsErrOf result ShelfError.Failed → Rose (state self.old).faults (state self.new).faults }
        ensures answered { (IsErrOf result ShelfError.NoMemory → ⊥)
            → (state self.new).calls ≡ answered_by 1 (state self.old).calls }
        ensures unanswered { IsErrOf result ShelfError.NoMemory
            → (state self.new).calls ≡ unanswered_once (state self.old).calls };

    /// Puts a file of that name and these bytes on the shelf, in the place of the one before.
    /// After a refusal the files are as before, where the shelf tells them.
    fn keep(&mut self, name: &str, bytes: &[u8]) -> Result<(), ShelfError>
        ensures ok { OnOk result ((state self.new).files ≡ kept (state self.old).files name.now bytes.now) }
        ensures err { OnErr result ((state self.new).files ≡ (state self.old).files) }
        ensures later { (state self.old).faults ≤ (state self.new).faults }
        ensures cause { IsErrOf result ShelfError.Failed → Rose (state self.old).faults (state self.new).faults }
        ensures answered { (IsErrOf result ShelfError.NoMemory → ⊥)
            → (state self.new).calls ≡ answered_by 1 (state self.old).calls }
        ensures unanswered { IsErrOf result ShelfError.NoMemory
            → (state self.new).calls ≡ unanswered_once (state self.old).calls };
}
