// The files of the system as a shelf.
ghost use Rattle.std.specs.Prelude.{◌≡◌, ◌≤◌, None, IsErrOf, take, vec_len, IfOk, IfSome};
ghost use Rattle.sg_outside.specs.Count.{Rose, raised};
ghost use Rattle.sg_outside.specs.Shelf.{Fetches};
ghost use Rattle.sg_outside.specs.Shelf.KnownFiles.{Unknown};

use crate::{Shelf, ShelfError};
use std::alloc::Global;
use std::fs;
use std::io::Read;
use std::marker::Model;
use std::rt::Files;

// How many bytes one read asks for at most.
const CHUNK: usize = 16_384;

/// The files of the system, by their paths. It tells nothing of contents.
#[derive(Drop)]
pub struct FileShelf<'a, R: Files> {
    rt: &'a R,
    faults: u64,
}

impl<'a, R: Files> Model for FileShelf<'a, R> {
    ghost use Rattle.sg_outside.specs.Edge.{SystemEdge};

    ghost Value = { SystemEdge };

    ghost view = { λ s. record { faults = s.faults } };
}

impl<'a, R: Files> FileShelf<'a, R> {
    /// The files that this runtime reaches.
    pub fn new(rt: &'a R) -> Self
        ensures { result.faults ≡ 0 }
    {
        FileShelf { rt, faults: 0 }
    }

    fn fail(&mut self) -> ShelfError
        ensures failed { result ≡ ShelfError.Failed }
        ensures counted { self.new.faults ≡ raised self.old.faults }
        ensures later { self.old.faults ≤ self.new.faults }
    {
        self.faults = self.faults.saturating_add(1);
        ShelfError::Failed
    }
}

impl<R: Files> Shelf for FileShelf<'_, R> {
    ghost state = { λ shelf. record { files = Unknown; faults = shelf.faults; calls = None } };

    fn fetch(&mut self, alloc: Global, name: &str, most: usize) -> Result<Vec<u8>, ShelfError>
        ensures bound { IfOk result (λ bytes. vec_len bytes ≤ most) }
        ensures content { IfOk result (λ bytes. Fetches Unknown name.now most bytes.items) }
        ensures risen { IsErrOf result ShelfError.Failed → self.new.faults ≡ raised self.old.faults }
        ensures quiet { (IsErrOf result ShelfError.Failed → ⊥) → self.new.faults ≡ self.old.faults }
        ensures later { self.old.faults ≤ self.new.faults }
        ensures cause { IsErrOf result ShelfError.Failed → Rose self.old.faults self.new.faults }
    {
        let Ok(mut file) = fs::open(self.rt, name) else {
            return Err(self.fail());
        };
        match read_front(alloc, &mut file, most) {
            Err(ShelfError::Failed) => Err(self.fail()),
            other => other,
        }
    }

    fn keep(&mut self, name: &str, bytes: &[u8]) -> Result<(), ShelfError>
        ensures risen { IsErrOf result ShelfError.Failed → self.new.faults ≡ raised self.old.faults }
        ensures quiet { (IsErrOf result ShelfError.Failed → ⊥) → self.new.faults ≡ self.old.faults }
        ensures later { self.old.faults ≤ self.new.faults }
        ensures cause { IsErrOf result ShelfError.Failed → Rose self.old.faults self.new.faults }
    {
        match fs::write(self.rt, name, bytes) {
            Ok(()) => Ok(()),
            Err(_) => Err(self.fail()),
        }
    }
}

// The first `most` bytes that a reader has left, or all where they are fewer. Each error of the
// reader is `Failed`.
fn read_front<R: Read>(alloc: Global, reader: &mut R, most: usize) -> Result<Vec<u8>, ShelfError>
    ensures bound { IfOk result (λ bytes. vec_len bytes ≤ most) }
    ensures front { IfOk result (λ bytes. IfSome (R.remaining reader.old) (λ left. bytes.items ≡ take most left)) }
{
    let mut bytes = Vec::new(alloc);
    let mut chunk = [0u8; CHUNK];
    while bytes.len() < most {
        let room = (most - bytes.len()).min(CHUNK);
        match reader.read(&mut chunk[..room]) {
            Ok(0) => break,
            Ok(n) => bytes.extend_from_slice(&chunk[..n])?,
            Err(_) => return Err(ShelfError::Failed),
        }
    }
    Ok(bytes)
}
