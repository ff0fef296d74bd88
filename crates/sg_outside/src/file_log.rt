// Files in memory, seen as the map from each name to its newest bytes.
ghost use Rattle.std.specs.Prelude.{◌≡◌, None, Some, take, IfOk, OnOk, OnErr, MatchOption};
ghost use Rattle.std.specs.FinMap as map;
ghost use Rattle.sg_outside.specs.Shelf.{files_from};

use crate::NoMemory;
use std::alloc::Global;
use std::collections::VecDeque;
use std::marker::Model;

#[derive(Drop)]
struct File {
    name: String,
    bytes: Vec<u8>,
}

// The newest file of a name stands before the others of it.
#[derive(Drop)]
pub struct FileLog {
    alloc: Global,
    log: VecDeque<File>,
}

impl Model for FileLog {
    ghost use Rattle.sg_outside.specs.Shelf.{Files, files_code};

    ghost Value = { Files };

    ghost coded = { files_code };

    ghost use Rattle.sg_outside.specs.FileLog.{files_of};

    ghost view = { λ l. files_of l.log.items };
}

impl FileLog {
    pub fn new(alloc: Global, files: Vec<(String, Vec<u8>)>) -> Result<Self, NoMemory>
        ensures { IfOk result (λ log. log ≡ files_from files.items) }
    {
        let mut log = VecDeque::new(alloc);
        for (name, bytes) in files {
            log.push_front(File { name, bytes })?;
        }
        Ok(FileLog { alloc, log })
    }

    // Reads the log from its newest file, so the time grows with the log.
    pub fn get(&self, name: &str) -> Option<&[u8]>
        ensures { MatchOption result (map.get self.now name.now ≡ None)
            (λ bytes. map.get self.now name.now ≡ Some bytes.now) }
    {
        for file in &self.log {
            if name == file.name.as_str() {
                return Some(&file.bytes);
            }
        }
        None
    }

    pub fn insert(&mut self, name: &str, bytes: &[u8]) -> Result<(), NoMemory>
        ensures ok { OnOk result (self.new ≡ map.insert self.old name.now bytes.now) }
        ensures err { OnErr result (self.new ≡ self.old) }
    {
        let name = String::from_str(self.alloc, name)?;
        let bytes = bytes.to_vec(self.alloc)?;
        self.log.push_front(File { name, bytes })?;
        Ok(())
    }
}

// The first `most` bytes, or all where they are fewer.
pub fn front(alloc: Global, bytes: &[u8], most: usize) -> Result<Vec<u8>, NoMemory>
    ensures { IfOk result (λ front. front.items ≡ take most bytes.now) }
{
    Ok(bytes[..most.min(bytes.len())].to_vec(alloc)?)
}
