// A console in memory whose calls fail at given numbers.
ghost use Rattle.std.specs.Prelude.{◌≡◌, ◌≤◌, ◌↔◌, ◌++◌, ◌∷◌, [], Some, vec_capacity, map, IfOk, OnOk, OnErr, IsTrue};
ghost use Rattle.sg_outside.specs.Count.{Rose, raised};
ghost use Rattle.sg_console.specs.Console.{IsTaken, event_of};
ghost use Rattle.sg_console.specs.Console.Event.{Put};
ghost use Rattle.sg_console.specs.MemConsole.{IsDue, written_in};
ghost use Rattle.sg_console.specs.Entry.{event_in};

use crate::{Console, Failed, Taken, take_from};
use sg_outside::NoMemory;
use std::alloc::Global;
use std::marker::Model;

#[derive(Drop)]
enum Entry {
    Took(Vec<u8>),
    Passed,
    Ended,
    Put(Vec<u8>),
}

/// A console in memory, which tells all. Its calls are numbered from 1, and from 2^64 - 1 on the
/// number stays. A call fails where its number is listed, and where it cannot be noted for want of
/// memory.
#[derive(Drop)]
pub struct MemConsole {
    alloc: Global,
    input: Vec<u8>,
    at: usize,
    log: Vec<Entry>,
    fails: Vec<u64>,
    calls: u64,
    faults: u64,
}

impl Model for MemConsole {
    ghost use Rattle.std.specs.Prelude.{◌≤◌, map, drop, length};
    ghost use Rattle.sg_console.specs.MemConsole.{NumberedConsole};

    ghost Value = { NumberedConsole };

    ghost use Rattle.sg_console.specs.Entry.{event_in};

    ghost view = { λ c. record {
      history = map event_in c.log.items;
      left = drop c.at c.input.items;
      fails = c.fails.items;
      calls = c.calls;
      faults = c.faults;
    } };

    ghost invariant = { λ c. c.at ≤ length c.input.items };
}

impl MemConsole {
    /// A console with this input, whose calls of these numbers fail.
    pub fn new(alloc: Global, input: Vec<u8>, fails: Vec<u64>) -> Self
        ensures history { result.history ≡ [] }
        ensures left { result.left ≡ input.items }
        ensures fails { result.fails ≡ fails.items }
        ensures calls { result.calls ≡ 0 }
        ensures faults { result.faults ≡ 0 }
    {
        MemConsole {
            alloc,
            input,
            at: 0,
            log: Vec::new(alloc),
            fails,
            calls: 0,
            faults: 0,
        }
    }

    /// What was written, one piece after another.
    pub fn written(&self) -> Result<Vec<u8>, NoMemory>
        ensures { IfOk result (λ all. all.items ≡ written_in self.now.history) }
    {
        let mut all = Vec::new(self.alloc);
        for entry in &self.log {
            if let Entry::Put(piece) = entry {
                all.extend_from_slice(piece)?;
            }
        }
        Ok(all)
    }

    // Counts a call: whether it is to fail.
    fn is_due(&mut self) -> bool
        ensures due { IsTrue result ↔ IsDue self.old }
        ensures counted { self.new ≡ record self.old { calls = raised self.old.calls } }
    {
        self.calls = self.calls.saturating_add(1);
        self.fails.contains(&self.calls)
    }

    // Counts a failure.
    fn fail(&mut self) -> Failed
        ensures counted { self.new ≡ record self.old { faults = raised self.old.faults } }
        ensures later { self.old.faults ≤ self.new.faults }
    {
        self.faults = self.faults.saturating_add(1);
        Failed
    }

    // Takes a line, and does not count a failure.
    fn take(&mut self, line: &mut Vec<u8>, most: usize) -> Result<Taken, Failed>
        requires empty { line.old.items ≡ [] }
        requires room { most ≤ vec_capacity line.old }
        requires some { 1 ≤ most }
        ensures taken { IfOk result (IsTaken most (Some self.old.left) (Some self.new.left) line.new.items) }
        ensures sure { OnOk result (IsDue self.old → ⊥) }
        ensures ok { IfOk result (λ taken. self.new.history ≡ self.old.history ++ event_of line.new.items taken ∷ []) }
        ensures err { OnErr result (self.new.history ≡ self.old.history) }
        ensures left { OnErr result (self.new.left ≡ self.old.left) }
        ensures fails { self.new.fails ≡ self.old.fails }
        ensures calls { self.new.calls ≡ raised self.old.calls }
        ensures faults { self.new.faults ≡ self.old.faults }
        ensures capacity { vec_capacity line.new ≡ vec_capacity line.old }
    {
        if self.is_due() {
            return Err(Failed);
        }
        let mut rest = &self.input[self.at..];
        let taken = take_from(&mut rest, line, most)?;
        let at = self.input.len() - rest.len();
        let entry = entry_of(self.alloc, line, taken)?;
        self.log.push(entry)?;
        self.at = at;
        Ok(taken)
    }

    // Notes a piece that is written, and does not count a failure.
    fn write(&mut self, piece: &[u8]) -> Result<(), Failed>
        ensures ok { OnOk result (self.new.history ≡ self.old.history ++ (Put piece.now) ∷ []) }
        ensures sure { OnOk result (IsDue self.old → ⊥) }
        ensures err { OnErr result (self.new.history ≡ self.old.history) }
        ensures left { self.new.left ≡ self.old.left }
        ensures fails { self.new.fails ≡ self.old.fails }
        ensures calls { self.new.calls ≡ raised self.old.calls }
        ensures faults { self.new.faults ≡ self.old.faults }
    {
        if self.is_due() {
            return Err(Failed);
        }
        let piece = piece.to_vec(self.alloc)?;
        self.log.push(Entry::Put(piece))?;
        Ok(())
    }
}

// The entry of what was read.
fn entry_of(alloc: Global, line: &[u8], taken: Taken) -> Result<Entry, NoMemory>
    ensures { IfOk result (λ entry. event_in entry ≡ event_of line.now taken) }
{
    match taken {
        Taken::Line => Ok(Entry::Took(line.to_vec(alloc)?)),
        Taken::Long => Ok(Entry::Passed),
        Taken::End => Ok(Entry::Ended),
    }
}

impl Console for MemConsole {
    ghost state = { λ c. record { history = Some c.history; left = Some c.left; faults = c.faults } };

    fn take_line(&mut self, line: &mut Vec<u8>, most: usize) -> Result<Taken, Failed>
        requires empty { line.old.items ≡ [] }
        requires room { most ≤ vec_capacity line.old }
        requires some { 1 ≤ most }
        ensures taken { IfOk result (IsTaken most (Some self.old.left) (Some self.new.left) line.new.items) }
        ensures sure { OnOk result (IsDue self.old → ⊥) }
        ensures ok { IfOk result (λ taken. self.new.history ≡ self.old.history ++ event_of line.new.items taken ∷ []) }
        ensures err { OnErr result (self.new.history ≡ self.old.history) }
        ensures left { OnErr result (self.new.left ≡ self.old.left) }
        ensures fails { self.new.fails ≡ self.old.fails }
        ensures calls { self.new.calls ≡ raised self.old.calls }
        ensures capacity { vec_capacity line.new ≡ vec_capacity line.old }
        ensures risen { OnErr result (self.new.faults ≡ raised self.old.faults) }
        ensures quiet { OnOk result (self.new.faults ≡ self.old.faults) }
        ensures later { self.old.faults ≤ self.new.faults }
        ensures cause { OnErr result (Rose self.old.faults self.new.faults) }
    {
        match self.take(line, most) {
            Ok(taken) => Ok(taken),
            Err(_) => Err(self.fail()),
        }
    }

    fn put(&mut self, piece: &[u8]) -> Result<(), Failed>
        ensures ok { OnOk result (self.new.history ≡ self.old.history ++ (Put piece.now) ∷ []) }
        ensures sure { OnOk result (IsDue self.old → ⊥) }
        ensures err { OnErr result (self.new.history ≡ self.old.history) }
        ensures left { self.new.left ≡ self.old.left }
        ensures fails { self.new.fails ≡ self.old.fails }
        ensures calls { self.new.calls ≡ raised self.old.calls }
        ensures risen { OnErr result (self.new.faults ≡ raised self.old.faults) }
        ensures quiet { OnOk result (self.new.faults ≡ self.old.faults) }
        ensures later { self.old.faults ≤ self.new.faults }
        ensures cause { OnErr result (Rose self.old.faults self.new.faults) }
    {
        match self.write(piece) {
            Ok(()) => Ok(()),
            Err(_) => Err(self.fail()),
        }
    }
}
