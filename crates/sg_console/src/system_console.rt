// The standard input and output as a console.
ghost use Rattle.std.specs.Prelude.{◌≡◌, ◌≤◌, None, [], vec_capacity, IfOk, OnOk, OnErr};
ghost use Rattle.sg_outside.specs.Count.{Rose, raised};
ghost use Rattle.sg_console.specs.Console.{IsTaken};

use crate::{Console, Failed, Taken, take_from};
use sg_outside::NoMemory;
use std::alloc::Global;
use std::io::{self, BufReader, Input, Print, Write};
use std::marker::Model;

/// The standard input and output. It tells nothing of what is read and written, and may read ahead.
#[derive(Drop)]
pub struct SystemConsole<'a, R: Input + Print> {
    rt: &'a R,
    reader: BufReader<R::Reader>,
    faults: u64,
}

impl<'a, R: Input + Print> Model for SystemConsole<'a, R> {
    ghost use Rattle.sg_outside.specs.Edge.{SystemEdge};

    ghost Value = { SystemEdge };

    ghost view = { λ s. record { faults = s.faults } };
}

impl<'a, R: Input + Print> SystemConsole<'a, R> {
    /// The standard input and output of this runtime. The buffer of the input is reserved once.
    pub fn new(alloc: Global, rt: &'a R) -> Result<Self, NoMemory>
        ensures { IfOk result (λ console. console.faults ≡ 0) }
    {
        match BufReader::new(alloc, rt.reader()) {
            Ok(reader) => Ok(SystemConsole {
                rt,
                reader,
                faults: 0,
            }),
            Err(_) => Err(NoMemory),
        }
    }

    // Counts a failure.
    fn fail(&mut self) -> Failed
        ensures counted { self.new.faults ≡ raised self.old.faults }
        ensures later { self.old.faults ≤ self.new.faults }
    {
        self.faults = self.faults.saturating_add(1);
        Failed
    }
}

impl<R: Input + Print> Console for SystemConsole<'_, R> {
    ghost state = { λ c. record { history = None; left = None; faults = c.faults } };

    fn take_line(&mut self, line: &mut Vec<u8>, most: usize) -> Result<Taken, Failed>
        requires empty { line.old.items ≡ [] }
        requires room { most ≤ vec_capacity line.old }
        requires some { 1 ≤ most }
        ensures taken { IfOk result (IsTaken most None None line.new.items) }
        ensures capacity { vec_capacity line.new ≡ vec_capacity line.old }
        ensures risen { OnErr result (self.new.faults ≡ raised self.old.faults) }
        ensures quiet { OnOk result (self.new.faults ≡ self.old.faults) }
        ensures later { self.old.faults ≤ self.new.faults }
        ensures cause { OnErr result (Rose self.old.faults self.new.faults) }
    {
        match take_from(&mut self.reader, line, most) {
            Ok(taken) => Ok(taken),
            Err(_) => Err(self.fail()),
        }
    }

    // A write of no byte is an error too.
    fn put(&mut self, piece: &[u8]) -> Result<(), Failed>
        ensures risen { OnErr result (self.new.faults ≡ raised self.old.faults) }
        ensures quiet { OnOk result (self.new.faults ≡ self.old.faults) }
        ensures later { self.old.faults ≤ self.new.faults }
        ensures cause { OnErr result (Rose self.old.faults self.new.faults) }
    {
        match io::writer(self.rt).write_all(piece) {
            Ok(()) => Ok(()),
            Err(_) => Err(self.fail()),
        }
    }
}
