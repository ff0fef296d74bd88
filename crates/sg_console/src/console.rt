// A console: one object that is read, a line at a time, and written.
ghost use Rattle.std.specs.Prelude.{◌≡◌, ◌≤◌, [], vec_capacity, IfOk, OnOk, OnErr};
ghost use Rattle.sg_outside.specs.Count.{Rose};
ghost use Rattle.sg_console.specs.Console.{ConsoleState, IsTaken, noted, event_of};
ghost use Rattle.sg_console.specs.Console.Event.{Put};

use std::alloc::{AllocError, AllocFailed};

/// A call of a console failed, which the console counted.
#[derive(Clone, Copy, Debug, PartialEq, Eq)]
pub struct Failed;

impl From<AllocError> for Failed {
    fn from(_: AllocError) -> Self {
        Failed
    }
}

impl<T: Drop> From<AllocFailed<T>> for Failed {
    fn from(_: AllocFailed<T>) -> Self {
        Failed
    }
}

/// What a console gave when a line was asked for.
#[derive(Clone, Copy, Debug, PartialEq, Eq)]
pub enum Taken {
    /// A line, with its newline if it has one.
    Line,
    /// A line that was too long, which is passed over.
    Long,
    /// Nothing: the input is at its end.
    End,
}

/// A place where lines are read and text is written, in one order, and whose calls may fail.
pub trait Console {
    /// What was read and written, what is left to be read, and how often a call failed.
    ghost state: { Self → ConsoleState };

    /// Puts the next line into the empty `line`, where it has at most so many bytes with its newline, and passes over a
    /// longer one. Of what is left where the reading fails nothing is said. It wants no memory.
    fn take_line(&mut self, line: &mut Vec<u8>, most: usize) -> Result<Taken, Failed>
        requires empty { line.old.items ≡ [] }
        requires room { most ≤ vec_capacity line.old }
        requires some { 1 ≤ most }
        ensures taken { IfOk result (IsTaken most (state self.old).left (state self.new).left line.new.items) }
        ensures ok { IfOk result (λ taken. (state self.new).history
            ≡ noted (event_of line.new.items taken) (state self.old).history) }
        ensures err { OnErr result ((state self.new).history ≡ (state self.old).history) }
        ensures capacity { vec_capacity line.new ≡ vec_capacity line.old }
        ensures later { (state self.old).faults ≤ (state self.new).faults }
        ensures cause { OnErr result (Rose (state self.old).faults (state self.new).faults) };

    /// Writes the whole piece. Of how much a call that fails has written nothing is said. It wants no memory.
    fn put(&mut self, piece: &[u8]) -> Result<(), Failed>
        ensures ok { OnOk result ((state self.new).history ≡ noted (Put piece.now) (state self.old).history) }
        ensures err { OnErr result ((state self.new).history ≡ (state self.old).history) }
        ensures left { (state self.new).left ≡ (state self.old).left }
        ensures later { (state self.old).faults ≤ (state self.new).faults }
        ensures cause { OnErr result (Rose (state self.old).faults (state self.new).faults) };
}
