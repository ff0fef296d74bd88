// What is written for a line, and the text that ends a run.
ghost use Rattle.std.specs.Prelude.{◌≡◌, ◌≤◌, [], ◌∷◌, MatchOption, OnOk, OnErr, IfErr};
ghost use Rattle.sg_outside.specs.Count.{Rose};
ghost use Rattle.sg_console.specs.Console.Event.{Put};
ghost use Rattle.sg_live.specs.Outside.{all_noted};
ghost use Rattle.sg_live.specs.Opening.{Said};
ghost use Rattle.sg_live.specs.Answers.{events_of, IsPut};

use sg_console::Console;
use sg_output::Status;

/// What is written for a line.
#[derive(Drop)]
pub enum Answer {
    /// nothing
    Nothing,
    /// a text that is always the same
    Text(&'static [u8]),
    /// bytes of its own
    Bytes(Vec<u8>),
}

impl Answer {
    // What is written, unless it is nothing.
    fn bytes(&self) -> Option<&[u8]>
        ensures { MatchOption result (events_of self.now ≡ []) (λ bytes. events_of self.now ≡ (Put bytes.now) ∷ []) }
    {
        match self {
            Answer::Nothing => None,
            Answer::Text(text) => Some(text),
            Answer::Bytes(bytes) => Some(bytes),
        }
    }
}

/// Writes an answer, by one put unless it is nothing. An error says with which status the run is over.
pub fn put<C: Console>(console: &mut C, answer: &Answer) -> Result<(), Status>
    ensures ok { OnOk result ((C.state console.new).history
        ≡ all_noted (events_of answer.now) (C.state console.old).history) }
    ensures err { OnErr result ((C.state console.new).history ≡ (C.state console.old).history) }
    ensures status { IfErr result (λ status. status ≡ Status.SinkFault) }
    ensures some { OnErr result (IsPut answer.now) }
    ensures left { (C.state console.new).left ≡ (C.state console.old).left }
    ensures later { (C.state console.old).faults ≤ (C.state console.new).faults }
    ensures cause { OnErr result (Rose (C.state console.old).faults (C.state console.new).faults) }
{
    let Some(bytes) = answer.bytes() else {
        return Ok(());
    };
    match console.put(bytes) {
        Ok(()) => Ok(()),
        Err(_) => Err(Status::SinkFault),
    }
}

/// Writes the text that ends a run with that status. Where the put fails the status is `SinkFault` in its place.
pub fn finish<C: Console>(console: &mut C, text: &[u8], status: Status) -> Status
    ensures { Said text.now status (C.state console.old) result (C.state console.new) }
{
    match console.put(text) {
        Ok(()) => status,
        Err(_) => Status::SinkFault,
    }
}
