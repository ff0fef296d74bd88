// The text that ends a run.
ghost use Rattle.std.specs.Prelude.{◌≡◌};
ghost use Rattle.sg_output.specs.Statuses.{IsEnd, ended};
ghost use Rattle.sg_output.specs.Parts.{Finished};

use crate::Status;
use sg_outside::{Sink, SinkError};

/// The run is over with this status.
pub fn end(status: Status) -> Result<(), Status>
    ensures { ended result ≡ status }
{
    match status {
        Status::Done => Ok(()),
        status => Err(status),
    }
}

/// The status of a run that is over.
pub fn status_of(over: Result<(), Status>) -> Status
    ensures { result ≡ ended over }
{
    match over {
        Ok(()) => Status::Done,
        Err(status) => status,
    }
}

/// Puts the text that ends the run with that status. A put that is refused gives its own status in its place.
pub fn finish<K: Sink>(sink: &mut K, text: &[u8], status: Status) -> Status
    requires { IsEnd status }
    ensures { Finished status text.now (K.state sink.old) result (K.state sink.new) }
{
    match sink.put(text) {
        Ok(()) => status,
        Err(SinkError::Failed) => Status::SinkFault,
        Err(SinkError::NoMemory) => Status::Memory,
    }
}
