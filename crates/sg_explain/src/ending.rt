// How a run ends.
ghost use Rattle.std.specs.Prelude.{◌≡◌};
ghost use Rattle.sg_explain.specs.Endings.{number_of, put_ending};

use sg_outside::SinkError;

/// How a run ends.
#[derive(Clone, Copy, Debug, PartialEq, Eq)]
pub enum Ending {
    /// The specification has no fault.
    Done,
    /// There was not enough memory.
    Memory,
    /// The words are not one name of a file.
    Usage,
    /// The specification could not be fetched.
    ReadFault,
    /// The specification has a fault, which was explained.
    SpecFault,
    /// The put failed.
    SinkFault,
}

impl Ending {
    /// The number with which the program ends.
    pub fn number(self) -> u8
        ensures { result ≡ number_of self }
    {
        match self {
            Ending::Done => 0,
            Ending::Memory => 1,
            Ending::Usage => 2,
            Ending::ReadFault => 3,
            Ending::SpecFault => 4,
            Ending::SinkFault => 6,
        }
    }
}

/// The ending after a put of what ends so.
pub fn after_put(put: Result<(), SinkError>, ending: Ending) -> Ending
    ensures { result ≡ put_ending put ending }
{
    match put {
        Ok(()) => ending,
        Err(SinkError::Failed) => Ending::SinkFault,
        Err(SinkError::NoMemory) => Ending::Memory,
    }
}
