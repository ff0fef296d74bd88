// How a run ends.
ghost use Rattle.std.specs.Prelude.{◌≡◌};
ghost use Rattle.sg_output.specs.Statuses.{number_of};

use sg_outside::SinkError;
use std::alloc::AllocError;

/// How a run ends.
#[derive(Clone, Copy, Debug, PartialEq, Eq)]
pub enum Status {
    /// The job was done to its end.
    Done,
    /// There was not enough memory.
    Memory,
    /// The words are no job.
    Usage,
    /// The specification, the script or the file of a report could not be fetched.
    ReadFault,
    /// The specification has a fault.
    SpecFault,
    /// The script is not in its form.
    ScriptFault,
    /// A put failed.
    SinkFault,
    /// What is to be reported cannot be.
    ReportFault,
}

impl Status {
    /// The number with which the program ends.
    pub fn number(self) -> u8
        ensures { result ≡ number_of self }
    {
        match self {
            Status::Done => 0,
            Status::Memory => 1,
            Status::Usage => 2,
            Status::ReadFault => 3,
            Status::SpecFault => 4,
            Status::ScriptFault => 5,
            Status::SinkFault => 6,
            Status::ReportFault => 7,
        }
    }
}

impl From<AllocError> for Status {
    ghost use Rattle.sg_output.specs.declared.status.Status.TheVariants.{Memory as OutOfMemory};

    ghost from_gives = { λ _ s. s ≡ OutOfMemory };

    fn from(_: AllocError) -> Self {
        Status::Memory
    }
}

impl From<SinkError> for Status {
    ghost use Rattle.sg_output.specs.Statuses.{sink_status};

    ghost from_gives = { λ e s. s ≡ sink_status e };

    fn from(e: SinkError) -> Self {
        match e {
            SinkError::Failed => Status::SinkFault,
            SinkError::NoMemory => Status::Memory,
        }
    }
}
