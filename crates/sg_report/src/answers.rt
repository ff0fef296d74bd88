// What a report is, and why there is none.
ghost use Rattle.std.specs.Prelude.{◌≡◌, Err, MatchOption};
ghost use Rattle.sg_input.specs.Parsed.{entered_of};
ghost use Rattle.sg_saved.specs.Answers.{opened_of};
ghost use Rattle.sg_report.specs.Found.{from_saved, from_text};

use sg_input::EntryFault;
use sg_kinds::marks::FaultKind;
use sg_kinds::memory::NoMemory;
use sg_kinds::text::Text;
use sg_saved::OpenFault;

/// The lines of a report, and how many equations were evaluated for it.
#[derive(Drop)]
pub struct Report {
    pub lines: Text,
    pub evaluated: u64,
}

/// Why there is no report. Places are bytes of the file, counted from 0.
#[derive(Clone, Copy, PartialEq, Eq)]
pub enum ReportFault {
    /// There is no such phylum, or it has no such attribute.
    NoAttribute,
    /// The file has more than 4,194,304 bytes.
    Long,
    /// It is no saved file from this place on.
    Form(usize),
    /// The subterm that begins there does not fit the phylum wanted at its place.
    Phylum(usize),
    /// The term has more than 65,536 nodes, or is deeper than 1,024.
    Size,
    /// The root phylum has no entry.
    NoEntry,
    /// The byte there is not allowed.
    Byte(usize),
    /// No token stands there.
    Lexical(usize),
    /// The token there cannot stand there, or one is missing at the end.
    Parse(usize),
    /// The value of the text is this fault.
    Outcome(FaultKind),
    NoMemory,
}

impl From<NoMemory> for ReportFault {
    ghost use Rattle.sg_report.specs.declared.answers.ReportFault.TheVariants.{NoMemory as OutOfMemory};

    ghost from_gives = { λ _ f. f ≡ OutOfMemory };

    fn from(_: NoMemory) -> ReportFault {
        ReportFault::NoMemory
    }
}

/// Why a saved file has no value.
pub fn of_opening(fault: OpenFault) -> ReportFault
    ensures { MatchOption (opened_of (Err fault)) (result ≡ ReportFault.NoMemory) (λ a. Err result ≡ from_saved a) }
{
    match fault {
        OpenFault::Form(k) => ReportFault::Form(k),
        OpenFault::Phylum(k) => ReportFault::Phylum(k),
        OpenFault::Size(_, _) => ReportFault::Size,
        OpenFault::NoMemory => ReportFault::NoMemory,
    }
}

/// Why a text has no value.
pub fn of_entry(fault: EntryFault) -> ReportFault
    ensures { MatchOption (entered_of (Err fault)) (result ≡ ReportFault.NoMemory) (λ a. Err result ≡ from_text a) }
{
    match fault {
        EntryFault::Byte(k) => ReportFault::Byte(k),
        EntryFault::Lexical(k) => ReportFault::Lexical(k),
        EntryFault::Parse(k) => ReportFault::Parse(k),
        EntryFault::Outcome(kind) => ReportFault::Outcome(kind),
        EntryFault::NoMemory => ReportFault::NoMemory,
    }
}
