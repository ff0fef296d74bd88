// The static faults of a specification.
ghost use Rattle.std.specs.Prelude.{◌≡◌};
ghost use Rattle.sg_kinds.specs.declared.fault.SpecFault.TheVariants as fault;

use crate::row::Row;
use crate::text::Text;
use std::alloc::{AllocError, AllocFailed};

/// A place in a specification: the number of a token, counted from 0, and its line, counted from 1.
#[derive(Clone, Copy, PartialEq, Eq)]
pub struct Position {
    pub token: u32,
    pub line: u32,
}

/// What has a limit on its number, in the order in which the limits are tested.
#[derive(Clone, Copy, PartialEq, Eq)]
pub enum Counted {
    Phyla,
    Operators,
    Arity,
    Attributes,
    Locals,
    Functions,
    Parameters,
    Transforms,
    Schemes,
    Productions,
    Symbols,
    Views,
}

/// A symbol of the grammar as a conflict prints it: the end, the marker of an entry's phylum, a literal, or the name
/// of a lexeme phylum or nonterminal.
#[derive(Drop)]
pub enum PrintedSymbol {
    End,
    Marker(Text),
    Literal(Text),
    Name(Text),
}

/// An item as a conflict prints it: the nonterminal (none for a start production), the right side, and the place of
/// the dot.
#[derive(Drop)]
pub struct PrintedItem {
    pub left: Option<Text>,
    pub right: Row<PrintedSymbol>,
    pub dot: u32,
}

/// Two different actions of one state on one terminal.
#[derive(Drop)]
pub struct PrintedConflict {
    pub prefix: Row<PrintedSymbol>,
    pub terminal: PrintedSymbol,
    pub first: PrintedItem,
    pub second: PrintedItem,
}

/// A vertex of a cycle as it prints: an attribute of the left side, an attribute of an argument's numbered
/// occurrence, or a local.
#[derive(Drop)]
pub enum PrintedVertex {
    Own(Text),
    Argument(Text, u32, Text),
    Local(Text),
}

/// The first static fault of a specification: one variant for each code, with its detail.
#[derive(Drop)]
pub enum SpecFault {
    TooLong,
    /// a line, as in the next four
    Byte(u32),
    Unclosed(u32),
    LongNumber(u32),
    LongName(u32),
    Syntax(u32),
    Limit(Counted, usize),
    Duplicate(Position, Text),
    UnknownName(Position, Text),
    ResultCount(Position, Text),
    RootCount(usize),
    ListShape(Position, Text),
    OptionalShape(Position, Text),
    NoCompletion(Position, Text),
    RootInherits(Position, Text),
    TwiceBound(Position, Text),
    Arity(Position, Text),
    Mismatch(Position),
    ShownType(Position),
    NotDefinedHere(Position),
    Twice(Position),
    Missing(Position, Text),
    NoEnclosing(Position),
    NoScheme(Position, Text),
    SchemeKids(Position, Text),
    SchemeText(Position),
    PatternForm(Position, Text),
    EmptyLexeme(Position, Text),
    EntryTwice(Position, Text),
    EntryType(Position, Text),
    Unproductive(Position, Text),
    States,
    Conflict(Position, PrintedConflict),
    Direct(Position, Text, Row<PrintedVertex>),
    Induced(Position, Text, Row<PrintedVertex>),
    Ordered(Position, Text, Row<PrintedVertex>),
    NoMemory,
}

impl From<AllocError> for SpecFault {
    ghost from_gives = { λ _ e. e ≡ fault.NoMemory };

    fn from(_: AllocError) -> SpecFault {
        SpecFault::NoMemory
    }
}

impl<T: Drop> From<AllocFailed<T>> for SpecFault {
    ghost from_gives = { λ _ e. e ≡ fault.NoMemory };

    fn from(_: AllocFailed<T>) -> SpecFault {
        SpecFault::NoMemory
    }
}
