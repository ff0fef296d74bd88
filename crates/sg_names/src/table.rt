//! What names mean, as lists in the order of their declarations.
ghost use Rattle.std.specs.Prelude.{◌≡◌};
ghost use Rattle.sg_names.specs.Callables.{operator_in};

use sg_kinds::fault::Position;
use sg_kinds::ids::{OpId, PhylumId};
use sg_kinds::marks::Unary;
use sg_kinds::row::Row;
use sg_kinds::spec::{Attr, Operator, Phylum};
use sg_kinds::text::Text;

/// A function without its body: the phyla of its parameters and of its result.
#[derive(Drop)]
pub struct Signature {
    pub name: Text,
    pub params: Row<PhylumId>,
    pub result: PhylumId,
}

/// A nonterminal, with the place of its name at its first productions.
#[derive(Drop)]
pub struct Nonterminal {
    pub name: Text,
    pub place: Position,
    pub attrs: Row<Attr>,
}

/// What the names of a specification mean. The phyla 0, 1 and 2 are BOOL, INT and STR. Other phyla and the
/// nonterminals stand in the order of their first definitions, operators and functions in that of the text. Operators
/// have their locals and no schemes yet.
#[derive(Drop)]
pub struct Table {
    pub phyla: Row<Phylum>,
    pub ops: Row<Operator>,
    pub functions: Row<Signature>,
    pub nonterminals: Row<Nonterminal>,
    /// The phylum of the first `root` declaration.
    pub root: PhylumId,
    /// The name of each phylum at its first definition; token 0 of line 0 for BOOL, INT and STR.
    pub phylum_places: Row<Position>,
    /// The name of each operator in its alternative.
    pub op_places: Row<Position>,
}

/// What a name before parentheses means: an operator, a function by its place, or one of `STRtoINT`, `INTtoSTR`,
/// `STRlen`.
#[derive(Clone, Copy, PartialEq, Eq)]
pub enum Callable {
    Operator(OpId),
    Function(u32),
    Builtin(Unary),
}

impl Callable {
    /// The operator, if it is one.
    pub fn operator(self) -> Option<OpId>
        ensures { result ≡ operator_in self }
    {
        match self {
            Callable::Operator(op) => Some(op),
            Callable::Function(_) | Callable::Builtin(_) => None,
        }
    }
}

/// A symbol of an input production that a reference names: its place counted from 1, and the phylum of its result or
/// text.
#[derive(Clone, Copy, PartialEq, Eq)]
pub struct Operand {
    pub at: usize,
    pub of: PhylumId,
}
