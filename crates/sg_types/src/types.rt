//! When types fit.
ghost use Rattle.std.specs.Prelude.{◌≡◌, unwrap_or};
ghost use Rattle.sg_ast.specs.FirstFault.{or_else};
ghost use Rattle.sg_names.specs.Drafted.{drafted};
ghost use Rattle.sg_types.specs.Types as spec;
ghost use Rattle.sg_types.specs.Patterns.{is_wanted, takes_texts};
ghost use Rattle.sg_kinds.specs.Typing as typing;

use sg_kinds::fault::Position;
use sg_kinds::ids::{OpId, PhylumId};
use sg_names::names::Names;

pub const BOOL: PhylumId = PhylumId { number: 0 };

pub(crate) const NO_OP: OpId = OpId { number: 0 };

pub const INT: PhylumId = PhylumId { number: 1 };

pub const STR: PhylumId = PhylumId { number: 2 };

/// The place, where a fact does not hold.
pub fn unless(fact: bool, place: Position) -> Option<Position>
    ensures { result ≡ spec.unless fact place }
{
    if fact { None } else { Some(place) }
}

/// The phylum of a name, 0 where it means nothing.
pub fn phylum_or_none(of: &Option<PhylumId>) -> PhylumId
    ensures { result ≡ unwrap_or of.now 0 }
{
    match of {
        Some(of) => *of,
        None => BOOL,
    }
}

/// The operator of a name, 0 where it means nothing.
pub fn op_or_none(op: Option<OpId>) -> OpId
    ensures { result ≡ unwrap_or op 0 }
{
    match op {
        Some(op) => op,
        None => NO_OP,
    }
}

/// The first of two places, of which one that is there comes first.
pub fn earlier(first: Option<Position>, second: Option<Position>) -> Option<Position>
    ensures { result ≡ or_else first second }
{
    match first {
        Some(place) => Some(place),
        None => second,
    }
}

/// The place, where there is no type.
pub(crate) fn untyped(of: &Option<PhylumId>, place: Position) -> Option<Position>
    ensures { result ≡ spec.untyped of.now place }
{
    match of {
        Some(_) => None,
        None => Some(place),
    }
}

/// Whether a type is the one that is wanted.
pub fn is_wanted(of: PhylumId, wanted: &Option<PhylumId>) -> bool
    ensures { result ≡ is_wanted of wanted.now }
{
    match wanted {
        Some(wanted) => wanted.number == of.number,
        None => false,
    }
}

/// Whether texts are of a type: STR or a lexeme phylum.
pub(crate) fn is_textual(names: &Names, of: PhylumId) -> bool
    ensures { result ≡ typing.is_textual (drafted names.now) of }
{
    of.number == STR.number || names.is_lexical(of)
}

/// Whether texts are of the type that is wanted.
pub fn takes_texts(names: &Names, wanted: &Option<PhylumId>) -> bool
    ensures { result ≡ takes_texts names.now wanted.now }
{
    match wanted {
        Some(wanted) => is_textual(names, *wanted),
        None => false,
    }
}

/// Whether a type is accepted where another is wanted: itself, and a lexeme phylum where STR is.
pub fn fits_where(names: &Names, wanted: &Option<PhylumId>, found: &Option<PhylumId>) -> bool
    ensures { result ≡ spec.fits_where names.now wanted.now found.now }
{
    match (wanted, found) {
        (Some(wanted), Some(found)) => {
            found.number == wanted.number
                || (names.is_lexical(*found) && wanted.number == STR.number)
        }
        _ => false,
    }
}

/// Whether the types of two operands of `==` agree: where they are equal, or both are of texts.
pub fn do_agree(names: &Names, left: &Option<PhylumId>, right: &Option<PhylumId>) -> bool
    ensures { result ≡ spec.do_agree names.now left.now right.now }
{
    match (left, right) {
        (Some(left), Some(right)) => {
            left.number == right.number || (is_textual(names, *left) && is_textual(names, *right))
        }
        _ => false,
    }
}
