//! A mismatch with its types.
ghost use Rattle.std.specs.Prelude.{◌≡◌, ◌≤◌, ◌++◌, drop, length, take, OnOk};
ghost use Rattle.sg_mistyped.specs.Mistyped as spec;

use sg_kinds::fault::Position;
use sg_kinds::ids::PhylumId;
use sg_kinds::memory::NoMemory;

/// What is wanted where an expression or a pattern stands.
#[derive(Clone, Copy)]
pub enum Wanted {
    /// This type.
    One(PhylumId),
    /// A list of whatever elements.
    AnyList,
    /// A type whose values compare with those of this one.
    Like(PhylumId),
    /// Any type: what stands there has none.
    Any,
    /// The type of something that has none itself, so nothing fits.
    Unknown,
}

/// A mismatch: the first token of an expression or a pattern, what is wanted where it stands, and its own type if it
/// has one.
#[derive(Clone, Copy)]
pub struct Mistyped {
    pub place: Position,
    pub wanted: Wanted,
    pub found: Option<PhylumId>,
}

/// What is wanted where this type is.
pub(crate) fn one(of: &Option<PhylumId>) -> Wanted
    ensures { result ≡ spec.one of.now }
{
    match of {
        Some(of) => Wanted::One(*of),
        None => Wanted::Unknown,
    }
}

/// What is wanted where a value compares with one of this type.
pub(crate) fn like(of: &Option<PhylumId>) -> Wanted
    ensures { result ≡ spec.like of.now }
{
    match of {
        Some(of) => Wanted::Like(*of),
        None => Wanted::Unknown,
    }
}

/// Puts a mismatch before those that were found from a place on, unless what is there fits.
pub(crate) fn put(
    mistypes: &mut Vec<Mistyped>,
    at: usize,
    fits: bool,
    place: Position,
    wanted: Wanted,
    found: Option<PhylumId>,
) -> Result<(), NoMemory>
    requires { at ≤ length mistypes.old.items }
    ensures { OnOk result (mistypes.new.items ≡ take at mistypes.old.items
        ++ (spec.listed fits (record { place = place; wanted = wanted; found = found }) ++ drop at mistypes.old.items)) }
{
    if fits {
        return Ok(());
    }
    let mistyped = Mistyped {
        place,
        wanted,
        found,
    };
    mistypes.insert(at, mistyped)?;
    Ok(())
}

/// Puts a mismatch behind the others, unless what is there fits.
pub(crate) fn add(
    mistypes: &mut Vec<Mistyped>,
    fits: bool,
    place: Position,
    wanted: Wanted,
    found: Option<PhylumId>,
) -> Result<(), NoMemory>
    ensures { OnOk result (mistypes.new.items ≡ mistypes.old.items
        ++ spec.listed fits (record { place = place; wanted = wanted; found = found })) }
{
    if fits {
        return Ok(());
    }
    let mistyped = Mistyped {
        place,
        wanted,
        found,
    };
    mistypes.push(mistyped)?;
    Ok(())
}
