// What helps for one fault besides its sentence.
ghost use Rattle.std.specs.Prelude.{◌≡◌, IfOk, IfSome};
ghost use Rattle.sg_explain.specs.Help.{Helps};
ghost use Rattle.sg_place.specs.Places.{IsPlaceIn, place_of};

use crate::named::{bare, duplicate, parts, unknown};
use sg_kinds::fault::SpecFault;
use sg_kinds::memory::NoMemory;
use sg_mismatches::mistypes::mistyped;
use sg_missing::firsts::first;
use sg_missing::lacks::lacks;
use sg_stops::stops::stops;
use sg_witnesses::cycles::cycle;
use sg_witnesses::samples::{conflict, unproductive};
use std::alloc::Global;

/// What helps for a fault of the text that stands at a place, as lines: of a declaration without a reading where reading
/// stops and what mends it, of a mismatch all mismatches with their types, of a missing equation all that operators lack,
/// of a nonterminal without a sentence all of them, of a conflict a sample and what is done behind it, of a cycle each
/// step and its reasons; of an unknown name what it means and which near ones are known, of a second one the first, of a
/// wrong number of parts the signature, of a reference to enclosing nodes a chain of operators without them.
pub fn help(
    alloc: Global,
    bytes: &[u8],
    fault: &SpecFault,
    place: Option<usize>,
) -> Result<Vec<u8>, NoMemory>
    requires there { IfSome place (IsPlaceIn bytes.now) }
    requires place { place ≡ place_of bytes.now fault.now }
    ensures { IfOk result (λ v. Helps bytes.now fault.now v.items) }
{
    match fault {
        SpecFault::Syntax(_) => stops(alloc, bytes, place),
        SpecFault::Duplicate(at, _) | SpecFault::EntryTwice(at, _) => duplicate(alloc, bytes, *at),
        SpecFault::Twice(at) => first(alloc, bytes, *at),
        SpecFault::UnknownName(at, name) => unknown(alloc, bytes, place, *at, name.as_slice()),
        SpecFault::Arity(_, name) | SpecFault::SchemeKids(_, name) => {
            parts(alloc, bytes, name.as_slice())
        }
        SpecFault::NoEnclosing(at) => bare(alloc, bytes, *at),
        SpecFault::Mismatch(_) => mistyped(alloc, bytes),
        SpecFault::Missing(..) => lacks(alloc, bytes),
        SpecFault::Unproductive(..) => unproductive(alloc, bytes),
        SpecFault::Conflict(_, found) => conflict(alloc, bytes, fault, found),
        SpecFault::Direct(..) | SpecFault::Induced(..) | SpecFault::Ordered(..) => {
            cycle(alloc, bytes, fault)
        }
        SpecFault::TooLong
        | SpecFault::Byte(_)
        | SpecFault::Unclosed(_)
        | SpecFault::LongNumber(_)
        | SpecFault::LongName(_)
        | SpecFault::Limit(..)
        | SpecFault::ResultCount(..)
        | SpecFault::RootCount(_)
        | SpecFault::ListShape(..)
        | SpecFault::OptionalShape(..)
        | SpecFault::NoCompletion(..)
        | SpecFault::RootInherits(..)
        | SpecFault::TwiceBound(..)
        | SpecFault::ShownType(_)
        | SpecFault::NotDefinedHere(_)
        | SpecFault::NoScheme(..)
        | SpecFault::SchemeText(_)
        | SpecFault::PatternForm(..)
        | SpecFault::EmptyLexeme(..)
        | SpecFault::EntryType(..)
        | SpecFault::States
        | SpecFault::NoMemory => Ok(Vec::new(alloc)),
    }
}
