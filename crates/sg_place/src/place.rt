// The byte at which a fault stands in its text.
ghost use Rattle.std.specs.Prelude.{◌≡◌, ◌≢◌, ◌≤◌, length, IfOk, IfSome, OnOk};
ghost use Rattle.sg_text.specs.Tokens.{tokens_of};
ghost use Rattle.sg_place.specs.Places.{IsPlaceIn, behind as tokens_behind, begin_of, first_begin as first_begin_of, place_of, place_with, spot_begin, spot_of, token_fault_place as fault_place_of, within};

use sg_kinds::fault::{Position, SpecFault};
use sg_kinds::limits::TEXT_BYTES;
use sg_kinds::memory::NoMemory;
use sg_reader::ReadFault;
use sg_text::{LexFault, Token, declaration_len, lex};
use std::alloc::Global;

// Where a fault of a text with tokens stands.
#[derive(Clone, Copy, PartialEq, Eq)]
enum Spot {
    Nowhere,
    // at the first declaration without a reading
    Unread,
    At(Position),
}

fn find_spot(fault: &SpecFault) -> Spot
    ensures { result ≡ spot_of fault.now }
{
    match fault {
        SpecFault::TooLong
        | SpecFault::Byte(_)
        | SpecFault::Unclosed(_)
        | SpecFault::LongNumber(_)
        | SpecFault::LongName(_)
        | SpecFault::Limit(..)
        | SpecFault::RootCount(_)
        | SpecFault::States
        | SpecFault::NoMemory => Spot::Nowhere,
        SpecFault::Syntax(_) => Spot::Unread,
        SpecFault::Mismatch(place)
        | SpecFault::ShownType(place)
        | SpecFault::NotDefinedHere(place)
        | SpecFault::Twice(place)
        | SpecFault::NoEnclosing(place)
        | SpecFault::SchemeText(place)
        | SpecFault::Duplicate(place, _)
        | SpecFault::UnknownName(place, _)
        | SpecFault::ResultCount(place, _)
        | SpecFault::ListShape(place, _)
        | SpecFault::OptionalShape(place, _)
        | SpecFault::NoCompletion(place, _)
        | SpecFault::RootInherits(place, _)
        | SpecFault::TwiceBound(place, _)
        | SpecFault::Arity(place, _)
        | SpecFault::Missing(place, _)
        | SpecFault::NoScheme(place, _)
        | SpecFault::SchemeKids(place, _)
        | SpecFault::PatternForm(place, _)
        | SpecFault::EmptyLexeme(place, _)
        | SpecFault::EntryTwice(place, _)
        | SpecFault::EntryType(place, _)
        | SpecFault::Unproductive(place, _)
        | SpecFault::Conflict(place, _)
        | SpecFault::Direct(place, _, _)
        | SpecFault::Induced(place, _, _)
        | SpecFault::Ordered(place, _, _) => Spot::At(*place),
    }
}

// The place of a fault of tokens.
fn token_fault_place(fault: LexFault) -> Result<Option<usize>, NoMemory>
    ensures value { IfOk result (λ p. p ≡ fault_place_of fault) }
    ensures some { OnOk result (fault ≢ LexFault.NoMemory) }
{
    match fault {
        LexFault::Byte(at)
        | LexFault::Unclosed(at)
        | LexFault::LongNumber(at)
        | LexFault::LongName(at) => Ok(Some(at)),
        LexFault::NoMemory => Err(NoMemory),
    }
}

// Where the token of a position begins.
fn begin(tokens: &[Token], place: Position) -> Option<usize>
    ensures { result ≡ begin_of tokens.now place }
{
    match tokens.get(place.token as usize) {
        Some(token) if token.line == place.line => Some(token.from),
        _ => None,
    }
}

/// The same, at most the text's end.
pub fn begin_within(bytes: &[u8], tokens: &[Token], place: Position) -> Option<usize>
    ensures value { result ≡ within bytes.now (begin_of tokens.now place) }
    ensures there { IfSome result (λ at. at ≤ length bytes.now) }
{
    let at = begin(tokens, place)?;
    Some(at.min(bytes.len()))
}

// The tokens behind so many declarations.
#[tactic(auto, using(crate::proofs::Declarations::declaration_within, crate::proofs::Declarations::behind_step))]
fn behind(tokens: &[Token], number: usize) -> &[Token]
    ensures { result.now ≡ tokens_behind number tokens.now }
{
    let mut left = tokens;
    for _turn in 0..number {
        let (_, others) = left.split_at(declaration_len(left));
        left = others;
    }
    left
}

// Where the first of these tokens begins.
fn first_begin(tokens: &[Token]) -> Option<usize>
    ensures { result ≡ first_begin_of tokens.now }
{
    match tokens.first() {
        Some(token) => Some(token.from),
        None => None,
    }
}

// Where the first declaration without a reading begins.
fn unread(alloc: Global, bytes: &[u8], tokens: &[Token]) -> Result<Option<usize>, NoMemory>
    ensures { IfOk result (λ p. p ≡ spot_begin bytes.now tokens.now Spot.Unread) }
{
    // A text has no more tokens than bytes.
    if tokens.len() > TEXT_BYTES {
        return Err(NoMemory);
    }
    match sg_reader::read(alloc, bytes, tokens) {
        Ok(_) => Ok(None),
        Err(ReadFault::Syntax(number, _)) => Ok(first_begin(behind(tokens, number))),
        Err(ReadFault::NoMemory) => Err(NoMemory),
    }
}

// Where a fault of a text with these tokens stands.
fn fault_begin(
    alloc: Global,
    bytes: &[u8],
    tokens: &[Token],
    fault: &SpecFault,
) -> Result<Option<usize>, NoMemory>
    ensures { IfOk result (λ p. p ≡ spot_begin bytes.now tokens.now (spot_of fault.now)) }
{
    match find_spot(fault) {
        Spot::Nowhere => Ok(None),
        Spot::Unread => unread(alloc, bytes, tokens),
        Spot::At(place) => Ok(begin(tokens, place)),
    }
}

// The place of a fault of a text that is not too long, before it is tested against the text's end.
fn begin_in(alloc: Global, bytes: &[u8], fault: &SpecFault) -> Result<Option<usize>, NoMemory>
    requires { length bytes.now ≤ 1048576 }
    ensures { IfOk result (λ p. p ≡ place_with bytes.now (tokens_of bytes.now) fault.now) }
{
    match lex(alloc, bytes) {
        Ok(tokens) => fault_begin(alloc, bytes, &tokens, fault),
        Err(error) => token_fault_place(error),
    }
}

/// The byte at which a fault of the text stands, if it stands at one.
#[tactic(auto, unfolding(crate::specs::Places::place_of))]
pub fn place(alloc: Global, bytes: &[u8], fault: &SpecFault) -> Result<Option<usize>, NoMemory>
    ensures value { IfOk result (λ p. p ≡ place_of bytes.now fault.now) }
    ensures there { IfOk result (λ p. IfSome p (IsPlaceIn bytes.now)) }
{
    if bytes.len() > TEXT_BYTES {
        return Ok(None);
    }
    match begin_in(alloc, bytes, fault)? {
        Some(at) => Ok(Some(at.min(bytes.len()))),
        None => Ok(None),
    }
}
