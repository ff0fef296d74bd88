// Where the reading of a declaration stops, and what mends it there.
ghost use Rattle.std.specs.Prelude.{◌≡◌, [], ◌∷◌, ◌++◌, drop, flat_map, IfOk, IfSome, OnOk, Ok};
ghost use Rattle.sg_text.specs.Tokens.{tokens_of};
ghost use Rattle.sg_place.specs.Places.{IsPlaceIn};
ghost use Rattle.sg_stops.specs.Stops.{TellsStop, TellsStopAt, choice_text, end_of, first_of, from_of, mends_pieces, mends_words, or_piece, past_text, piece_word, stop_text, to_of};

use sg_kinds::limits::TEXT_BYTES;
use sg_kinds::memory::NoMemory;
use sg_mends::{Mends, Piece, mends, stop};
use sg_place::shown::write_shown_at;
use sg_text::{Token, declaration_len, lex};
use std::alloc::Global;

// The most pieces that are told besides the first.
const MOST_OTHERS: usize = 7;

// The first declaration of tokens.
#[tactic(auto, using(sg_place::proofs::Declarations::declaration_within), unfolding(crate::specs::Stops::first_of))]
fn first(tokens: &[Token]) -> &[Token]
    ensures { result.now ≡ first_of tokens.now }
{
    let (first, _) = tokens.split_at(declaration_len(tokens));
    first
}

// The byte behind the last token.
#[tactic(auto, unfolding(crate::specs::Stops::end_of))]
fn end(tokens: &[Token]) -> usize
    ensures { result ≡ end_of tokens.now }
{
    match tokens.last() {
        Some(token) => token.to,
        None => 0,
    }
}

// The token behind so many others from its first byte to before its last; behind the last one nothing.
#[tactic(auto, unfolding(crate::specs::Stops::from_of, crate::specs::Stops::to_of))]
fn span(tokens: &[Token], at: usize) -> (usize, usize)
    ensures from { result.0 ≡ from_of tokens.now at }
    ensures to { result.1 ≡ to_of tokens.now at }
{
    match tokens.get(at) {
        Some(token) => (token.from, token.to),
        None => (end(tokens), end(tokens)),
    }
}

fn write_quoted(out: &mut Vec<u8>, bytes: &[u8]) -> Result<(), NoMemory>
    ensures { OnOk result (out.new.items ≡ out.old.items ++ 96 ∷ bytes.now ++ 96 ∷ []) }
{
    out.push(b'`')?;
    out.extend_from_slice(bytes)?;
    out.push(b'`')?;
    Ok(())
}

fn write_piece(out: &mut Vec<u8>, piece: Piece) -> Result<(), NoMemory>
    ensures { OnOk result (out.new.items ≡ out.old.items ++ piece_word piece) }
{
    match piece {
        Piece::Sign(_) | Piece::Word(_) => write_quoted(out, piece.bytes()),
        Piece::Name => out.extend_from_slice(b"a name"),
        Piece::Number => out.extend_from_slice(b"a number"),
        Piece::Text => out.extend_from_slice(b"a string"),
        Piece::Literal => out.extend_from_slice(b"a literal"),
    }
}

// Some pieces, each behind an `or`.
fn write_others(out: &mut Vec<u8>, pieces: &[Piece]) -> Result<(), NoMemory>
    ensures { OnOk result (out.new.items ≡ out.old.items ++ flat_map or_piece pieces.now) }
{
    for piece in pieces {
        out.extend_from_slice(b" or ")?;
        write_piece(out, *piece)?;
    }
    Ok(())
}

// The first pieces, as a choice.
#[tactic(auto, using(std::proofs::lemmas::List::take_min))]
fn write_choice(out: &mut Vec<u8>, pieces: &[Piece]) -> Result<(), NoMemory>
    ensures { OnOk result (out.new.items ≡ out.old.items ++ choice_text pieces.now) }
{
    match pieces {
        [] => Ok(()),
        [piece, others @ ..] => {
            out.push(b' ')?;
            write_piece(out, *piece)?;
            write_others(out, &others[..MOST_OTHERS.min(others.len())])
        }
    }
}

fn write_past(out: &mut Vec<u8>, pieces: &[Piece]) -> Result<(), NoMemory>
    ensures { OnOk result (out.new.items ≡ out.old.items ++ past_text pieces.now) }
{
    match pieces {
        [] => Ok(()),
        [_, ..] => {
            out.extend_from_slice(b"; here may stand")?;
            write_choice(out, pieces)
        }
    }
}

// What mends it, up to the pieces.
fn words(mends: &Mends) -> &'static str
    ensures { result.now ≡ mends_words mends.now }
{
    match mends {
        Mends::PutIn(_) => "mend: put in",
        Mends::TakeOut => "mend: take this out",
        Mends::Instead(_) => "mend: write instead",
        Mends::Past(_) => "no one token mends it",
        Mends::Untried => "no mend is tried in a declaration of over 65,536 bytes",
    }
}

// The pieces behind it.
fn write_pieces(out: &mut Vec<u8>, mends: &Mends) -> Result<(), NoMemory>
    ensures { OnOk result (out.new.items ≡ out.old.items ++ mends_pieces mends.now) }
{
    match mends {
        Mends::PutIn(pieces) | Mends::Instead(pieces) => write_choice(out, pieces.as_slice()),
        Mends::Past(pieces) => write_past(out, pieces.as_slice()),
        Mends::TakeOut | Mends::Untried => Ok(()),
    }
}

// The line at which reading stops, with a caret below it, and what mends it.
fn stop_lines(alloc: Global, bytes: &[u8], at: usize, mends: &Mends) -> Result<Vec<u8>, NoMemory>
    requires { IsPlaceIn bytes.now at }
    ensures { IfOk result (λ v. v.items ≡ stop_text bytes.now at mends.now) }
{
    let mut out = Vec::new(alloc);
    out.extend_from_slice(b"reading stops here:\n")?;
    write_shown_at(alloc, &mut out, bytes, at)?;
    out.extend_from_slice(words(mends).as_bytes())?;
    write_pieces(&mut out, mends)?;
    out.push(b'\n')?;
    Ok(out)
}

// What is told of the declaration that begins at a byte, behind which the text has these tokens.
fn told(alloc: Global, bytes: &[u8], at: usize, tokens: &[Token]) -> Result<Vec<u8>, NoMemory>
    requires place { IsPlaceIn bytes.now at }
    requires tokens { tokens_of (drop at bytes.now) ≡ Ok tokens.now }
    ensures { IfOk result (λ v. TellsStop bytes.now at v.items) }
{
    let text = &bytes[at..];
    let declaration = first(tokens);
    // A text has no more tokens than bytes.
    if declaration.len() > TEXT_BYTES {
        return Err(NoMemory);
    }
    let number = stop(alloc, text, declaration)?;
    let (from, to) = span(declaration, number);
    let found = mends(alloc, &text[..end(declaration)], from, to)?;
    stop_lines(alloc, bytes, at + from, &found)
}

/// Where the reading of the declaration that begins at a place stops, and what mends it there, as lines.
pub fn stops(alloc: Global, bytes: &[u8], place: Option<usize>) -> Result<Vec<u8>, NoMemory>
    requires { IfSome place (IsPlaceIn bytes.now) }
    ensures { IfOk result (λ v. TellsStopAt bytes.now place v.items) }
{
    // A text whose verdict is that a declaration has no reading has its place, and tokens from there on.
    let Some(at) = place else {
        return Err(NoMemory);
    };
    match lex(alloc, &bytes[at..]) {
        Ok(tokens) => told(alloc, bytes, at, &tokens),
        Err(_) => Err(NoMemory),
    }
}
