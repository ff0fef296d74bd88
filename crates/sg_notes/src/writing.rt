// The lines of notes.
ghost use Rattle.std.specs.Prelude.{◌≡◌, ◌≤◌, ◌++◌, List, flat_map, length, IfOk, IfSome, OnOk};
ghost use Rattle.sg_ast.specs.View.{trees_of};
ghost use Rattle.sg_names.specs.Meaning.{meaning};
ghost use Rattle.sg_place.specs.Points.{IsPoint};
ghost use Rattle.sg_notes.specs.Notes.{begin_in as begin_in_text, note_text, notes_text, remark as remark_of, remark_text};

use crate::places::places;
use crate::subjects::subject;
use sg_ast::decl::Decl;
use sg_kinds::fault::Position;
use sg_kinds::memory::NoMemory;
use sg_kinds::spec::Spec;
use sg_names::index::Index;
use sg_place::place::begin_within;
use sg_place::points::{Point, start};
use sg_place::shown::write_where_from;
use sg_text::Token;
use sg_useless::{Part, useless};
use std::alloc::Global;

fn remark(part: Part) -> &'static str
    ensures { result.now ≡ remark_of part }
{
    match part {
        Part::Function(_) => " is called by nothing but itself",
        Part::Attribute(..) | Part::Local(..) => " is read by no equation and shown by no scheme",
        Part::Phylum(_) => " is used by nothing but itself",
        Part::Nonterminal(_) => " is reached from no entry",
        Part::Schemes(_) => " are shown in no document",
        Part::Entry(_) => " may be selected and typed in, but has no entry",
        Part::Literal(..) => " groups no production",
    }
}

// Where the token of a position begins, if there is one.
fn begin_in(bytes: &[u8], tokens: &[Token], place: Option<Position>) -> Option<usize>
    ensures value { result ≡ begin_in_text bytes.now tokens.now place }
    ensures there { IfSome result (λ at. at ≤ length bytes.now) }
{
    begin_within(bytes, tokens, place?)
}

// Writes what is told of a part behind its place.
fn write_remark(out: &mut Vec<u8>, words: &[u8], part: Part) -> Result<(), NoMemory>
    ensures { OnOk result (out.new.items ≡ out.old.items ++ remark_text words.now part) }
{
    out.extend_from_slice(b": note ")?;
    out.extend_from_slice(words)?;
    out.extend_from_slice(remark(part).as_bytes())?;
    out.push(b'\n')?;
    Ok(())
}

// Writes the line of a note, its place counted from a known point on, and answers the last known point.
fn write_note(
    alloc: Global,
    out: &mut Vec<u8>,
    file: &[u8],
    bytes: &[u8],
    tokens: &[Token],
    places: &Index<Position>,
    spec: &Spec,
    part: Part,
    known: Point,
) -> Result<Point, NoMemory>
    requires { IsPoint bytes.now known }
    ensures text { OnOk result (out.new.items
        ≡ out.old.items ++ note_text file.now bytes.now tokens.now (meaning places.now) spec.now part) }
    ensures point { IfOk result (IsPoint bytes.now) }
{
    let words = subject(alloc, spec, part)?;
    let at = begin_in(bytes, tokens, places.get(&words));
    let here = write_where_from(alloc, out, file, bytes, at, known)?;
    write_remark(out, &words, part)?;
    Ok(here)
}

// Writes the lines of notes on these parts.
fn write_parts(
    alloc: Global,
    out: &mut Vec<u8>,
    file: &[u8],
    bytes: &[u8],
    tokens: &[Token],
    places: &Index<Position>,
    spec: &Spec,
    parts: &[Part],
) -> Result<(), NoMemory>
    ensures { OnOk result (out.new.items ≡ out.old.items
        ++ flat_map (note_text file.now bytes.now tokens.now (meaning places.now) spec.now) parts.now) }
{
    let mut known = start(bytes);
    for part in parts {
        known = write_note(alloc, out, file, bytes, tokens, places, spec, *part, known)?;
    }
    Ok(())
}

/// Writes the notes on the record of these declarations, whose text has this name, these bytes and these tokens: a line
/// for each part that nothing uses, and for each entry that is missed.
#[tactic(auto, using(crate::proofs::Found::same_places), unfolding(crate::specs::Notes::notes_text))]
pub fn write_notes(
    alloc: Global,
    out: &mut Vec<u8>,
    file: &[u8],
    bytes: &[u8],
    tokens: &[Token],
    decls: &[Decl],
    spec: &Spec,
) -> Result<(), NoMemory>
    ensures { OnOk result (out.new.items
        ≡ out.old.items ++ notes_text file.now bytes.now tokens.now (trees_of decls.now) spec.now) }
{
    let places = places(alloc, decls)?;
    let parts = useless(alloc, spec)?;
    write_parts(alloc, out, file, bytes, tokens, &places, spec, &parts)
}
