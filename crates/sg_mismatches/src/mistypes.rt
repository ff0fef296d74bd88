// All mismatches with their types.
ghost use Rattle.std.specs.Prelude.{◌≡◌, ◌≤◌, ◌++◌, flat_map, length, IfOk, IfSome, OnOk, Ok};
ghost use Rattle.sg_text.specs.Tokens.{tokens_of};
ghost use Rattle.sg_ast.specs.View.{trees_of};
ghost use Rattle.sg_load.specs.Trees.{trees_in};
ghost use Rattle.sg_remote.specs.Longer.{names_of};
ghost use Rattle.sg_mistyped.specs.Mistyped.{mistypes as mistypes_of};
ghost use Rattle.sg_kinds.specs.Specification.{phylum_name};
ghost use Rattle.sg_place.specs.Points.{IsPoint};
ghost use Rattle.sg_mismatches.specs.Mistypes.{found_words, like_words, mistyped_text, place_text, spot_words, text_mistypes, types_text, wanted_words};

use sg_ast::decl::Decl;
use sg_kinds::decimal::write_number;
use sg_kinds::fault::Position;
use sg_kinds::ids::PhylumId;
use sg_kinds::limits::TEXT_BYTES;
use sg_kinds::memory::NoMemory;
use sg_load::declarations;
use sg_mistyped::{Mistyped, Wanted, mistypes};
use sg_names::names::Names;
use sg_place::place::begin_within;
use sg_place::points::{Point, moved, start};
use sg_remote::hide;
use sg_reports::symbols::phylum_name;
use sg_tables::tables::tables;
use sg_text::{Token, lex};
use std::alloc::Global;

// Writes the name of a phylum.
fn write_phylum(
    alloc: Global,
    out: &mut Vec<u8>,
    names: &Names,
    phylum: PhylumId,
) -> Result<(), NoMemory>
    ensures { OnOk result (out.new.items ≡ out.old.items ++ phylum_name names.now.phyla phylum) }
{
    let name = phylum_name(alloc, &names.table().phyla, phylum)?;
    out.extend_from_slice(name.as_slice())?;
    Ok(())
}

// Writes what compares with a type.
fn write_like(
    alloc: Global,
    out: &mut Vec<u8>,
    names: &Names,
    phylum: PhylumId,
) -> Result<(), NoMemory>
    ensures { OnOk result (out.new.items ≡ out.old.items ++ like_words names.now.phyla phylum) }
{
    out.extend_from_slice(b"what compares with ")?;
    write_phylum(alloc, out, names, phylum)?;
    Ok(())
}

fn write_wanted(
    alloc: Global,
    out: &mut Vec<u8>,
    names: &Names,
    wanted: Wanted,
) -> Result<(), NoMemory>
    ensures { OnOk result (out.new.items ≡ out.old.items ++ wanted_words names.now.phyla wanted) }
{
    match wanted {
        Wanted::One(phylum) => write_phylum(alloc, out, names, phylum),
        Wanted::Like(phylum) => write_like(alloc, out, names, phylum),
        Wanted::AnyList => out.extend_from_slice(b"a list"),
        Wanted::Any => out.extend_from_slice(b"a type"),
        Wanted::Unknown => out.extend_from_slice(b"an unknown type"),
    }
}

fn write_found(
    alloc: Global,
    out: &mut Vec<u8>,
    names: &Names,
    found: Option<PhylumId>,
) -> Result<(), NoMemory>
    ensures { OnOk result (out.new.items ≡ out.old.items ++ found_words names.now.phyla found) }
{
    match found {
        Some(phylum) => write_phylum(alloc, out, names, phylum),
        None => out.extend_from_slice(b"none"),
    }
}

// Writes the line of a position and the column at which its token begins, from a known column on, and answers this.
fn write_spot(
    alloc: Global,
    out: &mut Vec<u8>,
    bytes: &[u8],
    place: Position,
    at: Option<usize>,
    known: Point,
) -> Result<Point, NoMemory>
    requires known { IsPoint bytes.now known }
    requires there { IfSome at (λ at. at ≤ length bytes.now) }
    ensures text { OnOk result (out.new.items ≡ out.old.items ++ spot_words bytes.now place at) }
    ensures point { IfOk result (IsPoint bytes.now) }
{
    write_number(alloc, out, place.line as u64)?;
    let Some(at) = at else {
        return Ok(known);
    };
    let here = moved(bytes, known, at);
    out.push(b':')?;
    write_number(alloc, out, 1 + here.left as u64)?;
    Ok(here)
}

// Begins a line with a position and its column.
fn write_place(
    alloc: Global,
    out: &mut Vec<u8>,
    bytes: &[u8],
    place: Position,
    at: Option<usize>,
    known: Point,
) -> Result<Point, NoMemory>
    requires known { IsPoint bytes.now known }
    requires there { IfSome at (λ at. at ≤ length bytes.now) }
    ensures text { OnOk result (out.new.items ≡ out.old.items ++ place_text bytes.now place at) }
    ensures point { IfOk result (IsPoint bytes.now) }
{
    out.extend_from_slice(b"  ")?;
    write_spot(alloc, out, bytes, place, at, known)
}

// Ends it with what is wanted and what is there.
fn write_types(
    alloc: Global,
    out: &mut Vec<u8>,
    names: &Names,
    mistyped: &Mistyped,
) -> Result<(), NoMemory>
    ensures { OnOk result (out.new.items ≡ out.old.items ++ types_text names.now.phyla mistyped.now) }
{
    out.extend_from_slice(b": ")?;
    write_wanted(alloc, out, names, mistyped.wanted)?;
    out.extend_from_slice(b" is wanted, ")?;
    write_found(alloc, out, names, mistyped.found)?;
    out.extend_from_slice(b" is there\n")?;
    Ok(())
}

// Writes a line for a mismatch.
fn write_mistyped(
    alloc: Global,
    out: &mut Vec<u8>,
    bytes: &[u8],
    tokens: &[Token],
    names: &Names,
    mistyped: &Mistyped,
    known: Point,
) -> Result<Point, NoMemory>
    requires { IsPoint bytes.now known }
    ensures text { OnOk result (out.new.items
        ≡ out.old.items ++ mistyped_text bytes.now tokens.now names.now.phyla mistyped.now) }
    ensures point { IfOk result (IsPoint bytes.now) }
{
    let at = begin_within(bytes, tokens, mistyped.place);
    let here = write_place(alloc, out, bytes, mistyped.place, at, known)?;
    write_types(alloc, out, names, mistyped)?;
    Ok(here)
}

// The same of each of these.
fn lines(
    alloc: Global,
    bytes: &[u8],
    tokens: &[Token],
    names: &Names,
    found: &[Mistyped],
) -> Result<Vec<u8>, NoMemory>
    ensures { IfOk result (λ v. v.items ≡ flat_map (mistyped_text bytes.now tokens.now names.now.phyla) found.now) }
{
    let mut out = Vec::new(alloc);
    let mut known = start(bytes);
    for mistyped in found {
        known = write_mistyped(alloc, &mut out, bytes, tokens, names, mistyped, known)?;
    }
    Ok(out)
}

// The names of declarations, with those of enclosing nodes.
fn names(alloc: Global, decls: &[Decl]) -> Result<Names, NoMemory>
    ensures { IfOk result (λ names. names ≡ names_of (trees_of decls.now)) }
{
    hide(alloc, decls, tables(alloc, decls)?)
}

// All mismatches of declarations with these names, as lines.
fn declared(
    alloc: Global,
    bytes: &[u8],
    tokens: &[Token],
    names: &Names,
    decls: &[Decl],
) -> Result<Vec<u8>, NoMemory>
    ensures { IfOk result (λ v. v.items ≡ flat_map (mistyped_text bytes.now tokens.now names.now.phyla)
        (mistypes_of names.now (trees_of decls.now))) }
{
    let found = mistypes(alloc, names, decls)?;
    lines(alloc, bytes, tokens, names, &found)
}

// All mismatches of a text with these tokens and declarations.
fn read_mistyped(
    alloc: Global,
    bytes: &[u8],
    tokens: &[Token],
    decls: &[Decl],
) -> Result<Vec<u8>, NoMemory>
    requires tokens { tokens_of bytes.now ≡ Ok tokens.now }
    requires trees { trees_in bytes.now ≡ Ok (trees_of decls.now) }
    ensures { IfOk result (λ v. v.items ≡ text_mistypes bytes.now) }
{
    let names = names(alloc, decls)?;
    declared(alloc, bytes, tokens, &names, decls)
}

/// All mismatches of a text with declarations, as lines.
pub fn mistyped(alloc: Global, bytes: &[u8]) -> Result<Vec<u8>, NoMemory>
    ensures { IfOk result (λ v. v.items ≡ text_mistypes bytes.now) }
{
    if bytes.len() > TEXT_BYTES {
        return Err(NoMemory);
    }
    // A text whose verdict is a mismatch has tokens and declarations.
    let Ok(decls) = declarations(alloc, bytes) else {
        return Err(NoMemory);
    };
    match lex(alloc, bytes) {
        Ok(tokens) => read_mistyped(alloc, bytes, &tokens, &decls),
        Err(_) => Err(NoMemory),
    }
}
