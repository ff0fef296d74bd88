//! What is told of the names of declarations: what a name means, and what first stood where a second one stands.
ghost use Rattle.std.specs.Prelude.{◌≡◌, ◌++◌, filter, flat_map, IfOk, OnOk};
ghost use Rattle.sg_ast.specs.View.{trees_of};
ghost use Rattle.sg_known.specs.Things.{things as all_things};
ghost use Rattle.sg_known.specs.Known.{before_text, first_lines, first_text, given_text, head_text, is_alike as is_alike_as, is_aside as is_aside_kind, is_base as is_base_name, is_builtin as is_builtin_name, is_given as is_given_thing, is_meaning as is_meaning_of, is_there as is_there_at, kind_words, meaning_lines, name_text, space_of, thing_text};

use crate::things::{Kind, Thing, things};
use sg_ast::decl::Decl;
use sg_kinds::decimal::write_number;
use sg_kinds::fault::Position;
use sg_kinds::memory::NoMemory;
use std::alloc::Global;

// The most meanings of a name that are told.
const MOST_TOLD: usize = 8;

// The number of the space in which a name of this kind stands once.
fn space(kind: Kind) -> u8
    ensures { result ≡ space_of kind }
{
    match kind {
        Kind::Phylum | Kind::Lexeme | Kind::Nonterminal => 0,
        Kind::Operator | Kind::Function => 1,
        Kind::Parameter => 2,
        Kind::Attribute => 3,
        Kind::Local => 4,
        Kind::Listing => 5,
        Kind::Schemes => 6,
        Kind::Literal => 7,
        Kind::Entry => 8,
    }
}

fn words(kind: Kind) -> &'static str
    ensures { result.now ≡ kind_words kind }
{
    match kind {
        Kind::Phylum => " is a phylum",
        Kind::Lexeme => " is a lexeme",
        Kind::Nonterminal => " is a nonterminal",
        Kind::Operator => " is an operator of ",
        Kind::Function => " is a function",
        Kind::Parameter => " is a parameter of ",
        Kind::Attribute => " is an attribute of ",
        Kind::Local => " is a local of ",
        Kind::Listing => " is said to be a list or optional",
        Kind::Schemes => " has schemes as an operator of ",
        Kind::Literal => " has a level",
        Kind::Entry => " has an entry",
    }
}

// Writes a name, a literal between quotes.
fn write_name(out: &mut Vec<u8>, thing: &Thing) -> Result<(), NoMemory>
    ensures { OnOk result (out.new.items ≡ out.old.items ++ name_text thing.now) }
{
    if thing.kind == Kind::Literal {
        out.push(b'\'')?;
        out.extend_from_slice(thing.name.as_slice())?;
        out.push(b'\'')?;
        Ok(())
    } else {
        out.extend_from_slice(thing.name.as_slice())?;
        Ok(())
    }
}

// Writes a line for a name that is declared.
fn write_thing(alloc: Global, out: &mut Vec<u8>, thing: &Thing) -> Result<(), NoMemory>
    ensures { OnOk result (out.new.items ≡ out.old.items ++ thing_text thing.now) }
{
    out.extend_from_slice(b"  ")?;
    write_name(out, thing)?;
    out.extend_from_slice(words(thing.kind).as_bytes())?;
    out.extend_from_slice(thing.owner.as_slice())?;
    out.extend_from_slice(b", line ")?;
    write_number(alloc, out, thing.place.line as u64)?;
    out.push(b'\n')?;
    Ok(())
}

fn write_things(alloc: Global, out: &mut Vec<u8>, things: &[Thing]) -> Result<(), NoMemory>
    ensures { OnOk result (out.new.items ≡ out.old.items ++ flat_map thing_text things.now) }
{
    for thing in things {
        write_thing(alloc, out, thing)?;
    }
    Ok(())
}

// Whether a name means nothing by being declared so.
fn is_aside(kind: Kind) -> bool
    ensures { result ≡ is_aside_kind kind }
{
    match kind {
        Kind::Listing | Kind::Schemes | Kind::Literal | Kind::Entry => true,
        Kind::Phylum
        | Kind::Lexeme
        | Kind::Nonterminal
        | Kind::Operator
        | Kind::Function
        | Kind::Parameter
        | Kind::Attribute
        | Kind::Local => false,
    }
}

fn is_meaning(name: &[u8], thing: &Thing) -> bool
    ensures { result ≡ is_meaning_of name.now thing.now }
{
    name == thing.name.as_slice() && !is_aside(thing.kind)
}

// Leaves what is declared under a name.
fn keep_meanings(things: &mut Vec<Thing>, name: &[u8])
    ensures { things.new.items ≡ filter (is_meaning_of name.now) things.old.items }
{
    things.retain(|thing| is_meaning(name, thing));
}

/// A line for each thing that is declared under a name, the first eight.
#[tactic(auto, using(std::proofs::lemmas::List::take_min))]
pub fn meanings(alloc: Global, decls: &[Decl], name: &[u8]) -> Result<Vec<u8>, NoMemory>
    ensures { IfOk result (λ v. v.items ≡ meaning_lines (trees_of decls.now) name.now) }
{
    let mut found = things(alloc, decls)?;
    keep_meanings(&mut found, name);
    let mut out = Vec::new(alloc);
    write_things(alloc, &mut out, &found[..MOST_TOLD.min(found.len())])?;
    Ok(out)
}

fn is_there(place: Position, thing: &Thing) -> bool
    ensures { result ≡ is_there_at place thing.now }
{
    thing.place.token == place.token
}

// Whether a second one of two may not be.
fn is_alike(a: &Thing, b: &Thing) -> bool
    ensures { result ≡ is_alike_as a.now b.now }
{
    let space = space(a.kind);
    space == self::space(b.kind)
        && (a.name.as_slice() == b.name.as_slice()
            && (space <= 1
                || a.owner.as_slice() == b.owner.as_slice()
                    && a.within.as_slice() == b.within.as_slice()))
}

fn is_base(name: &[u8]) -> bool
    ensures { result ≡ is_base_name name.now }
{
    name == b"BOOL".as_slice() || (name == b"INT".as_slice() || name == b"STR".as_slice())
}

fn is_builtin(name: &[u8]) -> bool
    ensures { result ≡ is_builtin_name name.now }
{
    name == b"STRtoINT".as_slice()
        || (name == b"INTtoSTR".as_slice() || name == b"STRlen".as_slice())
}

fn is_given(thing: &Thing) -> bool
    ensures { result ≡ is_given_thing thing.now }
{
    let space = space(thing.kind);
    space == 0 && is_base(thing.name.as_slice()) || space == 1 && is_builtin(thing.name.as_slice())
}

fn write_given(out: &mut Vec<u8>, name: &[u8]) -> Result<(), NoMemory>
    ensures { OnOk result (out.new.items ≡ out.old.items ++ given_text name.now) }
{
    out.extend_from_slice(b"  ")?;
    out.extend_from_slice(name)?;
    out.extend_from_slice(b" is there before each text\n")?;
    Ok(())
}

// Leaves what is declared at a place.
fn keep_there(things: &mut Vec<Thing>, place: Position)
    ensures { things.new.items ≡ filter (is_there_at place) things.old.items }
{
    things.retain(|thing| is_there(place, thing));
}

// Leaves the things of which there may not be two with this one.
fn keep_alike(things: &mut Vec<Thing>, thing: &Thing)
    ensures { things.new.items ≡ filter (is_alike_as thing.now) things.old.items }
{
    things.retain(|other| is_alike(thing, other));
}

// Writes the first of some things.
fn write_head(alloc: Global, out: &mut Vec<u8>, things: &[Thing]) -> Result<(), NoMemory>
    ensures { OnOk result (out.new.items ≡ out.old.items ++ head_text things.now) }
{
    match things {
        [thing, ..] => write_thing(alloc, out, thing),
        [] => Ok(()),
    }
}

// What stood before this thing, where there may not be two.
#[tactic(auto, unfolding(crate::specs::Known::before_text))]
fn before(alloc: Global, decls: &[Decl], thing: &Thing) -> Result<Vec<u8>, NoMemory>
    ensures { IfOk result (λ v. v.items ≡ before_text (all_things (trees_of decls.now)) thing.now) }
{
    let mut out = Vec::new(alloc);
    if is_given(thing) {
        write_given(&mut out, thing.name.as_slice())?;
        return Ok(out);
    }
    let mut alike = things(alloc, decls)?;
    keep_alike(&mut alike, thing);
    write_head(alloc, &mut out, &alike)?;
    Ok(out)
}

// The same of the first of some things.
fn head_before(alloc: Global, decls: &[Decl], there: &[Thing]) -> Result<Vec<u8>, NoMemory>
    ensures { IfOk result (λ v. v.items ≡ first_text (all_things (trees_of decls.now)) there.now) }
{
    match there {
        [thing, ..] => before(alloc, decls, thing),
        [] => Ok(Vec::new(alloc)),
    }
}

/// A line for what is declared first as the thing at this place is, of the same name.
pub fn first(alloc: Global, decls: &[Decl], place: Position) -> Result<Vec<u8>, NoMemory>
    ensures { IfOk result (λ v. v.items ≡ first_lines (trees_of decls.now) place) }
{
    let mut there = things(alloc, decls)?;
    keep_there(&mut there, place);
    head_before(alloc, decls, &there)
}
