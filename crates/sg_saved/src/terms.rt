//! The term of a saved file, which is made in one walk over its notes.
ghost use Rattle.std.specs.Prelude.{◌≡◌, ◌≤◌, ◌∷◌, ◌++◌, [], ℕ, List, drop, OnOk};
ghost use Rattle.sg_kinds.specs.Terms.{kids_of};
ghost use Rattle.sg_saved_form.specs.Files.{Raw};
ghost use Rattle.sg_saved_form.specs.Notes.{IsOutline, first_place, height_of};
ghost use Rattle.sg_saved_form.specs.declared.notes.Note.{Note};
ghost use Rattle.sg_saved.specs.Ahead.{IsAhead, IsReadAs, term_over};
ghost use Rattle.sg_saved.specs.Heads.{AreNames};

use crate::heads::{Head, args_of, head_at, head_fits};
use crate::reading::OpenFault;
use sg_kinds::ids::{OpId, PhylumId};
use sg_kinds::memory::NoMemory;
use sg_kinds::spec::Spec;
use sg_kinds::term::{Term, Terms0};
use sg_names::index::Index;
use sg_names::table::Callable;
use sg_patterns::Matcher;
use sg_saved_form::Outline;
use std::alloc::Global;

/// What a term is read from: a specification, the operators by their names, the bytes of a file, and its notes.
#[derive(Clone, Copy)]
pub struct Source<'a> {
    pub alloc: Global,
    pub spec: &'a Spec,
    pub names: &'a Index<Callable>,
    pub bytes: &'a [u8],
    pub outline: &'a Outline,
}

/// The plain term of a head over those of its children.
fn term_over(head: Head, wanted: PhylumId, kids: Terms0) -> Term
    ensures { result ≡ term_over head wanted (kids_of kids.items) }
{
    match head {
        Head::Node(op, _) => Term::plain(op.unwrap_or(OpId { number: 0 }), kids),
        Head::Leaf(value) => Term::leaf(wanted, value),
    }
}

/// Puts a term behind others.
fn push_kid(kids: &mut Terms0, kid: Term) -> Result<(), NoMemory>
    ensures { OnOk result (kids.new.items ≡ kids.old.items ++ kid ∷ []) }
{
    kids.push(kid)?;
    Ok(())
}

/// The plain term of the subterm at the next note, which is at most so deep, where each of its subterms fits the phylum
/// that is wanted at its place; else the place of the first that does not.
fn term_at(
    source: &Source,
    matcher: &mut Matcher,
    next: &mut usize,
    wanted: PhylumId,
    room: usize,
) -> Result<Term, OpenFault>
    requires ready { matcher.old ≡ source.now.spec.now.lexemes }
    requires names { AreNames source.now.spec.now.ops source.now.names.now }
    requires ahead { (at : ℕ) × (r : Raw) × (behind : List Note)
        × IsAhead source.now.bytes.now source.now.outline.now.notes.items next.old at r behind × (height_of r ≤ room) }
    ensures read { (at : ℕ) (r : Raw) (behind : List Note)
        → IsAhead source.now.bytes.now source.now.outline.now.notes.items next.old at r behind
        → IsReadAs source.now.spec.now wanted at r result }
    ensures next { (at : ℕ) (r : Raw) (behind : List Note)
        → IsAhead source.now.bytes.now source.now.outline.now.notes.items next.old at r behind
        → OnOk result (drop next.new source.now.outline.now.notes.items ≡ behind) }
    ensures same { matcher.new ≡ matcher.old }
{
    let note = source.outline.notes[*next];
    let head = head_at(source.alloc, source.names, source.bytes, note)?;
    if !head_fits(source.spec, matcher, &head, wanted) {
        return Err(OpenFault::Phylum(note.from as usize));
    }
    *next += 1;
    let args = args_of(source.spec, &head);
    let mut kids = Vec::with_capacity(source.alloc, args.len())?;
    for phylum in args {
        let kid = term_at(source, matcher, next, *phylum, room - 1)?;
        push_kid(&mut kids, kid)?;
    }
    Ok(term_over(head, wanted, kids))
}

/// The plain term of a file, where each subterm fits the phylum that is wanted at its place; else the place of the first
/// that does not.
pub fn term_in(source: &Source) -> Result<Term, OpenFault>
    requires names { AreNames source.now.spec.now.ops source.now.names.now }
    requires file { IsOutline source.now.bytes.now source.now.outline.now }
    ensures { (o : IsOutline source.now.bytes.now source.now.outline.now)
        → IsReadAs source.now.spec.now source.now.spec.now.root first_place o.raw result }
{
    let mut matcher = Matcher::new(source.alloc, source.spec.lexemes.as_slice())?;
    let mut next = 0;
    let depth = source.outline.depth;
    term_at(source, &mut matcher, &mut next, source.spec.root, depth)
}
