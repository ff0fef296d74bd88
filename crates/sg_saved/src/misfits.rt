//! The first subterm of a saved term that does not fit.
ghost use Rattle.std.specs.Prelude.{◌≡◌, ◌++◌, reverse, OnOk, IfOk, MatchOption};
ghost use Rattle.sg_saved_form.specs.Notes.{IsOutline, first_place};
ghost use Rattle.sg_saved.specs.Misfits.{EachFits, parts_of};
ghost use Rattle.sg_saved.specs.Read.{HasMisfit};
ghost use Rattle.sg_saved.specs.Heads.{AreNames};

use crate::heads::{args_of, head_at, head_fits};
use sg_kinds::ids::PhylumId;
use sg_kinds::memory::NoMemory;
use sg_kinds::spec::Spec;
use sg_names::index::Index;
use sg_names::table::Callable;
use sg_patterns::Matcher;
use sg_saved_form::Outline;
use std::alloc::Global;

/// Puts phyla on a stack, so that the first is on top.
fn push_all(stack: &mut Vec<PhylumId>, phyla: &[PhylumId]) -> Result<(), NoMemory>
    ensures { OnOk result (reverse stack.new.items ≡ phyla.now ++ reverse stack.old.items) }
{
    for k in (0..phyla.len()).rev() {
        stack.push(phyla[k])?;
    }
    Ok(())
}

/// The first byte of the first subterm of a file's term that does not fit the phylum that is wanted at its place.
pub fn first_misfit(
    alloc: Global,
    spec: &Spec,
    names: &Index<Callable>,
    bytes: &[u8],
    outline: &Outline,
) -> Result<Option<usize>, NoMemory>
    requires names { AreNames spec.now.ops names.now }
    requires file { IsOutline bytes.now outline.now }
    ensures { IfOk result (λ place. MatchOption place ((o : IsOutline bytes.now outline.now)
        → EachFits spec.now (parts_of spec.now spec.now.root first_place o.raw)) (HasMisfit spec.now bytes.now)) }
{
    let mut matcher = Matcher::new(alloc, spec.lexemes.as_slice())?;
    let mut wanted = Vec::new(alloc);
    wanted.push(spec.root)?;
    for note in outline.notes.iter() {
        let phylum = wanted.pop().unwrap_or(spec.root);
        let head = head_at(alloc, names, bytes, *note)?;
        if !head_fits(spec, &mut matcher, &head, phylum) {
            return Ok(Some(note.from as usize));
        }
        push_all(&mut wanted, args_of(spec, &head))?;
    }
    Ok(None)
}
