//! The transformations that apply at the selection.
ghost use Rattle.std.specs.Prelude.{◌≡◌, ℕ, bytes_eq, nat_eq, IfOk, OnOk};
ghost use Rattle.std.specs.List.{list_any};
ghost use Rattle.sg_kinds.specs.Fits.{Fits};
ghost use Rattle.sg_kinds.specs.Terms.{Term as IsTerm};
ghost use Rattle.sg_kinds.specs.ValueOf.{value_of};
ghost use Rattle.sg_forest.specs.Trees.{IsLive};
ghost use Rattle.sg_groves.specs.Grove.{nodes};
ghost use Rattle.sg_groves.specs.Holds.{Holds};
ghost use Rattle.sg_buffer.specs.Held.{state_of};
ghost use Rattle.sg_editor.specs.Editing.{session_of, spec_in};
ghost use Rattle.sg_live.specs.Offers.{names_for, names_of, offered_in, offers, with_name};

use sg_buffer::Buffer;
use sg_editor::Editor;
use sg_forest::NodeId;
use sg_kinds::ids::{PatternId, PhylumId};
use sg_kinds::memory::NoMemory;
use sg_kinds::spec::Transform;
use sg_matching::matches;
use sg_terms::Terms;
use std::alloc::Global;

// whether a transformation stands on a phylum
fn stands_on(x: &Transform, p: PhylumId) -> bool
    ensures { result ≡ nat_eq x.now.phylum p }
{
    x.phylum == p
}

// whether a name is among them
fn is_among(names: &[&[u8]], name: &[u8]) -> bool
    ensures { result ≡ list_any (λ other. bytes_eq name.now other.now) names.now }
{
    names.iter().any(|other| name == *other)
}

// a name more, unless it is among them
fn add_name<'a>(names: &mut Vec<&'a [u8]>, name: &'a [u8]) -> Result<(), NoMemory>
    ensures { OnOk result (names_of names.new.items ≡ with_name (names_of names.old.items) name.now) }
{
    if is_among(names, name) {
        return Ok(());
    }
    names.push(name)?;
    Ok(())
}

// the names of the transformations that stand on a node's phylum and whose pattern matches the term under it
fn names_at<'a>(alloc: Global, terms: &'a Terms, at: NodeId) -> Result<Vec<&'a [u8]>, NoMemory>
    requires { IsLive (nodes terms.now) at }
    ensures { (p : ℕ) (t : IsTerm) → Holds terms.now at t → Fits terms.now.spec t p
        → IfOk result (λ names. names_of names.items ≡ names_for terms.now.spec p (value_of t)) }
{
    terms.facts();
    let p = terms.phylum(at);
    let mut names = Vec::new(alloc);
    for (k, x) in terms.spec().transforms.as_slice().iter().enumerate() {
        if !stands_on(x, p) {
            continue;
        }
        if !matches(terms, PatternId { number: k as u32 }, at) {
            continue;
        }
        add_name(&mut names, x.name.as_slice())?;
    }
    Ok(names)
}

// those that apply at the selected node of a buffer
fn names_in(alloc: Global, buffer: &Buffer) -> Result<Vec<&[u8]>, NoMemory>
    ensures { IfOk result (λ names. names_of names.items ≡ offered_in buffer.now.grove.spec (state_of buffer.now)) }
{
    buffer.facts();
    if buffer.captured().is_some() {
        return Ok(Vec::new(alloc));
    }
    if buffer.count() != 1 {
        return Ok(Vec::new(alloc));
    }
    names_at(alloc, buffer.terms(), buffer.selected())
}

/// The names of the transformations that apply at the selected node, in the order of the specification and each once.
/// There are none where there is no buffer, while a text is typed, and where several elements are selected.
pub fn offers(alloc: Global, editor: &Editor) -> Result<Vec<&[u8]>, NoMemory>
    ensures { IfOk result (λ names. names_of names.items ≡ offers (spec_in editor.now) (session_of editor.now)) }
{
    match editor.current() {
        Some(buffer) => names_in(alloc, buffer),
        None => Ok(Vec::new(alloc)),
    }
}
