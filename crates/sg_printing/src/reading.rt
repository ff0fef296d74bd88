// The printed value of an attribute.
ghost use Rattle.std.specs.Prelude.{◌≡◌, IfOk, option_map};
ghost use Rattle.sg_kinds.specs.Fits.{Fits};
ghost use Rattle.sg_kinds.specs.Places.{Place, place_of};
ghost use Rattle.sg_kinds.specs.Specification.{attrs_of};
ghost use Rattle.sg_kinds.specs.Terms.{Term as ATerm};
ghost use Rattle.sg_forest.specs.declared.node_id.NodeId.{NodeId as Id};
ghost use Rattle.sg_forest.specs.Trees.{IsLive};
ghost use Rattle.sg_groves.specs.Grove.{nodes};
ghost use Rattle.sg_groves.specs.Holds.{Holds};
ghost use Rattle.sg_buffer.specs.Held.{state_of};
ghost use Rattle.sg_printing.specs.At.{IsAt};
ghost use Rattle.sg_printing.specs.Shown.{text_at, shown};

use crate::printed::{Form, printed};
use sg_buffer::Buffer;
use sg_forest::NodeId;
use sg_kinds::memory::NoMemory;
use sg_kinds::spec::{Attr, Spec};
use sg_select::node_along;
use sg_terms::Terms;
use std::alloc::Global;

/// The attributes of a phylum, none of a number out of range.
pub fn attrs_of(spec: &Spec, p: u32) -> &[Attr]
    ensures { result.now ≡ attrs_of spec.now.phyla p }
{
    match spec.phyla.place(p) {
        Some(phylum) => phylum.attrs.as_slice(),
        None => &[],
    }
}

/// The number of the phylum of a node's term.
pub fn phylum_number(terms: &Terms, n: NodeId) -> u32
    requires { IsLive (nodes terms.now) n }
    ensures { (x : ATerm) → Holds terms.now n x → Fits terms.now.spec x result }
{
    terms.phylum(n).number
}

/// The printed from-scratch value of an attribute, inherited or synthesized, of a node of a whole term, by its slot; a
/// leaf's own value is slot 0. None exactly where the node has no such attribute, or where on a page it would be a
/// tree.
pub fn text_at(
    alloc: Global,
    terms: &Terms,
    n: NodeId,
    slot: u32,
    form: Form,
) -> Result<Option<Vec<u8>>, NoMemory>
    requires { (root : Id) × (t : ATerm) × (u : Place) × (x : ATerm) × IsAt terms.now root n t u x }
    ensures { (root : Id) (t : ATerm) (u : Place) (x : ATerm) → IsAt terms.now root n t u x
        → IfOk result (λ o. option_map (λ s. s.items) o ≡ text_at terms.now.spec form t u slot x) }
{
    terms.facts();
    let p = phylum_number(terms, n);
    let attrs = attrs_of(terms.spec(), p);
    let Some(attr) = attrs.get(slot as usize) else {
        return Ok(None);
    };
    let id = terms.stored(n, slot);
    printed(alloc, terms.spec(), attr.of, terms.pool(), id, form)
}

/// The same at the node to which a path of child numbers leads from the root of a buffer's term, as on a page. None
/// exactly where no node is there, or it has no such attribute, or the value is a tree.
#[tactic(auto, unfolding(crate::specs::Shown::shown))]
pub fn shown(
    alloc: Global,
    buffer: &Buffer,
    path: &[u32],
    slot: u32,
) -> Result<Option<Vec<u8>>, NoMemory>
    ensures { IfOk result (λ o. option_map (λ s. s.items) o
        ≡ shown buffer.now.grove.spec (state_of buffer.now).term (place_of path.now) slot) }
{
    buffer.facts();
    match node_along(buffer.terms(), buffer.root(), path) {
        Some(n) => text_at(alloc, buffer.terms(), n, slot, Form::Page),
        None => Ok(None),
    }
}
