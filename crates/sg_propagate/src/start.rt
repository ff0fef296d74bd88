//! What a replacement does before any equation is looked at.
ghost use Rattle.std.specs.Prelude.{◌≡◌, ◌<◌, ◌^◌, ℕ, true, length, Some};
ghost use Rattle.sg_kinds.specs.Dependencies.{IsAttr};
ghost use Rattle.sg_kinds.specs.Specification.{attrs_of, is_inherited, rules_of};
ghost use Rattle.sg_dependencies.specs.Vertices.{AreInRange};
ghost use Rattle.sg_groves.specs.Grove.{nodes};
ghost use Rattle.sg_groves.specs.Stored.{number_at};
ghost use Rattle.sg_groves.specs.Unchanged.{OnlyStored};
ghost use Rattle.sg_propagate.specs.Moves.{IsSlotAt};
ghost use Rattle.sg_propagate.specs.Scenes.{AreTops};

use sg_forest::NodeId;
use sg_kinds::ids::PhylumId;
use sg_kinds::marks::Way;
use sg_kinds::row::item;
use sg_kinds::spec::Spec;
use sg_terms::Terms;

/// Whether an attribute of a phylum is inherited.
pub fn is_handed(spec: &Spec, phylum: PhylumId, slot: usize) -> bool
    ensures { result ≡ is_inherited spec.now.phyla phylum slot }
{
    let Some(phylum) = spec.phyla.place(phylum.number) else {
        return false;
    };
    let Some(attr) = phylum.attrs.as_slice().get(slot) else {
        return false;
    };
    attr.way == Way::Inherited
}

/// Puts the inherited values of the old top into the slots of the new one.
pub fn take_over(terms: &mut Terms, top: NodeId, left: NodeId)
    requires tops { AreTops terms.old top left }
    ensures stored { OnlyStored terms.old terms.new (IsSlotAt top) }
    ensures handed { (x : _) (slot : ℕ) → nodes terms.old top ≡ Some x
        → is_inherited terms.old.spec.phyla x.label.phylum slot ≡ true
        → IsAttr (rules_of terms.old.spec) x.label.phylum slot
        → number_at terms.new top slot ≡ number_at terms.old left slot }
{
    terms.facts();
    let phylum = terms.phylum(top);
    let count = attr_count(terms.spec(), phylum);
    for slot in 0..count {
        if is_handed(terms.spec(), phylum, slot) {
            let number = terms.stored(left, slot as u32);
            let _ = terms.store(top, slot as u32, number);
        }
    }
}

/// How many attributes a phylum has.
pub fn attr_count(spec: &Spec, phylum: PhylumId) -> usize
    requires phylum { phylum < length spec.now.phyla }
    requires range { AreInRange (rules_of spec.now) }
    ensures count { result ≡ length (attrs_of spec.now.phyla phylum) }
    ensures small { result < 2 ^ 32 }
{
    item(spec.phyla.as_slice(), phylum.number as usize)
        .attrs
        .len()
}
