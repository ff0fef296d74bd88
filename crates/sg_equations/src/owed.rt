//! What the equations of an operator are to define.
ghost use Rattle.std.specs.Prelude.{◌≡◌, ◌<◌, ◌^◌, length};
ghost use Rattle.sg_kinds.specs.Typing.{slots_there};
ghost use Rattle.sg_names.specs.Drafted.{drafted};
ghost use Rattle.sg_equations.specs.Owed.{owes as owes_by};
ghost use Rattle.sg_equations.specs.Targets.{IsNarrow};

use sg_kinds::ids::OpId;
use sg_kinds::marks::Way;
use sg_kinds::spec::Occurrence;
use sg_names::names::Names;

/// How many slots an occurrence of an operator has: its attributes, and at the left side the locals behind them.
#[tactic(auto, using(crate::proofs::Places::few_slots))]
pub fn slot_count(names: &Names, op: OpId, at: u32) -> usize
    requires { IsNarrow names.now }
    ensures short { result < 2 ^ 32 }
    ensures count { result ≡ length (slots_there (drafted names.now) op at) }
{
    let attrs = match names.phylum_there(op, at) {
        Some(phylum) => names.attrs(phylum).len(),
        None => 0,
    };
    if at == 0 {
        attrs + names.locals(op).len()
    } else {
        attrs
    }
}

/// Whether the equations of an operator are to define an occurrence: a synthesized attribute or local of its left side,
/// or an inherited attribute of an argument.
pub fn owes(names: &Names, op: OpId, o: Occurrence) -> bool
    requires { IsNarrow names.now }
    ensures { result ≡ owes_by names.now op o }
{
    let Some(phylum) = names.phylum_there(op, o.at) else {
        return false;
    };
    match names.attrs(phylum).get(o.slot as usize) {
        Some(attr) => attr.far.len() == 0 && (attr.way == Way::Inherited) == (o.at != 0),
        None => o.at == 0 && (o.slot as usize) < slot_count(names, op, 0),
    }
}
