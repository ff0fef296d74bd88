//! Nodes without an enclosing node of a listed phylum.
ghost use Rattle.std.specs.Prelude.{◌≡◌, IfOk, OnOk};
ghost use Rattle.sg_ast.specs.View.{trees_of};
ghost use Rattle.sg_remote.specs.Bearing as bearing;
ghost use Rattle.sg_remote.specs.NoEnclosing as spec;
ghost use Rattle.sg_remote.specs.NoEnclosing.{IsNoEnclosing};

use crate::atoms::{Atom, atoms};
use crate::edges::opened;
use crate::lists::key_of;
use crate::reach::flag;
use indexmap::IndexMap;
use sg_ast::decl::Decl;
use sg_kinds::fault::SpecFault;
use sg_kinds::ids::PhylumId;
use sg_kinds::memory::NoMemory;
use sg_kinds::spec::Far;
use sg_names::names::Names;
use std::alloc::Global;

/// Whether a phylum is open to a list, from what is known of lists, which is kept.
fn is_open(
    alloc: Global,
    names: &Names,
    known: &mut IndexMap<Vec<(u32, u32)>, Vec<bool>>,
    list: &[Far],
    phylum: PhylumId,
) -> Result<bool, NoMemory>
    requires { spec.AreOpened names.now known.now.entries }
    ensures open { IfOk result (λ b. b ≡ bearing.is_open names.now list.now phylum) }
    ensures known { OnOk result (spec.AreOpened names.now known.new.entries) }
{
    let key = key_of(alloc, list)?;
    if let Some(flags) = known.get(key.as_slice()) {
        return Ok(flag(flags, phylum.number));
    }
    let flags = opened(alloc, names, list)?;
    let open = flag(&flags, phylum.number);
    known.insert(key, flags)?;
    Ok(open)
}

/// Whether a reference stands in the equations of an operator whose phylum is open to its list.
fn is_bare(
    alloc: Global,
    names: &Names,
    known: &mut IndexMap<Vec<(u32, u32)>, Vec<bool>>,
    atom: &Atom,
) -> Result<bool, NoMemory>
    requires { spec.AreOpened names.now known.now.entries }
    ensures bare { IfOk result (λ b. b ≡ spec.is_bare names.now atom.now) }
    ensures known { OnOk result (spec.AreOpened names.now known.new.entries) }
{
    match names.table().ops.place(atom.op.number) {
        Some(operator) => is_open(alloc, names, known, atom.list.as_slice(), operator.phylum),
        None => Ok(false),
    }
}

/// The fault of the first bare reference.
fn first_bare(alloc: Global, names: &Names, atoms: &[Atom]) -> Result<Option<SpecFault>, NoMemory>
    ensures { IfOk result (λ f. f ≡ spec.first_bare names.now atoms.now) }
{
    let mut known = IndexMap::new(alloc);
    for atom in atoms {
        if is_bare(alloc, names, &mut known, atom)? {
            return Ok(Some(SpecFault::NoEnclosing(atom.place)));
        }
    }
    Ok(None)
}

fn computed(alloc: Global, decls: &[Decl], names: &Names) -> Result<Option<SpecFault>, NoMemory>
    ensures { IfOk result (λ f. f ≡ spec.no_enclosing names.now (trees_of decls.now)) }
{
    let atoms = atoms(alloc, decls, names)?;
    first_bare(alloc, names, &atoms)
}

/// The fault of the first reference to enclosing nodes in the equations of an operator of which some node, in some term
/// of the root phylum, has no enclosing node of a listed phylum.
#[tactic(auto, using(crate::proofs::FirstBare::answers))]
pub fn no_enclosing(
    alloc: Global,
    decls: &[Decl],
    names: &Names,
) -> Result<Option<SpecFault>, NoMemory>
    ensures { IfOk result (IsNoEnclosing names.now (trees_of decls.now)) }
{
    computed(alloc, decls, names)
}
