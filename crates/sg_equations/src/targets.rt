//! What equations define.
ghost use Rattle.std.specs.Prelude.{◌≡◌, ◌++◌, OnOk, IfOk, map};
ghost use Rattle.sg_ast.specs.View.{trees_of, equation_of};
ghost use Rattle.sg_equations.specs.Targets as spec;

use sg_ast::decl::{Decl, Equation, Target};
use sg_kinds::fault::Position;
use sg_kinds::ids::OpId;
use sg_kinds::memory::NoMemory;
use sg_kinds::spec::Occurrence;
use sg_names::names::Names;
use sg_types::bindings::local_slot;
use std::alloc::Global;

/// What an equation defines: an occurrence of an attribute, or a local, of an operator; and the place of its target.
#[derive(Clone, Copy)]
pub struct Defined {
    pub op: OpId,
    pub target: Occurrence,
    pub place: Position,
}

#[tactic(auto, using(crate::proofs::Places::slot_fits))]
pub(crate) fn target_there(names: &Names, op: OpId, target: &Target) -> Option<Occurrence>
    requires { spec.IsNarrow names.now }
    ensures { result ≡ spec.target_there names.now op target.now }
{
    match target {
        Target::Attribute(reference) => names.reference(op, reference),
        Target::Local(name) => {
            let slot = local_slot(names, op, &name.text)?;
            let slot = slot as u32;
            Some(Occurrence { at: 0, slot })
        }
    }
}

fn add_defined(
    names: &Names,
    op: OpId,
    equations: &[Equation],
    defined: &mut Vec<Defined>,
) -> Result<(), NoMemory>
    requires { spec.IsNarrow names.now }
    ensures { OnOk result (defined.new.items ≡ defined.old.items
        ++ spec.defined_under names.now (map equation_of equations.now) (Some op)) }
{
    for equation in equations {
        if let Some(target) = target_there(names, op, &equation.target) {
            let place = equation.target.place();
            defined.push(Defined { op, target, place })?;
        }
    }
    Ok(())
}

/// What the equations of the declarations define, in the order of the text; nothing for an equation whose target has no
/// meaning.
pub fn targets_in(alloc: Global, decls: &[Decl], names: &Names) -> Result<Vec<Defined>, NoMemory>
    requires { spec.IsNarrow names.now }
    ensures { IfOk result (λ defs. defs.items ≡ spec.defined_in names.now (trees_of decls.now)) }
{
    let mut defined = Vec::new(alloc);
    for decl in decls {
        if let Decl::Equations(phylum, op, _, equations) = decl
            && let Some(op) = names.operator_at(phylum, op)
        {
            add_defined(names, op, equations, &mut defined)?;
        }
    }
    Ok(defined)
}
