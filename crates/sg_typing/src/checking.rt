//! The types of a specification.
ghost use Rattle.std.specs.Prelude.{◌≡◌, ◌≢◌, Some, None, IfOk, IfErr, OnOk};
ghost use Rattle.sg_ast.specs.View.{trees_of};
ghost use Rattle.sg_typing.specs.Checked.{typed_of, first_fault};

use crate::bodies::{TypedExpr, all_bodies};
use crate::shown::first_hidden;
use sg_ast::decl::Decl;
use sg_kinds::fault::SpecFault;
use sg_kinds::pattern::Pattern;
use sg_kinds::row::Row;
use sg_names::names::Names;
use std::alloc::Global;

/// The expressions of equations, functions, transformations and input productions, and the patterns of
/// transformations, each in the order of the text.
#[derive(Drop)]
pub struct Typed {
    pub exprs: Row<TypedExpr>,
    pub patterns: Row<Pattern>,
}

/// The expressions and patterns of the record with their types, or the first of the faults `Mismatch` and `ShownType`.
/// `names` are those of the declarations.
pub fn check(alloc: Global, decls: &[Decl], names: &Names) -> Result<Typed, SpecFault>
    ensures value { IfOk result (λ typed. typed ≡ typed_of names.now (trees_of decls.now)) }
    ensures none { OnOk result (first_fault names.now (trees_of decls.now) ≡ None) }
    ensures fault { IfErr result (λ f. f ≢ SpecFault.NoMemory → first_fault names.now (trees_of decls.now) ≡ Some f) }
{
    let Ok(found) = all_bodies(alloc, names, decls) else {
        return Err(SpecFault::NoMemory);
    };
    let bodies = match found {
        Ok(bodies) => bodies,
        Err(place) => return Err(SpecFault::Mismatch(place)),
    };
    if let Some(place) = first_hidden(names, decls) {
        return Err(SpecFault::ShownType(place));
    }
    Ok(Typed {
        exprs: Row::new(bodies.exprs),
        patterns: Row::new(bodies.patterns),
    })
}
