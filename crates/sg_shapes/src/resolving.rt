//! The rows of faults of names and shapes, before and after the row of completing terms.
ghost use Rattle.std.specs.Prelude.{◌≡◌, IfOk};
ghost use Rattle.sg_ast.specs.FirstFault.{or_else};
ghost use Rattle.sg_ast.specs.View.{trees_of};
ghost use Rattle.sg_shapes.specs.Resolved as spec;
ghost use Rattle.sg_names.specs.Shapes as shapes;
ghost use Rattle.sg_names.specs.UnknownName.{unknown_name};
ghost use Rattle.sg_names.specs.TwiceBound.{twice_bound};
ghost use Rattle.sg_names.specs.Arity.{arity};

use crate::shapes::{list_shape, optional_shape, result_count, root_count, root_inherits};
use sg_ast::decl::Decl;
use sg_kinds::fault::SpecFault;
use sg_kinds::memory::NoMemory;
use sg_names::names::Names;
use std::alloc::Global;

/// The first fault of lists and optional phyla.
fn list_rows(alloc: Global, names: &Names, decls: &[Decl]) -> Result<Option<SpecFault>, NoMemory>
    ensures { IfOk result (λ f. f ≡ or_else (shapes.list_shape names.now (trees_of decls.now))
        (shapes.optional_shape names.now (trees_of decls.now))) }
{
    match list_shape(alloc, names, decls)? {
        Some(fault) => Ok(Some(fault)),
        None => optional_shape(alloc, names, decls),
    }
}

/// The first fault of the root's number, lists and optional phyla.
fn root_rows(alloc: Global, names: &Names, decls: &[Decl]) -> Result<Option<SpecFault>, NoMemory>
    ensures { IfOk result (λ f. f ≡ or_else (shapes.root_count (trees_of decls.now))
        (or_else (shapes.list_shape names.now (trees_of decls.now))
        (shapes.optional_shape names.now (trees_of decls.now)))) }
{
    match root_count(decls) {
        Some(fault) => Ok(Some(fault)),
        None => list_rows(alloc, names, decls),
    }
}

/// The first fault of nonterminals' results and of what `root_rows` speaks of.
fn result_rows(alloc: Global, names: &Names, decls: &[Decl]) -> Result<Option<SpecFault>, NoMemory>
    ensures { IfOk result (λ f. f ≡ or_else (shapes.result_count names.now)
        (or_else (shapes.root_count (trees_of decls.now))
        (or_else (shapes.list_shape names.now (trees_of decls.now))
        (shapes.optional_shape names.now (trees_of decls.now))))) }
{
    match result_count(alloc, names)? {
        Some(fault) => Ok(Some(fault)),
        None => root_rows(alloc, names, decls),
    }
}

/// The first fault of names and shapes before completing terms are made, with the first unknown name.
pub fn shape_rows(
    alloc: Global,
    names: &Names,
    decls: &[Decl],
    unknown: Option<SpecFault>,
) -> Result<Option<SpecFault>, NoMemory>
    requires { unknown ≡ unknown_name names.now (trees_of decls.now) }
    ensures { IfOk result (λ f. f ≡ spec.shape_rows names.now (trees_of decls.now)) }
{
    match unknown {
        Some(fault) => Ok(Some(fault)),
        None => result_rows(alloc, names, decls),
    }
}

/// The first fault of the root's attributes, of bindings and of numbers of parts, with what a walk found.
pub fn binding_rows(
    alloc: Global,
    names: &Names,
    decls: &[Decl],
    twice: Option<SpecFault>,
    parts: Option<SpecFault>,
) -> Result<Option<SpecFault>, NoMemory>
    requires twice { twice ≡ twice_bound names.now (trees_of decls.now) }
    requires parts { parts ≡ arity names.now (trees_of decls.now) }
    ensures { IfOk result (λ f. f ≡ spec.binding_rows names.now (trees_of decls.now)) }
{
    match root_inherits(alloc, names, decls)? {
        Some(fault) => Ok(Some(fault)),
        None => match twice {
            Some(fault) => Ok(Some(fault)),
            None => Ok(parts),
        },
    }
}
