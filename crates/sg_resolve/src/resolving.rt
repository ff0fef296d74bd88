//! The faults of names and shapes in their order.
ghost use Rattle.std.specs.Prelude.{◌≡◌, ◌≢◌, ◌∷◌, Some, None, IfOk, IfErr, OnOk};
ghost use Rattle.sg_ast.specs.FirstFault.{first_of};
ghost use Rattle.sg_ast.specs.View.{trees_of};
ghost use Rattle.sg_counts.specs.Duplicates as duplicates;
ghost use Rattle.sg_names.specs.Arity.{arity};
ghost use Rattle.sg_names.specs.Names.{names_of};
ghost use Rattle.sg_names.specs.TwiceBound.{twice_bound};
ghost use Rattle.sg_names.specs.UnknownName.{unknown_name};
ghost use Rattle.sg_resolve.specs.Resolved as spec;

use sg_ast::decl::Decl;
use sg_counts::duplicates::duplicate;
use sg_counts::limits::limit;
use sg_kinds::fault::SpecFault;
use sg_kinds::memory::NoMemory;
use sg_names::names::Names;
use sg_shapes::resolving::{binding_rows, shape_rows};
use sg_shapes::unfinished::unfinished;
use sg_tables::tables::tables;
use sg_uses::found::Found;
use sg_uses::walked::walked;
use std::alloc::Global;

/// The fault of a phylum, at its first definition.
fn no_completion_at(
    alloc: Global,
    names: &Names,
    place: usize,
) -> Result<Option<SpecFault>, NoMemory>
    ensures { IfOk result (λ f. f ≡ spec.no_completion_at names.now place) }
{
    let table = names.table();
    let phyla = table.phyla.as_slice();
    let places = table.phylum_places.as_slice();
    match (phyla.get(place), places.get(place)) {
        (Some(phylum), Some(place)) => {
            let name = phylum.name.copy(alloc)?;
            Ok(Some(SpecFault::NoCompletion(*place, name)))
        }
        _ => Ok(None),
    }
}

/// The fault of the first phylum whose completing term or placeholder is not finite, or too large or too deep.
fn no_completion(alloc: Global, names: &Names) -> Result<Option<SpecFault>, NoMemory>
    ensures { IfOk result (λ f. f ≡ spec.no_completion names.now) }
{
    match unfinished(alloc, names.table())? {
        Some(place) => no_completion_at(alloc, names, place),
        None => Ok(None),
    }
}

/// The first fault of completing terms and of the rows behind them, with what a walk found.
#[tactic(auto, using(crate::proofs::Rows::alone))]
fn completion_rows(
    alloc: Global,
    names: &Names,
    decls: &[Decl],
    twice: Option<SpecFault>,
    parts: Option<SpecFault>,
) -> Result<Option<SpecFault>, NoMemory>
    requires twice { twice ≡ twice_bound names.now (trees_of decls.now) }
    requires parts { parts ≡ arity names.now (trees_of decls.now) }
    ensures { IfOk result (λ f. f ≡ first_of (spec.completion_rows names.now (trees_of decls.now))) }
{
    match no_completion(alloc, names)? {
        Some(fault) => Ok(Some(fault)),
        None => binding_rows(alloc, names, decls, twice, parts),
    }
}

/// The first fault of names and shapes, with what a walk found.
fn found_rows(
    alloc: Global,
    names: &Names,
    decls: &[Decl],
    found: Found,
) -> Result<Option<SpecFault>, NoMemory>
    requires unknown { found.unknown ≡ unknown_name names.now (trees_of decls.now) }
    requires twice { found.twice ≡ twice_bound names.now (trees_of decls.now) }
    requires parts { found.arity ≡ arity names.now (trees_of decls.now) }
    ensures { IfOk result (λ f. f ≡ first_of (spec.name_rows names.now (trees_of decls.now))) }
{
    match shape_rows(alloc, names, decls, found.unknown)? {
        Some(fault) => Ok(Some(fault)),
        None => completion_rows(alloc, names, decls, found.twice, found.arity),
    }
}

/// The first fault of names and shapes, but limits and second definitions.
fn name_rows(alloc: Global, names: &Names, decls: &[Decl]) -> Result<Option<SpecFault>, NoMemory>
    ensures { IfOk result (λ f. f ≡ first_of (spec.name_rows names.now (trees_of decls.now))) }
{
    let found = walked(alloc, names, decls)?;
    found_rows(alloc, names, decls, found)
}

/// The first second definition, else the first fault of the rows behind.
fn duplicate_rows(
    alloc: Global,
    names: &Names,
    decls: &[Decl],
) -> Result<Option<SpecFault>, NoMemory>
    ensures { IfOk result (λ f. f ≡ first_of (duplicates.duplicate (trees_of decls.now)
        ∷ spec.name_rows names.now (trees_of decls.now))) }
{
    match duplicate(alloc, decls)? {
        Some(fault) => Ok(Some(fault)),
        None => name_rows(alloc, names, decls),
    }
}

/// The first fault of all rows.
fn first_fault(alloc: Global, names: &Names, decls: &[Decl]) -> Result<Option<SpecFault>, NoMemory>
    ensures { IfOk result (λ f. f ≡ spec.fault_in names.now (trees_of decls.now)) }
{
    match limit(alloc, decls)? {
        Some(fault) => Ok(Some(fault)),
        None => duplicate_rows(alloc, names, decls),
    }
}

/// What the names of declarations mean, or the first fault of names and shapes: a count over its limit, a second
/// definition, a name without meaning, a nonterminal without just one result, another number of roots than one, the
/// shape of a list or of an optional phylum, a made term that is not finite and small, an inherited attribute of the
/// root, a variable that is bound twice, a wrong number of parts.
#[tactic(auto, unfolding(crate::specs::Resolved::resolve_fault))]
pub fn resolve(alloc: Global, decls: &[Decl]) -> Result<Names, SpecFault>
    ensures value { IfOk result (λ n. n ≡ names_of (trees_of decls.now)) }
    ensures none { OnOk result (spec.resolve_fault (trees_of decls.now) ≡ None) }
    ensures fault { IfErr result (λ f. f ≢ SpecFault.NoMemory → spec.resolve_fault (trees_of decls.now) ≡ Some f) }
{
    let names = tables(alloc, decls)?;
    match first_fault(alloc, &names, decls)? {
        Some(fault) => Err(fault),
        None => Ok(names),
    }
}
