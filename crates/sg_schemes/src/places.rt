//! Places of schemes.
ghost use Rattle.std.specs.Prelude.{◌≡◌, count_by, IfOk};
ghost use Rattle.std.specs.Prelude.{◌&&◌};
ghost use Rattle.sg_kinds.specs.Specification.{has_shape, is_list_shape};
ghost use Rattle.sg_ast.specs.FirstFault.{first};
ghost use Rattle.sg_ast.specs.View.{tree_of, trees_of};
ghost use Rattle.sg_schemes.specs.Places.{is_child, separators_stand, is_fitting, places_fault, is_list_pair, operator_faults, phylum_faults, kids_fault, scheme_kids};

use sg_ast::decl::{Decl, Item, SchemeDecl};
use sg_ast::name::Name;
use sg_kinds::fault::SpecFault;
use sg_kinds::ids::{OpId, PhylumId};
use sg_kinds::marks::Shape;
use sg_kinds::memory::NoMemory;
use sg_names::names::Names;
use std::alloc::Global;

fn is_child(item: &Item) -> bool
    ensures { result ≡ is_child item.now }
{
    matches!(item, Item::Child(_))
}

/// How many places there are.
fn place_count(items: &[Item]) -> usize
    ensures { result ≡ count_by is_child items.now }
{
    items.iter().filter(|item| is_child(item)).count()
}

/// Whether a separator stands only where it may, once, after the first place.
fn separators_stand(pair: bool, items: &[Item]) -> bool
    ensures { result ≡ separators_stand pair 0 items.now }
{
    let mut may = pair;
    let mut places = 0usize;
    for item in items {
        match item {
            Item::Child(_) => places += 1,
            Item::Separates(_) => {
                if !may || places != 1 {
                    return false;
                }
                may = false;
            }
            Item::Writes(_) | Item::Shows(_) => {}
        }
    }
    true
}

fn is_fitting(pair: bool, arity: usize, scheme: &SchemeDecl) -> bool
    ensures { result ≡ is_fitting pair arity scheme.now }
{
    let items = scheme.items.as_slice();
    place_count(items) == arity && separators_stand(pair, items)
}

/// The fault of a scheme of an operator, if it has one.
fn places_fault(
    alloc: Global,
    pair: bool,
    arity: usize,
    op: &Name,
    scheme: &SchemeDecl,
) -> Result<Option<SpecFault>, NoMemory>
    ensures { IfOk result (λ f. f ≡ places_fault pair arity op.now scheme.now) }
{
    if is_fitting(pair, arity, scheme) {
        return Ok(None);
    }
    Ok(Some(SpecFault::SchemeKids(scheme.place, op.text.copy(alloc)?)))
}

fn first_places_fault(
    alloc: Global,
    pair: bool,
    arity: usize,
    op: &Name,
    schemes: &[SchemeDecl],
) -> Result<Option<SpecFault>, NoMemory>
    ensures { IfOk result (λ f. f ≡ first (places_fault pair arity op.now) schemes.now) }
{
    for scheme in schemes {
        if let Some(fault) = places_fault(alloc, pair, arity, op, scheme)? {
            return Ok(Some(fault));
        }
    }
    Ok(None)
}

/// Whether the phylum is a list.
fn is_list(names: &Names, phylum: PhylumId) -> bool
    ensures { result ≡ has_shape names.now.phyla is_list_shape phylum }
{
    match names.table().phyla.place(phylum.number) {
        Some(phylum) => matches!(phylum.shape, Shape::Listed | Shape::OptionalListed),
        None => false,
    }
}

/// Whether it is the binary operator of a list.
fn is_list_pair(names: &Names, phylum: PhylumId, op: OpId) -> bool
    ensures { result ≡ is_list_pair names.now phylum op }
{
    is_list(names, phylum) && names.args(op).len() == 2
}

/// The schemes of an operator of a phylum.
fn operator_faults(
    alloc: Global,
    names: &Names,
    phylum: PhylumId,
    number: OpId,
    op: &Name,
    schemes: &[SchemeDecl],
) -> Result<Option<SpecFault>, NoMemory>
    ensures { IfOk result (λ f. f ≡ operator_faults names.now phylum number op.now schemes.now) }
{
    let pair = is_list_pair(names, phylum, number);
    let arity = names.args(number).len();
    first_places_fault(alloc, pair, arity, op, schemes)
}

/// The same, by the operator's name.
fn phylum_faults(
    alloc: Global,
    names: &Names,
    phylum: PhylumId,
    op: &Name,
    schemes: &[SchemeDecl],
) -> Result<Option<SpecFault>, NoMemory>
    ensures { IfOk result (λ f. f ≡ phylum_faults names.now phylum op.now schemes.now) }
{
    match names.operator_named(phylum, &op.text) {
        Some(number) => operator_faults(alloc, names, phylum, number, op, schemes),
        None => Ok(None),
    }
}

/// The schemes of a declaration.
fn kids_fault(alloc: Global, names: &Names, decl: &Decl) -> Result<Option<SpecFault>, NoMemory>
    ensures { IfOk result (λ f. f ≡ kids_fault names.now (tree_of decl.now)) }
{
    match decl {
        Decl::Schemes(phylum, op, _, schemes) => match names.phylum_named(&phylum.text) {
            Some(phylum) => phylum_faults(alloc, names, phylum, op, schemes.as_slice()),
            None => Ok(None),
        },
        _ => Ok(None),
    }
}

/// The first scheme that has not a place for each argument of its operator, or has a separator outside a list's binary
/// operator, not between its two places, or a second one. A scheme of an operator that is not there has no fault.
pub fn scheme_kids(
    alloc: Global,
    names: &Names,
    decls: &[Decl],
) -> Result<Option<SpecFault>, NoMemory>
    ensures { IfOk result (λ f. f ≡ scheme_kids names.now (trees_of decls.now)) }
{
    for decl in decls {
        if let Some(fault) = kids_fault(alloc, names, decl)? {
            return Ok(Some(fault));
        }
    }
    Ok(None)
}
