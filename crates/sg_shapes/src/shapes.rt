//! The faults of nonterminals' results, of the root, of lists and of optional phyla.
ghost use Rattle.std.specs.Prelude.{◌≡◌, IfOk};
ghost use Rattle.sg_ast.specs.FirstFault.{first};
ghost use Rattle.sg_ast.specs.View.{tree_of, trees_of};
ghost use Rattle.sg_names.specs.Lookups.{phylum_named};
ghost use Rattle.sg_names.specs.Shapes as spec;

use sg_ast::decl::Decl;
use sg_ast::firsts::{Rule, first_found};
use sg_ast::name::Name;
use sg_kinds::fault::SpecFault;
use sg_kinds::ids::{OpId, PhylumId};
use sg_kinds::marks::Way;
use sg_kinds::memory::NoMemory;
use sg_kinds::spec::Attr;
use sg_names::names::Names;
use sg_names::table::Nonterminal;
use std::alloc::Global;

fn has_one_result(attrs: &[Attr]) -> bool
    ensures { result ≡ spec.has_one_result attrs.now }
{
    match attrs {
        [only] => matches!(only.way, Way::Synthesized),
        _ => false,
    }
}

/// Finds a nonterminal without exactly one result.
#[derive(Clone, Copy)]
struct OneResult;

impl Rule<Nonterminal, SpecFault> for OneResult {
    ghost use Rattle.sg_names.specs.Shapes.{result_count_at};

    ghost fault_of = { λ _ n. result_count_at n };

    fn fault(&self, alloc: Global, spot: &Nonterminal) -> Result<Option<SpecFault>, NoMemory> {
        if has_one_result(spot.attrs.as_slice()) {
            return Ok(None);
        }
        Ok(Some(SpecFault::ResultCount(spot.place, spot.name.copy(alloc)?)))
    }
}

/// The first nonterminal that has not exactly one synthesized attribute, or has an inherited one.
#[tactic(auto, unfolding(sg_names::specs::Shapes::result_count))]
pub fn result_count(alloc: Global, names: &Names) -> Result<Option<SpecFault>, NoMemory>
    ensures { IfOk result (λ f. f ≡ spec.result_count names.now) }
{
    let found = first_found(alloc, &OneResult, names.table().nonterminals.as_slice())?;
    Ok(found)
}

/// The number of `root` declarations, where it is not 1.
#[tactic(auto, unfolding(sg_names::specs::Shapes::root_count), using(crate::proofs::Roots::one_root, crate::proofs::Roots::no_root, crate::proofs::Roots::all_roots))]
pub fn root_count(decls: &[Decl]) -> Option<SpecFault>
    ensures { result ≡ spec.root_count (trees_of decls.now) }
{
    let mut count = 0;
    for decl in decls {
        if let Decl::Root(_) = decl {
            count += 1;
        }
    }
    if count == 1 {
        None
    } else {
        Some(SpecFault::RootCount(count))
    }
}

/// The operators of the phylum of a name.
fn ops_of<'a>(names: &'a Names, name: &Name) -> &'a [OpId]
    ensures { result.now ≡ spec.ops_of names.now name.now }
{
    match names.phylum_named(&name.text) {
        Some(phylum) => match names.table().phyla.place(phylum.number) {
            Some(phylum) => phylum.ops.as_slice(),
            None => &[],
        },
        None => &[],
    }
}

fn is_nullary(args: &[PhylumId]) -> bool
    ensures { result ≡ spec.is_nullary args.now }
{
    match args {
        [] => true,
        _ => false,
    }
}

fn is_pair_of(list: Option<PhylumId>, args: &[PhylumId]) -> bool
    ensures { result ≡ spec.is_pair_of list args.now }
{
    match (list, args) {
        (Some(list), [element, rest]) => {
            element.number != list.number && rest.number == list.number
        }
        _ => false,
    }
}

fn is_list(names: &Names, list: Option<PhylumId>, ops: &[OpId]) -> bool
    ensures { result ≡ spec.is_list names.now list ops.now }
{
    match ops {
        [nil, pair] => is_nullary(names.args(*nil)) && is_pair_of(list, names.args(*pair)),
        _ => false,
    }
}

fn list_fault(alloc: Global, names: &Names, name: &Name) -> Result<Option<SpecFault>, NoMemory>
    ensures { IfOk result (λ f. f ≡ spec.list_shape_at names.now name.now) }
{
    if is_list(names, names.phylum_named(&name.text), ops_of(names, name)) {
        return Ok(None);
    }
    Ok(Some(SpecFault::ListShape(name.place, name.text.copy(alloc)?)))
}

/// Finds a declaration of a list that has not the operators of one.
#[derive(Clone, Copy)]
struct Lists<'a>(&'a Names);

impl Rule<Decl, SpecFault> for Lists<'_> {
    ghost use Rattle.sg_ast.specs.FirstFault.{first};
    ghost use Rattle.sg_ast.specs.View.{tree_of};
    ghost use Rattle.sg_names.specs.Shapes.{list_shape_at, list_names};

    ghost fault_of = { λ r d. first (list_shape_at r.0.now) (list_names (tree_of d)) };

    #[tactic(auto, using(sg_ast::proofs::FirstLaws::or_none))]
    fn fault(&self, alloc: Global, spot: &Decl) -> Result<Option<SpecFault>, NoMemory> {
        match spot {
            Decl::Listed(name) | Decl::Optional(true, name) => list_fault(alloc, self.0, name),
            _ => Ok(None),
        }
    }
}

/// The first declaration of a list whose phylum has not exactly a nullary and then a binary operator, over an element
/// of another phylum and the list.
pub fn list_shape(
    alloc: Global,
    names: &Names,
    decls: &[Decl],
) -> Result<Option<SpecFault>, NoMemory>
    ensures { IfOk result (λ f. f ≡ spec.list_shape names.now (trees_of decls.now)) }
{
    let found = first_found(alloc, &Lists(names), decls)?;
    Ok(found)
}

fn is_optional(names: &Names, ops: &[OpId]) -> bool
    ensures { result ≡ spec.is_optional names.now ops.now }
{
    match ops {
        [first, _, ..] => is_nullary(names.args(*first)),
        _ => false,
    }
}

fn optional_fault(alloc: Global, names: &Names, name: &Name) -> Result<Option<SpecFault>, NoMemory>
    ensures { IfOk result (λ f. f ≡ spec.optional_shape_at names.now name.now) }
{
    if is_optional(names, ops_of(names, name)) {
        return Ok(None);
    }
    Ok(Some(SpecFault::OptionalShape(name.place, name.text.copy(alloc)?)))
}

/// Finds a declaration of an optional phylum that has not the operators of one.
#[derive(Clone, Copy)]
struct Optionals<'a>(&'a Names);

impl Rule<Decl, SpecFault> for Optionals<'_> {
    ghost use Rattle.sg_ast.specs.FirstFault.{first};
    ghost use Rattle.sg_ast.specs.View.{tree_of};
    ghost use Rattle.sg_names.specs.Shapes.{optional_shape_at, optional_names};

    ghost fault_of = { λ r d. first (optional_shape_at r.0.now) (optional_names (tree_of d)) };

    #[tactic(auto, using(sg_ast::proofs::FirstLaws::or_none))]
    fn fault(&self, alloc: Global, spot: &Decl) -> Result<Option<SpecFault>, NoMemory> {
        match spot {
            Decl::Optional(false, name) => optional_fault(alloc, self.0, name),
            _ => Ok(None),
        }
    }
}

/// The first declaration of an optional phylum, no list, that has fewer than two operators or whose first is not
/// nullary.
pub fn optional_shape(
    alloc: Global,
    names: &Names,
    decls: &[Decl],
) -> Result<Option<SpecFault>, NoMemory>
    ensures { IfOk result (λ f. f ≡ spec.optional_shape names.now (trees_of decls.now)) }
{
    let found = first_found(alloc, &Optionals(names), decls)?;
    Ok(found)
}

fn inherits(names: &Names, name: &Name) -> bool
    ensures { result ≡ spec.inherits names.now name.now }
{
    match names.phylum_named(&name.text) {
        Some(phylum) => names
            .attrs(phylum)
            .iter()
            .any(|attr| matches!(attr.way, Way::Inherited)),
        None => false,
    }
}

fn root_fault(alloc: Global, names: &Names, name: &Name) -> Result<Option<SpecFault>, NoMemory>
    ensures { IfOk result (λ f. f ≡ spec.root_inherits_at names.now name.now) }
{
    if !inherits(names, name) {
        return Ok(None);
    }
    Ok(Some(SpecFault::RootInherits(name.place, name.text.copy(alloc)?)))
}

/// Finds a root phylum with an inherited attribute.
#[derive(Clone, Copy)]
struct Roots<'a>(&'a Names);

impl Rule<Decl, SpecFault> for Roots<'_> {
    ghost use Rattle.sg_ast.specs.FirstFault.{first};
    ghost use Rattle.sg_ast.specs.View.{tree_of};
    ghost use Rattle.sg_names.specs.Shapes.{root_inherits_at, root_names};

    ghost fault_of = { λ r d. first (root_inherits_at r.0.now) (root_names (tree_of d)) };

    #[tactic(auto, using(sg_ast::proofs::FirstLaws::or_none))]
    fn fault(&self, alloc: Global, spot: &Decl) -> Result<Option<SpecFault>, NoMemory> {
        match spot {
            Decl::Root(name) => root_fault(alloc, self.0, name),
            _ => Ok(None),
        }
    }
}

/// The root phylum, where it has an inherited attribute.
pub fn root_inherits(
    alloc: Global,
    names: &Names,
    decls: &[Decl],
) -> Result<Option<SpecFault>, NoMemory>
    ensures { IfOk result (λ f. f ≡ spec.root_inherits names.now (trees_of decls.now)) }
{
    let found = first_found(alloc, &Roots(names), decls)?;
    Ok(found)
}
