//! Entries.
ghost use Rattle.std.specs.Prelude.{◌≡◌, nat_eq, map, flat_map, slice_get, option_copied, Some, IfOk};
ghost use Rattle.sg_ast.specs.FirstFault.{first_repeat};
ghost use Rattle.sg_ast.specs.View.{tree_of, trees_of};
ghost use Rattle.sg_ast.specs.declared.name.Name.{Name};
ghost use Rattle.sg_record.specs.Entries as fault;
ghost use Rattle.sg_record.specs.Record as spec;

use crate::productions::nonterminal_in;
use crate::transforms::phylum_in;
use sg_ast::decl::Decl;
use sg_ast::firsts::first_repeat;
use sg_ast::name::Name;
use sg_kinds::fault::SpecFault;
use sg_kinds::memory::NoMemory;
use sg_kinds::spec::Entry;
use sg_names::names::Names;
use sg_types::types::fits_where;
use std::alloc::Global;

/// The entries.
pub(crate) fn entries(alloc: Global, decls: &[Decl], names: &Names) -> Result<Vec<Entry>, NoMemory>
    ensures { IfOk result (λ v. v.items ≡ flat_map (spec.entry_at names.now) (trees_of decls.now)) }
{
    let mut entries = Vec::new(alloc);
    for decl in decls {
        if let Decl::Entry(phylum, nonterminal, _) = decl {
            entries.push(Entry {
                phylum: phylum_in(names, &phylum.text),
                nonterminal: nonterminal_in(names, &nonterminal.text),
            })?;
        }
    }
    Ok(entries)
}

/// The numbers of the phyla that have entries.
fn numbers(alloc: Global, decls: &[Decl], names: &Names) -> Result<Vec<u32>, NoMemory>
    ensures { IfOk result (λ v. v.items ≡ map (λ (n : Name). spec.phylum_in names.now n.text)
        (fault.entered (trees_of decls.now))) }
{
    let mut numbers = Vec::new(alloc);
    for decl in decls {
        if let Decl::Entry(phylum, ..) = decl {
            numbers.push(phylum_in(names, &phylum.text).number)?;
        }
    }
    Ok(numbers)
}

/// The place of the first entry whose phylum has one before.
fn second(alloc: Global, decls: &[Decl], names: &Names) -> Result<Option<usize>, NoMemory>
    ensures { IfOk result (λ o. o ≡ first_repeat nat_eq
        (map (λ (n : Name). spec.phylum_in names.now n.text) (fault.entered (trees_of decls.now)))) }
{
    let numbers = numbers(alloc, decls, names)?;
    let place = first_repeat(alloc, &numbers)?;
    Ok(place)
}

/// The phylum of an entry, by its place among the entries.
fn entered(decls: &[Decl], mut place: usize) -> Option<&Name>
    ensures { option_copied result ≡ slice_get (fault.entered (trees_of decls.now)) place }
{
    for decl in decls {
        if let Decl::Entry(phylum, ..) = decl {
            if place == 0 {
                return Some(phylum);
            }
            place -= 1;
        }
    }
    None
}

/// The fault of an entry that is a second one, by its place among the entries.
fn twice_at(alloc: Global, decls: &[Decl], place: usize) -> Result<Option<SpecFault>, NoMemory>
    ensures { IfOk result (λ f. f ≡ fault.twice_at (fault.entered (trees_of decls.now)) (Some place)) }
{
    let Some(name) = entered(decls, place) else {
        return Ok(None);
    };
    let text = name.text.copy(alloc)?;
    Ok(Some(SpecFault::EntryTwice(name.place, text)))
}

/// The fault of the first entry whose phylum has one before.
pub fn entry_twice(
    alloc: Global,
    decls: &[Decl],
    names: &Names,
) -> Result<Option<SpecFault>, NoMemory>
    ensures { IfOk result (λ f. f ≡ fault.entry_twice names.now (trees_of decls.now)) }
{
    match second(alloc, decls, names)? {
        Some(place) => twice_at(alloc, decls, place),
        None => Ok(None),
    }
}

/// The fault of an entry whose attribute has a type that is not accepted where the phylum is wanted.
fn type_fault(alloc: Global, names: &Names, decl: &Decl) -> Result<Option<SpecFault>, NoMemory>
    ensures { IfOk result (λ f. f ≡ fault.type_fault names.now (tree_of decl.now)) }
{
    let Decl::Entry(phylum, nonterminal, attr) = decl else {
        return Ok(None);
    };
    let wanted = names.usable_named(&phylum.text);
    let found = names.symbol_type(&nonterminal.text, &attr.text);
    if fits_where(names, &wanted, &found) {
        return Ok(None);
    }
    Ok(Some(SpecFault::EntryType(phylum.place, phylum.text.copy(alloc)?)))
}

/// The first of these faults.
pub fn entry_type(
    alloc: Global,
    decls: &[Decl],
    names: &Names,
) -> Result<Option<SpecFault>, NoMemory>
    ensures { IfOk result (λ f. f ≡ fault.entry_type names.now (trees_of decls.now)) }
{
    for decl in decls {
        if let Some(fault) = type_fault(alloc, names, decl)? {
            return Ok(Some(fault));
        }
    }
    Ok(None)
}
