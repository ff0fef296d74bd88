//! The different lists of attributes of enclosing nodes.
ghost use Rattle.std.specs.Prelude.{◌≡◌, map, position, IfOk, OnOk};
ghost use Rattle.sg_kinds.specs.Far as far;
ghost use Rattle.sg_remote.specs.Keys.{key_of, list_of};
ghost use Rattle.sg_remote.specs.Lists as spec;

use crate::atoms::Atom;
use indexmap::IndexSet;
use sg_kinds::ids::PhylumId;
use sg_kinds::memory::NoMemory;
use sg_kinds::row::Row;
use sg_kinds::spec::Far;
use std::alloc::Global;

/// Whether two lists name the same attributes in the same order.
pub fn same_far(a: &[Far], b: &[Far]) -> bool
    ensures { result ≡ far.same_far a.now b.now }
{
    a == b
}

/// The attribute of a phylum that a list names.
pub fn listed_slot(list: &[Far], phylum: PhylumId) -> Option<u32>
    ensures { result ≡ far.listed_slot list.now phylum }
{
    let far = list.iter().find(|far| far.phylum.number == phylum.number)?;
    Some(far.slot)
}

/// The numbers of phylum and slot of each attribute of a list.
pub fn key_of(alloc: Global, list: &[Far]) -> Result<Vec<(u32, u32)>, NoMemory>
    ensures { IfOk result (λ v. v.items ≡ key_of list.now) }
{
    let mut key = Vec::new(alloc);
    for far in list {
        key.push((far.phylum.number, far.slot))?;
    }
    Ok(key)
}

/// The list with these numbers.
fn list_of(alloc: Global, key: &[(u32, u32)]) -> Result<Row<Far>, NoMemory>
    ensures { IfOk result (λ l. l ≡ list_of key.now) }
{
    let mut list = Vec::new(alloc);
    for &(phylum, slot) in key {
        list.push(Far {
            phylum: PhylumId { number: phylum },
            slot,
        })?;
    }
    Ok(Row::new(list))
}

/// Puts a list behind the others, unless it is among them.
fn add_list(
    alloc: Global,
    lists: &mut IndexSet<Vec<(u32, u32)>>,
    list: &[Far],
) -> Result<(), NoMemory>
    ensures { OnOk result (map (λ k. list_of k.items) lists.new.keys
        ≡ spec.with_list (map (λ k. list_of k.items) lists.old.keys) list.now) }
{
    lists.insert(key_of(alloc, list)?)?;
    Ok(())
}

/// The different lists of these references, in the order of their first use.
pub fn lists(alloc: Global, atoms: &[Atom]) -> Result<IndexSet<Vec<(u32, u32)>>, NoMemory>
    ensures { IfOk result (λ s. map (λ k. list_of k.items) s.keys ≡ spec.lists_of atoms.now) }
{
    let mut lists = IndexSet::new(alloc);
    for atom in atoms {
        add_list(alloc, &mut lists, atom.list.as_slice())?;
    }
    Ok(lists)
}

/// The place of a list among these.
pub fn place_of(
    alloc: Global,
    lists: &IndexSet<Vec<(u32, u32)>>,
    list: &[Far],
) -> Result<Option<usize>, NoMemory>
    ensures { IfOk result (λ n. n
        ≡ position (λ fs. far.same_far fs list.now) (map (λ k. list_of k.items) lists.now.keys)) }
{
    let key = key_of(alloc, list)?;
    Ok(lists.get_index_of(key.as_slice()))
}

/// The lists with these keys.
pub fn listed(alloc: Global, keys: &[Vec<(u32, u32)>]) -> Result<Vec<Row<Far>>, NoMemory>
    ensures { IfOk result (λ v. v.items ≡ map (λ k. list_of k.items) keys.now) }
{
    let mut lists = Vec::new(alloc);
    for key in keys {
        lists.push(list_of(alloc, key.as_slice())?)?;
    }
    Ok(lists)
}
