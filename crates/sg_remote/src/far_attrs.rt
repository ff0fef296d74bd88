//! Far attributes.
ghost use Rattle.std.specs.Prelude.{◌≡◌, ◌++◌, ℕ, if◌then◌else◌, [], ◌∷◌, map, OnOk, IfOk};
ghost use Rattle.sg_kinds.specs.Far as fars;
ghost use Rattle.sg_kinds.specs.Specification.{phylum_name};
ghost use Rattle.sg_names.specs.Rows.{row_at, row_in};
ghost use Rattle.sg_remote.specs.Keys.{list_of};
ghost use Rattle.sg_remote.specs.Lists.{lists_of};
ghost use Rattle.sg_remote.specs.Longer as spec;
ghost use Rattle.sg_remote.specs.Reach.{flag as flag_at};

use crate::atoms::Atom;
use crate::edges::{borne, users, users_at};
use crate::lists::listed;
use indexmap::IndexSet;
use sg_kinds::ids::PhylumId;
use sg_kinds::marks::Way;
use sg_kinds::memory::NoMemory;
use sg_kinds::row::Row;
use sg_kinds::spec::{Attr, Far};
use sg_kinds::text::Text;
use sg_names::groups::Groups;
use sg_names::names::Names;
use std::alloc::Global;

/// The most far attributes in all. Each takes an equation at each argument of its phylum, and the time and memory of the
/// later rows grow with these.
const MOST_FAR: usize = 1_048_576;

fn phylum_name(names: &Names, phylum: PhylumId) -> &[u8]
    ensures { result.now ≡ phylum_name names.now.phyla phylum }
{
    match names.table().phyla.place(phylum.number) {
        Some(phylum) => phylum.name.as_slice(),
        None => &[],
    }
}

fn attr_name(names: &Names, far: Far) -> &[u8]
    ensures { result.now ≡ spec.attr_name names.now.phyla far }
{
    match names.attrs(far.phylum).get(far.slot as usize) {
        Some(attr) => attr.name.as_slice(),
        None => &[],
    }
}

/// Puts the phylum's name, a dot and the attribute's name last.
fn add_name(names: &Names, far: Far, text: &mut Vec<u8>) -> Result<(), NoMemory>
    ensures { OnOk result (text.new.items ≡ text.old.items ++ fars.far_name names.now.phyla far) }
{
    text.extend_from_slice(phylum_name(names, far.phylum))?;
    text.push(b'.')?;
    text.extend_from_slice(attr_name(names, far))?;
    Ok(())
}

/// The same for the rest of a list, each behind a comma, and then the brace.
fn add_rest(names: &Names, rest: &[Far], text: &mut Vec<u8>) -> Result<(), NoMemory>
    ensures { OnOk result (text.new.items ≡ text.old.items ++ fars.rest_text names.now.phyla rest.now) }
{
    for far in rest {
        text.push(b',')?;
        add_name(names, *far, text)?;
    }
    text.push(b'}')?;
    Ok(())
}

/// A list as it is written, without blanks.
fn far_text(alloc: Global, names: &Names, list: &[Far]) -> Result<Vec<u8>, NoMemory>
    ensures { IfOk result (λ v. v.items ≡ fars.far_text names.now.phyla list.now) }
{
    let mut text = Vec::new(alloc);
    text.push(b'{')?;
    match list {
        [] => text.push(b'}')?,
        [first, rest @ ..] => {
            add_name(names, *first, &mut text)?;
            add_rest(names, rest, &mut text)?;
        }
    }
    Ok(text)
}

/// The type of the first attribute of a list.
fn far_type(names: &Names, list: &[Far]) -> PhylumId
    ensures { result ≡ spec.far_type names.now.phyla list.now }
{
    let none = PhylumId { number: 0 };
    match list {
        [] => none,
        [first, ..] => match names.attrs(first.phylum).get(first.slot as usize) {
            Some(attr) => attr.of,
            None => none,
        },
    }
}

fn far_attr(alloc: Global, names: &Names, list: &Row<Far>) -> Result<Attr, NoMemory>
    ensures { IfOk result (λ a. a ≡ spec.far_attr names.now list.now) }
{
    let name = Text::new(far_text(alloc, names, list.as_slice())?);
    Ok(Attr {
        name,
        way: Way::Inherited,
        of: far_type(names, list.as_slice()),
        far: list.copy(alloc)?,
    })
}

/// Gives each phylum with a flag the far attribute of a list.
fn add_attrs(
    alloc: Global,
    names: &Names,
    list: &Row<Far>,
    flags: &[bool],
    rows: &mut Groups<Attr>,
) -> Result<(), NoMemory>
    ensures { OnOk result ((p : ℕ) → row_at rows.new p
        ≡ row_at rows.old p ++ (if flag_at flags.now p then spec.far_attr names.now list.now ∷ [] else [])) }
{
    for (p, stands) in flags.iter().enumerate() {
        if *stands {
            let phylum = u32::try_from(p).map_err(|_| NoMemory)?;
            rows.put(alloc, phylum, far_attr(alloc, names, list)?)?;
        }
    }
    Ok(())
}

/// The far attributes of each phylum. More than 1,048,576 in all are want of memory.
pub fn far_attrs(
    alloc: Global,
    names: &Names,
    atoms: &[Atom],
    lists: &IndexSet<Vec<(u32, u32)>>,
) -> Result<Vec<Vec<Attr>>, NoMemory>
    requires { map (λ k. list_of k.items) lists.now.keys ≡ lists_of atoms.now }
    ensures { IfOk result (λ v. (p : ℕ) → row_in v.items p ≡ spec.more names.now atoms.now (lists_of atoms.now) p) }
{
    let users = users(alloc, names, atoms, lists)?;
    let each = listed(alloc, lists.as_slice())?;
    let mut rows = Groups::new(alloc);
    let mut count = 0usize;
    for (place, list) in each.iter().enumerate() {
        let flags = borne(alloc, names, users_at(&users, place), list.as_slice())?;
        count = count.saturating_add(flags.iter().filter(|stands| **stands).count());
        if count > MOST_FAR {
            return Err(NoMemory);
        }
        add_attrs(alloc, names, list, &flags, &mut rows)?;
    }
    Ok(rows.rows)
}
