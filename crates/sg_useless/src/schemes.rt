//! What schemes use: what they show, and the entries at the places where a selection may rest.
ghost use Rattle.std.specs.Prelude.{◌≡◌, ◌++◌, slice_get, OnOk};
ghost use Rattle.sg_kinds.specs.Dependencies.{phylum_there};
ghost use Rattle.sg_kinds.specs.Sound.{is_pair as is_pair_of};
ghost use Rattle.sg_useless.specs.Uses.{all_scheme_uses, entry_at, item_uses, occurring, place_uses, scheme_uses, slot_at as slot_there, view_schemes};

use crate::part::Part;
use sg_kinds::marks::{ChildPlace, Shape};
use sg_kinds::memory::NoMemory;
use sg_kinds::row::Row;
use sg_kinds::spec::{Item, Occurrence, Operator, Scheme, Spec};

// The phylum at an occurrence of an operator.
fn phylum_at(spec: &Spec, op: usize, at: u32) -> Option<usize>
    ensures { result ≡ phylum_there spec.now.ops op at }
{
    let operator = spec.ops.as_slice().get(op)?;
    match at.checked_sub(1) {
        Some(k) => Some(operator.args.place(k)?.number as usize),
        None => Some(operator.phylum.number as usize),
    }
}

// The attribute or local that a slot of a phylum, or behind it of an operator, is.
fn slot_at(spec: &Spec, op: usize, slot: usize, p: usize) -> Part
    ensures { result ≡ slot_there spec.now.phyla op slot p }
{
    let count = match spec.phyla.as_slice().get(p) {
        Some(phylum) => phylum.attrs.len(),
        None => 0,
    };
    if slot < count {
        Part::Attribute(p, slot)
    } else {
        Part::Local(op, slot - count)
    }
}

/// Puts the attribute or local of an operator last that an occurrence is.
pub fn add_occurring(
    spec: &Spec,
    op: usize,
    o: Occurrence,
    uses: &mut Vec<Part>,
) -> Result<(), NoMemory>
    ensures { OnOk result (uses.new.items ≡ uses.old.items ++ occurring spec.now op o) }
{
    if let Some(p) = phylum_at(spec, op, o.at) {
        uses.push(slot_at(spec, op, o.slot as usize, p))?;
    }
    Ok(())
}

// Whether an operator is the binary one of a list.
fn is_pair(spec: &Spec, op: usize) -> bool
    ensures { result ≡ is_pair_of spec.now op }
{
    let Some(operator) = spec.ops.as_slice().get(op) else {
        return false;
    };
    match spec.phyla.place(operator.phylum.number) {
        Some(phylum) => {
            matches!(phylum.shape, Shape::Listed | Shape::OptionalListed)
                && operator.args.len() == 2
        }
        None => false,
    }
}

// The phylum of an argument.
fn argument_at(operator: &Operator, k: usize) -> Option<usize>
    ensures { result ≡ slice_get operator.now.args k }
{
    Some(operator.args.as_slice().get(k)?.number as usize)
}

// Puts the entry of an argument last.
fn add_entry(operator: &Operator, k: usize, uses: &mut Vec<Part>) -> Result<(), NoMemory>
    ensures { OnOk result (uses.new.items ≡ uses.old.items ++ entry_at operator.now k) }
{
    if let Some(p) = argument_at(operator, k) {
        uses.push(Part::Entry(p))?;
    }
    Ok(())
}

// Puts the entry last that is of use where an argument stands.
fn add_place(
    operator: &Operator,
    seen: bool,
    pair: bool,
    k: usize,
    how: ChildPlace,
    uses: &mut Vec<Part>,
) -> Result<(), NoMemory>
    ensures { OnOk result (uses.new.items ≡ uses.old.items ++ place_uses operator.now seen pair k how) }
{
    match how {
        ChildPlace::Resting => {
            if seen && !(pair && k == 1) {
                add_entry(operator, k, uses)
            } else {
                Ok(())
            }
        }
        ChildPlace::Passed | ChildPlace::Hidden => Ok(()),
    }
}

// Puts what the items of a scheme use last.
fn add_items(
    spec: &Spec,
    op: usize,
    operator: &Operator,
    seen: bool,
    items: &[Item],
    uses: &mut Vec<Part>,
) -> Result<(), NoMemory>
    ensures { OnOk result (uses.new.items ≡ uses.old.items ++ item_uses spec.now op operator.now seen 0 items.now) }
{
    let pair = is_pair(spec, op);
    let mut k = 0usize;
    for item in items {
        match item {
            Item::Child(how) => {
                add_place(operator, seen, pair, k, *how, uses)?;
                k += 1;
            }
            Item::Shows(o) => add_occurring(spec, op, *o, uses)?,
            _ => {}
        }
    }
    Ok(())
}

// Puts what these schemes of an operator use last.
fn add_schemes(
    spec: &Spec,
    op: usize,
    operator: &Operator,
    seen: bool,
    schemes: &[Scheme],
    uses: &mut Vec<Part>,
) -> Result<(), NoMemory>
    ensures { OnOk result (uses.new.items ≡ uses.old.items ++ scheme_uses spec.now op operator.now seen schemes.now) }
{
    for scheme in schemes {
        add_items(spec, op, operator, seen, scheme.items.as_slice(), uses)?;
    }
    Ok(())
}

/// The schemes of an operator in a view, which may be none.
pub fn schemes_in(row: &Row<Row<Scheme>>, op: usize) -> &[Scheme]
    ensures { result.now ≡ view_schemes op row.now }
{
    match row.as_slice().get(op) {
        Some(schemes) => schemes.as_slice(),
        None => &[],
    }
}

/// Puts what all schemes of an operator use last.
#[tactic(auto, unfolding(crate::specs::Uses::all_scheme_uses))]
pub fn add_all_schemes(
    spec: &Spec,
    op: usize,
    operator: &Operator,
    seen: bool,
    uses: &mut Vec<Part>,
) -> Result<(), NoMemory>
    ensures { OnOk result (uses.new.items ≡ uses.old.items ++ all_scheme_uses spec.now seen op operator.now) }
{
    add_schemes(spec, op, operator, seen, operator.schemes.as_slice(), uses)?;
    for row in spec.views.rows.as_slice() {
        add_schemes(spec, op, operator, seen, schemes_in(row, op), uses)?;
    }
    Ok(())
}
