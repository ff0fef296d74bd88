//! What names stand for in an expression.
ghost use Rattle.std.specs.Prelude.{◌≡◌, ◌-◌, ◌<◌, count_by, length, take, IfOk};
ghost use Rattle.std.specs.List.{position};
ghost use Rattle.sg_kinds.specs.Typing.{slot_type};
ghost use Rattle.sg_types.specs.Bindings as spec;
ghost use Rattle.sg_names.specs.Drafted.{drafted};
ghost use Rattle.sg_types.specs.OwnersView.{owner_of};

use crate::scope::Scope;
use sg_ast::decl::Part;
use sg_ast::name::{Reference, Remote};
use sg_kinds::ids::{OpId, PhylumId};
use sg_kinds::memory::NoMemory;
use sg_kinds::spec::{Attr, Occurrence};
use sg_kinds::text::Text;
use sg_names::names::Names;
use std::alloc::Global;

/// Where an expression stands, which says what its names are.
#[derive(Clone, Copy)]
pub enum Owner<'a> {
    /// An equation of an operator, with the occurrences that are its arguments.
    Equation(OpId, &'a [Occurrence]),
    /// An input production, with its left side and its right side.
    Production(&'a Text, &'a [Part]),
    /// A function or transformation, in which no reference means anything.
    Nothing,
}

/// A place among the bindings of an expression, counted from 0, and its type if it has one.
pub(crate) type Binding = (usize, Option<PhylumId>);

/// The type of a slot at an occurrence of an operator: of an attribute, or at the left side of a local behind these.
pub fn slot_type(names: &Names, op: OpId, at: u32, slot: usize) -> Option<PhylumId>
    ensures { result ≡ slot_type (drafted names.now) op at slot }
{
    let own = attrs_there(names, op, at);
    if let Some(attr) = own.get(slot) {
        return Some(attr.of);
    }
    if at > 0 {
        return None;
    }
    let local = names.locals(op).get(slot - own.len())?;
    Some(local.of)
}

// the attributes at an occurrence of an operator
fn attrs_there(names: &Names, op: OpId, at: u32) -> &[Attr]
    ensures attrs { result.now ≡ spec.attrs_there names.now op at }
    ensures short { length result.now < 4294967295 }
{
    match names.phylum_there(op, at) {
        Some(phylum) => names.attrs(phylum),
        None => &[],
    }
}

/// The slot of a local, which stands behind the attributes of the left side.
pub fn local_slot(names: &Names, op: OpId, name: &Text) -> Option<usize>
    ensures { result ≡ spec.local_slot names.now op name.now }
{
    let place = names.local(op, name)?;
    Some(attrs_there(names, op, 0).len() + place as usize)
}

/// The place of a slot of an occurrence among arguments, of which there are few.
pub fn place_of(args: &[Occurrence], at: u32, slot: usize) -> Option<usize>
    ensures { result ≡ position (spec.is_at at slot) args.now }
{
    args.iter()
        .position(|arg| at == arg.at && slot == arg.slot as usize)
}

fn argument(names: &Names, op: OpId, args: &[Occurrence], at: u32, slot: usize) -> Option<Binding>
    ensures { result ≡ spec.argument names.now op args.now at slot }
{
    let place = place_of(args, at, slot)?;
    Some((place, slot_type(names, op, at, slot)))
}

// how many symbols are no literals
fn bound(parts: &[Part]) -> usize
    ensures { result ≡ count_by spec.is_bound parts.now }
{
    parts
        .iter()
        .filter(|part| matches!(part, Part::Named(_)))
        .count()
}

// how many bindings stand before the first variable
fn outside(owner: &Owner<'_>) -> usize
    ensures { result ≡ spec.outside (owner_of owner.now) }
{
    match owner {
        Owner::Equation(_, args) => args.len(),
        Owner::Production(_, parts) => bound(parts),
        Owner::Nothing => 0,
    }
}

// the bindings before a symbol, by its place counted from 1
fn before(parts: &[Part], at: usize) -> usize
    ensures { result ≡ count_by spec.is_bound (take (at - 1) parts.now) }
{
    let count = at.saturating_sub(1).min(parts.len());
    bound(&parts[..count])
}

/// What a reference stands for.
pub(crate) fn reference_at(
    names: &Names,
    owner: &Owner<'_>,
    reference: &Reference,
) -> Option<Binding>
    ensures { result ≡ spec.reference_at names.now (owner_of owner.now) reference.now }
{
    match owner {
        Owner::Equation(op, args) => {
            let occurrence = names.reference(*op, reference)?;
            argument(names, *op, args, occurrence.at, occurrence.slot as usize)
        }
        Owner::Production(left, parts) => {
            let operand = names.operand(left, parts, reference)?;
            Some((before(parts, operand.at), Some(operand.of)))
        }
        Owner::Nothing => None,
    }
}

/// What an attribute of an enclosing node stands for.
pub(crate) fn remote_at(
    alloc: Global,
    names: &Names,
    owner: &Owner<'_>,
    remote: &Remote,
) -> Result<Option<Binding>, NoMemory>
    ensures { IfOk result (λ b. b ≡ spec.remote_at names.now (owner_of owner.now) remote.now) }
{
    let Owner::Equation(op, args) = owner else {
        return Ok(None);
    };
    match names.far_slot(alloc, *op, remote)? {
        Some(far) => Ok(argument(names, *op, args, 0, far as usize)),
        None => Ok(None),
    }
}

// what a bare name stands for as a local
fn local_at(names: &Names, owner: &Owner<'_>, name: &Text) -> Option<Binding>
    ensures { result ≡ spec.local_at names.now (owner_of owner.now) name.now }
{
    match owner {
        Owner::Equation(op, args) => {
            let slot = local_slot(names, *op, name)?;
            argument(names, *op, args, 0, slot)
        }
        Owner::Production(_, _) | Owner::Nothing => None,
    }
}

/// What a bare name stands for: a local of the operator, else a variable.
pub(crate) fn variable_at(
    names: &Names,
    owner: &Owner<'_>,
    scope: &Scope,
    name: &Text,
) -> Result<Option<Binding>, NoMemory>
    ensures { IfOk result (λ b. b ≡ spec.variable_at names.now (owner_of owner.now) scope.now name.now) }
{
    if let Some(binding) = local_at(names, owner, name) {
        return Ok(Some(binding));
    }
    let Some((place, of)) = scope.find(name) else {
        return Ok(None);
    };
    let place = outside(owner).checked_add(place).ok_or(NoMemory)?;
    Ok(Some((place, of)))
}
