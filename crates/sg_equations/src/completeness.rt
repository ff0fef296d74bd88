//! The completeness of equations.
ghost use Rattle.std.specs.Prelude.{◌≡◌, List, IfOk, map};
ghost use Rattle.sg_ast.specs.View.{trees_of};
ghost use Rattle.sg_equations.specs.Complete as spec;
ghost use Rattle.sg_equations.specs.Keys as code;
ghost use Rattle.sg_equations.specs.Keys.{key_of, AreSeen};
ghost use Rattle.sg_equations.specs.declared.targets.Defined.{Defined};
ghost use Rattle.sg_equations.specs.Targets.{IsNarrow};

use crate::narrow::is_narrow;
use crate::owed::{owes, slot_count};
use crate::targets::{Defined, targets_in};
use sg_ast::decl::Decl;
use sg_ast::firsts::first_repeat;
use sg_kinds::fault::SpecFault;
use sg_kinds::ids::OpId;
use sg_kinds::memory::NoMemory;
use sg_kinds::spec::Occurrence;
use sg_names::names::Names;
use std::alloc::Global;
use std::collections::BTreeSet;

/// What an equation defines, in an order.
#[derive(Clone, Copy, PartialEq, Eq, PartialOrd, Ord)]
struct Key {
    op: u32,
    at: u32,
    slot: u32,
}

fn key_at(op: OpId, o: Occurrence) -> Key
    ensures { result ≡ code.key_at op o }
{
    Key {
        op: op.number,
        at: o.at,
        slot: o.slot,
    }
}

fn keys(alloc: Global, defined: &[Defined]) -> Result<Vec<Key>, NoMemory>
    ensures { IfOk result (λ keys. keys.items ≡ map key_of defined.now) }
{
    let mut keys = Vec::with_capacity(alloc, defined.len())?;
    for equation in defined {
        keys.push(key_at(equation.op, equation.target))?;
    }
    Ok(keys)
}

/// The fault of the first equation that defines what its operator does not owe.
fn not_defined_here(names: &Names, defined: &[Defined]) -> Option<SpecFault>
    requires { IsNarrow names.now }
    ensures { result ≡ spec.not_defined_here names.now defined.now }
{
    for equation in defined {
        if !owes(names, equation.op, equation.target) {
            return Some(SpecFault::NotDefinedHere(equation.place));
        }
    }
    None
}

/// The fault of the equation at a place.
fn twice_at(defined: &[Defined], place: Option<usize>) -> Option<SpecFault>
    ensures { result ≡ spec.twice_at defined.now place }
{
    let equation = defined.get(place?)?;
    Some(SpecFault::Twice(equation.place))
}

/// The fault of the first equation that defines what one before it defines.
fn twice(alloc: Global, defined: &[Defined]) -> Result<Option<SpecFault>, NoMemory>
    ensures { IfOk result (λ fault. fault ≡ spec.twice defined.now) }
{
    let keys = keys(alloc, defined)?;
    let place = first_repeat(alloc, &keys)?;
    Ok(twice_at(defined, place))
}

/// The keys of what equations define.
fn seen(alloc: Global, defined: &[Defined]) -> Result<BTreeSet<Key>, NoMemory>
    ensures { IfOk result (AreSeen defined.now) }
{
    let mut seen = BTreeSet::new(alloc);
    for equation in defined {
        seen.insert(key_at(equation.op, equation.target))?;
    }
    Ok(seen)
}

/// Whether an operator owes an occurrence that no equation defines.
fn lacks_slot(names: &Names, seen: &BTreeSet<Key>, op: OpId, o: Occurrence) -> bool
    requires { IsNarrow names.now }
    ensures { (defs : List Defined) → AreSeen defs seen.now → result ≡ spec.lacks_slot names.now defs op o.at o.slot }
{
    owes(names, op, o) && !seen.contains(&key_at(op, o))
}

/// Whether an operator owes a slot at one of its occurrences that no equation defines.
fn lacks_at(names: &Names, seen: &BTreeSet<Key>, op: OpId, at: u32) -> bool
    requires { IsNarrow names.now }
    ensures { (defs : List Defined) → AreSeen defs seen.now → result ≡ spec.lacks_at names.now defs op at }
{
    for slot in 0..slot_count(names, op, at) {
        let slot = slot as u32;
        if lacks_slot(names, seen, op, Occurrence { at, slot }) {
            return true;
        }
    }
    false
}

/// Whether an operator owes what no equation defines.
fn lacks(names: &Names, seen: &BTreeSet<Key>, op: OpId) -> bool
    requires { IsNarrow names.now }
    ensures { (defs : List Defined) → AreSeen defs seen.now → result ≡ spec.lacks names.now defs op }
{
    for at in 0..names.args(op).len() + 1 {
        let at = at as u32;
        if lacks_at(names, seen, op, at) {
            return true;
        }
    }
    false
}

/// The fault of an operator that lacks an equation.
fn missing_at(alloc: Global, names: &Names, op: OpId) -> Result<Option<SpecFault>, NoMemory>
    ensures { IfOk result (λ fault. fault ≡ spec.missing_at names.now op) }
{
    let table = names.table();
    match (table.ops.place(op.number), table.op_places.place(op.number)) {
        (Some(operator), Some(place)) => {
            let name = operator.name.copy(alloc)?;
            Ok(Some(SpecFault::Missing(*place, name)))
        }
        _ => Ok(None),
    }
}

/// The first operator that owes what no equation defines.
fn first_lacking(names: &Names, seen: &BTreeSet<Key>) -> Option<OpId>
    requires { IsNarrow names.now }
    ensures { (defs : List Defined) → AreSeen defs seen.now → result ≡ spec.first_lacking names.now defs }
{
    for number in 0..names.table().ops.len() {
        let op = OpId {
            number: number as u32,
        };
        if lacks(names, seen, op) {
            return Some(op);
        }
    }
    None
}

/// The fault of the first operator that owes what no equation defines.
fn missing(alloc: Global, names: &Names, defined: &[Defined]) -> Result<Option<SpecFault>, NoMemory>
    requires { IsNarrow names.now }
    ensures { IfOk result (λ fault. fault ≡ spec.missing names.now defined.now) }
{
    let seen = seen(alloc, defined)?;
    match first_lacking(names, &seen) {
        Some(op) => missing_at(alloc, names, op),
        None => Ok(None),
    }
}

/// The first fault of the equations of declarations: of the first that defines what its operator does not owe, else of
/// the first that defines what one before it defines, else of the first operator that owes what no equation defines.
pub fn incomplete(
    alloc: Global,
    decls: &[Decl],
    names: &Names,
) -> Result<Option<SpecFault>, NoMemory>
    ensures { IfOk result (λ fault. fault ≡ spec.incomplete names.now (trees_of decls.now)) }
{
    if !is_narrow(names) {
        return Err(NoMemory);
    }
    let defined = targets_in(alloc, decls, names)?;
    if let Some(fault) = not_defined_here(names, &defined) {
        return Ok(Some(fault));
    }
    if let Some(fault) = twice(alloc, &defined)? {
        return Ok(Some(fault));
    }
    missing(alloc, names, &defined)
}
