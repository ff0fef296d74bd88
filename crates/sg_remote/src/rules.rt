//! The equations by which far attributes are handed down.
ghost use Rattle.std.specs.Prelude.{◌≡◌, ◌++◌, ◌<◌, ◌^◌, length, IfOk, OnOk};
ghost use Rattle.sg_kinds.specs.Far as far;
ghost use Rattle.sg_kinds.specs.Specification.{attrs_of, args_of};
ghost use Rattle.sg_remote.specs.Handing as spec;

use crate::lists::{listed_slot, same_far};
use sg_kinds::ids::{ExprId, OpId, PhylumId};
use sg_kinds::memory::NoMemory;
use sg_kinds::row::Row;
use sg_kinds::spec::{Attr, Far, Occurrence, Rule};
use sg_names::callables::number;
use sg_names::names::Names;
use std::alloc::Global;

/// The greatest number of 32 bits.
const MOST: usize = 4_294_967_295;

/// The place of the attribute with a list.
#[tactic(auto, using(sg_names::proofs::Firsts::from_zero, sg_names::proofs::Firsts::passes, sg_names::proofs::Firsts::fails, sg_names::proofs::Firsts::ends))]
fn slot_of_far(attrs: &[Attr], list: &[Far]) -> Option<u32>
    requires { length attrs.now < 4294967295 }
    ensures { result ≡ far.slot_of_far attrs.now list.now }
{
    for (place, attr) in attrs.iter().enumerate() {
        if same_far(attr.far.as_slice(), list) {
            return Some(place as u32);
        }
    }
    None
}

/// What a node of a phylum hands to its children.
fn source_slot(names: &Names, phylum: PhylumId, list: &[Far]) -> Option<u32>
    ensures { result ≡ far.source_slot names.now.phyla phylum list.now }
{
    match listed_slot(list, phylum) {
        Some(slot) => Some(slot),
        None => slot_of_far(names.attrs(phylum), list),
    }
}

/// What hands a far attribute of an argument down, a slot of the left side; none for an attribute that is written.
fn source(names: &Names, op: OpId, attr: &Attr) -> Option<u32>
    ensures { result ≡ spec.source names.now op attr.now }
{
    let list = attr.far.as_slice();
    if list.is_empty() {
        return None;
    }
    let left = names.phylum_there(op, 0)?;
    source_slot(names, left, list)
}

fn rule(
    alloc: Global,
    expr: ExprId,
    op: OpId,
    target: Occurrence,
    source: u32,
) -> Result<Rule, NoMemory>
    ensures { IfOk result (λ r. r ≡ spec.rule expr op target source) }
{
    let named = Occurrence {
        at: 0,
        slot: source,
    };
    let args = vec![in alloc; named]?;
    Ok(Rule {
        op,
        target,
        args: Row::new(args),
        expr,
    })
}

/// Puts the equations for the far attributes of the argument at an occurrence last.
fn add_slots(
    alloc: Global,
    names: &Names,
    expr: ExprId,
    op: OpId,
    at: u32,
    argument: PhylumId,
    rules: &mut Vec<Rule>,
) -> Result<(), NoMemory>
    ensures { OnOk result (rules.new.items
        ≡ rules.old.items ++ spec.slot_rules names.now expr op at 0 (attrs_of names.now.phyla argument)) }
{
    let attrs = names.attrs(argument);
    for (slot, attr) in attrs.iter().enumerate() {
        if let Some(source) = source(names, op, attr) {
            let target = Occurrence {
                at,
                slot: slot as u32,
            };
            rules.push(rule(alloc, expr, op, target, source)?)?;
        }
    }
    Ok(())
}

/// The same for all arguments of an operator.
fn add_arguments(
    alloc: Global,
    names: &Names,
    expr: ExprId,
    op: OpId,
    rules: &mut Vec<Rule>,
) -> Result<(), NoMemory>
    ensures { OnOk result (rules.new.items
        ≡ rules.old.items ++ spec.argument_rules names.now expr op 0 (args_of names.now.ops op)) }
{
    let args = names.args(op);
    for (k, argument) in args.iter().enumerate() {
        add_slots(alloc, names, expr, op, k as u32 + 1, *argument, rules)?;
    }
    Ok(())
}

/// Puts the equations by which far attributes are handed down last: one for each far attribute of each argument of each
/// operator, in their order. Their expression, `expr`, names their one argument. More rules than numbers of 32 bits are
/// want of memory.
pub fn handing(
    alloc: Global,
    names: &Names,
    expr: ExprId,
    rules: &mut Vec<Rule>,
) -> Result<(), NoMemory>
    ensures rules { OnOk result (rules.new.items ≡ rules.old.items ++ spec.handing names.now expr) }
    ensures few { OnOk result (length rules.new.items < 2 ^ 32) }
{
    for place in 0..names.table().ops.len() {
        let op = OpId {
            number: number(place)?,
        };
        add_arguments(alloc, names, expr, op, rules)?;
    }
    if rules.len() > MOST {
        return Err(NoMemory);
    }
    Ok(())
}
