//! Shown phyla, and operators without schemes.
ghost use Rattle.std.specs.Prelude.{◌≡◌, ◌≤◌, ◌^◌, ◌↔◌, IsTrue, false, true, slice_set, slice_get, option_map, IfOk};
ghost use Rattle.sg_ast.specs.View.{tree_of, trees_of};
ghost use Rattle.sg_schemes.specs.NoScheme.{IsNoScheme};
ghost use Rattle.sg_schemes.specs.ShownFlags as spec;

use sg_ast::decl::Decl;
use sg_kinds::fault::{Position, SpecFault};
use sg_kinds::ids::PhylumId;
use sg_kinds::memory::NoMemory;
use sg_kinds::spec::Operator;
use sg_names::names::Names;
use sg_names::table::Table;
use std::alloc::Global;

/// Whether the flag of a number stands.
fn flag(flags: &[bool], k: usize) -> bool
    ensures { result ≡ spec.flag flags.now k }
{
    match flags.get(k) {
        Some(flag) => *flag,
        None => false,
    }
}

/// Puts the flag of a number up, if there is one.
#[tactic(auto, using(crate::proofs::Flags::set_past))]
fn set(flags: &mut [bool], k: usize)
    ensures { flags.new ≡ slice_set flags.old k true }
{
    if k < flags.len() {
        flags[k] = true;
    }
}

fn show_all(flags: &mut [bool], phyla: &[PhylumId])
    ensures { flags.new ≡ spec.show_all flags.old phyla.now }
{
    for p in phyla {
        set(flags, p.number as usize);
    }
}

/// Shows the arguments of an operator of a shown phylum.
fn show_below(flags: &mut [bool], operator: &Operator)
    ensures { flags.new ≡ spec.show_below flags.old operator.now }
{
    if flag(flags, operator.phylum.number as usize) {
        show_all(flags, operator.args.as_slice());
    }
}

/// The same for each operator.
fn pass(flags: &mut [bool], ops: &[Operator])
    ensures { flags.new ≡ spec.pass flags.old ops.now }
{
    for operator in ops {
        show_below(flags, operator);
    }
}

fn are_same(a: &[bool], b: &[bool]) -> bool
    ensures { IsTrue result ↔ (a.now ≡ b.now) }
{
    a == b
}

/// A copy of the flags after a pass.
fn passed(alloc: Global, ops: &[Operator], flags: &[bool]) -> Result<Vec<bool>, NoMemory>
    ensures { IfOk result (λ v. v.items ≡ spec.pass flags.now ops.now) }
{
    let mut next = Vec::from_slice(alloc, flags)?;
    pass(&mut next, ops);
    Ok(next)
}

/// The flags after so many passes, which end where one shows nothing new.
fn passes(
    alloc: Global,
    count: usize,
    ops: &[Operator],
    start: Vec<bool>,
) -> Result<Vec<bool>, NoMemory>
    ensures { IfOk result (λ v. v.items ≡ spec.passes count ops.now start.items) }
{
    let mut flags = start;
    for round in 0..count {
        let next = passed(alloc, ops, &flags)?;
        if are_same(&next, &flags) {
            return Ok(flags);
        }
        flags = next;
    }
    Ok(flags)
}

/// One more than the greatest of these numbers.
fn past(phyla: &[PhylumId]) -> usize
    ensures count { result ≡ spec.past phyla.now }
    ensures few { result ≤ 2 ^ 32 }
{
    let mut most = 0usize;
    for phylum in phyla {
        most = most.max(phylum.number as usize + 1);
    }
    most
}

/// The same of the arguments of all operators.
fn past_all(ops: &[Operator]) -> usize
    ensures count { result ≡ spec.past_all ops.now }
    ensures few { result ≤ 2 ^ 32 }
{
    let mut most = 0usize;
    for operator in ops {
        most = most.max(past(operator.args.as_slice()));
    }
    most
}

/// How many flags there are: one for the root and for each argument.
fn width(table: &Table) -> usize
    ensures { result ≡ spec.width table.now }
{
    let root = table.root.number as usize + 1;
    root.max(past_all(table.ops.as_slice()))
}

/// The shown phyla.
fn shown(alloc: Global, table: &Table) -> Result<Vec<bool>, NoMemory>
    ensures { IfOk result (λ v. v.items ≡ spec.shown table.now) }
{
    let count = width(table);
    let mut flags = vec![in alloc; false; count]?;
    set(&mut flags, table.root.number as usize);
    passes(alloc, count, table.ops.as_slice(), flags)
}

/// Gives an operator the schemes of a declaration, if they are of the ordinary view.
fn give(flags: &mut [bool], names: &Names, decl: &Decl)
    ensures { flags.new ≡ spec.give names.now flags.old (tree_of decl.now) }
{
    if let Decl::Schemes(phylum, op, None, _) = decl {
        if let Some(op) = names.operator_at(phylum, op) {
            set(flags, op.number as usize);
        }
    }
}

/// The operators that have schemes in the ordinary view.
fn given(alloc: Global, names: &Names, decls: &[Decl]) -> Result<Vec<bool>, NoMemory>
    ensures { IfOk result (λ v. v.items ≡ spec.given names.now (trees_of decls.now)) }
{
    let mut flags = vec![in alloc; false; names.table().ops.len()]?;
    for decl in decls {
        give(&mut flags, names, decl);
    }
    Ok(flags)
}

/// The fault of an operator without a scheme.
fn fault_at(
    alloc: Global,
    places: &[Position],
    k: usize,
    operator: &Operator,
) -> Result<Option<SpecFault>, NoMemory>
    ensures { IfOk result (λ f. f ≡ option_map (λ place. SpecFault.NoScheme place operator.now.name)
        (slice_get places.now k)) }
{
    match places.get(k) {
        Some(place) => Ok(Some(SpecFault::NoScheme(*place, operator.name.copy(alloc)?))),
        None => Ok(None),
    }
}

/// Whether the phylum of an operator is shown, and the operator of this number has no scheme.
fn is_missing(shown: &[bool], given: &[bool], k: usize, operator: &Operator) -> bool
    ensures { result ≡ spec.is_missing shown.now given.now k operator.now }
{
    flag(shown, operator.phylum.number as usize) && !flag(given, k)
}

/// The first operator whose phylum is shown and that has no scheme.
fn missing(
    alloc: Global,
    table: &Table,
    shown: &[bool],
    given: &[bool],
) -> Result<Option<SpecFault>, NoMemory>
    ensures { IfOk result (λ f. f ≡ spec.missing_from table.now shown.now given.now 0 table.now.ops) }
{
    for (k, operator) in table.ops.as_slice().iter().enumerate() {
        if is_missing(shown, given, k, operator) {
            return fault_at(alloc, table.op_places.as_slice(), k, operator);
        }
    }
    Ok(None)
}

// the same, from the flags
fn computed(alloc: Global, names: &Names, decls: &[Decl]) -> Result<Option<SpecFault>, NoMemory>
    ensures { IfOk result (λ f. f ≡ spec.no_scheme names.now (trees_of decls.now)) }
{
    let shown = shown(alloc, names.table())?;
    let given = given(alloc, names, decls)?;
    missing(alloc, names.table(), &shown, &given)
}

/// The fault of the first operator of a shown phylum that has no scheme in the ordinary view. The root is shown, and
/// so are the arguments of the operators of shown phyla.
#[tactic(auto, using(crate::proofs::FirstMissing::answers))]
pub fn no_scheme(
    alloc: Global,
    names: &Names,
    decls: &[Decl],
) -> Result<Option<SpecFault>, NoMemory>
    ensures { IfOk result (IsNoScheme names.now (trees_of decls.now)) }
{
    computed(alloc, names, decls)
}
