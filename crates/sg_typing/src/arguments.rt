//! The arguments of an equation.
ghost use Rattle.std.specs.Prelude.{◌≡◌, OnOk, IfOk};
ghost use Rattle.sg_ast.specs.View.{expr_of, exprs_of, cases_of};
ghost use Rattle.sg_typing.specs.Arguments as spec;

use sg_ast::expr::{Cases, Expr, Exprs, Operands};
use sg_ast::name::Remote;
use sg_kinds::ids::OpId;
use sg_kinds::memory::NoMemory;
use sg_kinds::spec::Occurrence;
use sg_kinds::text::Text;
use sg_names::names::Names;
use sg_types::bindings::{local_slot, place_of};
use std::alloc::Global;

// an occurrence more, unless it stands already
fn add(args: &mut Vec<Occurrence>, occurrence: Occurrence) -> Result<(), NoMemory>
    ensures { OnOk result (args.new.items ≡ spec.added args.old.items (Some occurrence)) }
{
    if place_of(args, occurrence.at, occurrence.slot as usize).is_none() {
        args.push(occurrence)?;
    }
    Ok(())
}

// a local more, if a name is one
fn add_local(
    names: &Names,
    op: OpId,
    name: &Text,
    args: &mut Vec<Occurrence>,
) -> Result<(), NoMemory>
    ensures { OnOk result (args.new.items ≡ spec.added args.old.items (spec.local_of names.now op name.now)) }
{
    let Some(slot) = local_slot(names, op, name) else {
        return Ok(());
    };
    let Ok(slot) = u32::try_from(slot) else {
        return Err(NoMemory);
    };
    add(args, Occurrence { at: 0, slot })
}

// an attribute of an enclosing node more, if the left side has it
fn add_remote(
    alloc: Global,
    names: &Names,
    op: OpId,
    remote: &Remote,
    args: &mut Vec<Occurrence>,
) -> Result<(), NoMemory>
    ensures { OnOk result (args.new.items ≡ spec.added args.old.items (spec.remote_of names.now op remote.now)) }
{
    match names.far_slot(alloc, op, remote)? {
        Some(slot) => add(args, Occurrence { at: 0, slot }),
        None => Ok(()),
    }
}

/// Puts the arguments of an expression behind others.
#[cycle(arguments)]
fn collect(
    alloc: Global,
    names: &Names,
    op: OpId,
    e: &Expr,
    args: &mut Vec<Occurrence>,
) -> Result<(), NoMemory>
    ensures { OnOk result (args.new.items ≡ spec.args_from names.now op args.old.items (expr_of e.now)) }
{
    match e {
        Expr::Number(_, _) | Expr::Text(_) | Expr::Truth(_, _) | Expr::Made(_, _, _) => Ok(()),
        Expr::Variable(name) => add_local(names, op, &name.text, args),
        Expr::Attribute(reference) => match names.reference(op, reference) {
            Some(occurrence) => add(args, occurrence),
            None => Ok(()),
        },
        Expr::Remote(remote) => add_remote(alloc, names, op, remote, args),
        Expr::Paren(inner, _) => collect(alloc, names, op, inner, args),
        Expr::Prefix(_, operand, _) => collect(alloc, names, op, operand, args),
        Expr::Binary(_, operands) => {
            let Operands::Both(left, right) = &**operands;
            collect(alloc, names, op, left, args)?;
            collect(alloc, names, op, right, args)
        }
        Expr::Choice(condition, first, second) => {
            collect(alloc, names, op, condition, args)?;
            collect(alloc, names, op, first, args)?;
            collect(alloc, names, op, second, args)
        }
        Expr::Call(_, list) => collect_all(alloc, names, op, list, args),
        Expr::Let(_, bound, body, _) => {
            collect(alloc, names, op, bound, args)?;
            collect(alloc, names, op, body, args)
        }
        Expr::With(subject, _, body, rest) => {
            collect(alloc, names, op, subject, args)?;
            collect(alloc, names, op, body, args)?;
            collect_cases(alloc, names, op, rest, args)
        }
    }
}

#[cycle(arguments)]
fn collect_all(
    alloc: Global,
    names: &Names,
    op: OpId,
    list: &Exprs,
    args: &mut Vec<Occurrence>,
) -> Result<(), NoMemory>
    ensures { OnOk result (args.new.items ≡ spec.args_from_all names.now op args.old.items (exprs_of list.now)) }
{
    let mut rest = list;
    while let Exprs::More(first, next) = rest {
        collect(alloc, names, op, first, args)?;
        rest = next;
    }
    Ok(())
}

#[cycle(arguments)]
fn collect_cases(
    alloc: Global,
    names: &Names,
    op: OpId,
    cases: &Cases,
    args: &mut Vec<Occurrence>,
) -> Result<(), NoMemory>
    ensures { OnOk result (args.new.items ≡ spec.args_from_cases names.now op args.old.items (cases_of cases.now)) }
{
    let mut rest = cases;
    while let Cases::More(_, body, next) = rest {
        collect(alloc, names, op, body, args)?;
        rest = next;
    }
    match rest {
        Cases::Default(body) => collect(alloc, names, op, body, args),
        _ => Ok(()),
    }
}

/// The arguments of an equation of an operator.
pub fn args_in(
    alloc: Global,
    names: &Names,
    op: OpId,
    e: &Expr,
) -> Result<Vec<Occurrence>, NoMemory>
    ensures { IfOk result (λ args. args.items ≡ spec.args_in names.now op (expr_of e.now)) }
{
    let mut args = Vec::new(alloc);
    collect(alloc, names, op, e, &mut args)?;
    Ok(args)
}
