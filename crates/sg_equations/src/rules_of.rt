//! The rules of the record.
ghost use Rattle.std.specs.Prelude.{◌≡◌, ◌≢◌, ◌++◌, ◌+◌, ◌<◌, ◌^◌, length, map, Some, None, IfOk, IfErr, OnOk};
ghost use Rattle.sg_ast.specs.View.{tree_of, trees_of, equation_of};
ghost use Rattle.sg_equations.specs.Complete.{incomplete as fault_of};
ghost use Rattle.sg_equations.specs.RulesOf as spec;
ghost use Rattle.sg_equations.specs.Targets.{IsNarrow};

use crate::completeness::incomplete;
use crate::narrow::{MOST, is_narrow};
use crate::targets::target_there;
use sg_ast::decl::{Decl, Equation};
use sg_kinds::fault::SpecFault;
use sg_kinds::ids::{ExprId, OpId};
use sg_kinds::memory::NoMemory;
use sg_kinds::row::Row;
use sg_kinds::spec::{Occurrence, Rule};
use sg_names::names::Names;
use sg_typing::{Typed, TypedExpr, expr_count};
use std::alloc::Global;

/// What an expression of the record names.
fn args_of(alloc: Global, exprs: &[TypedExpr], k: usize) -> Result<Row<Occurrence>, NoMemory>
    ensures { IfOk result (λ args. args ≡ spec.args_of exprs.now k) }
{
    match exprs.get(k) {
        Some(typed) => typed.args.copy(alloc),
        None => Ok(Row::new(Vec::new(alloc))),
    }
}

/// Puts the rule of an equation with expression k last, if its target has a meaning.
fn add_rule(
    alloc: Global,
    exprs: &[TypedExpr],
    op: OpId,
    k: usize,
    target: Option<Occurrence>,
    rules: &mut Vec<Rule>,
) -> Result<(), NoMemory>
    ensures { OnOk result (rules.new.items ≡ rules.old.items ++ spec.ruled exprs.now op k target) }
{
    let Some(target) = target else {
        return Ok(());
    };
    let Ok(number) = u32::try_from(k) else {
        return Err(NoMemory);
    };
    let args = args_of(alloc, exprs, k)?;
    let expr = ExprId { number };
    rules.push(Rule {
        op,
        target,
        args,
        expr,
    })?;
    Ok(())
}

/// The number after so many more.
fn after(k: usize, count: usize) -> Result<usize, NoMemory>
    ensures { IfOk result (λ n. n ≡ k + count) }
{
    k.checked_add(count).ok_or(NoMemory)
}

/// Puts the rules of equations last, of which the first has expression `first`.
fn add_rules(
    alloc: Global,
    names: &Names,
    exprs: &[TypedExpr],
    op: OpId,
    first: usize,
    equations: &[Equation],
    rules: &mut Vec<Rule>,
) -> Result<(), NoMemory>
    requires { IsNarrow names.now }
    ensures { OnOk result (rules.new.items ≡ rules.old.items
        ++ spec.rules_from names.now exprs.now op first (map equation_of equations.now)) }
{
    let mut k = first;
    for equation in equations {
        let target = target_there(names, op, &equation.target);
        add_rule(alloc, exprs, op, k, target, rules)?;
        k = after(k, 1)?;
    }
    Ok(())
}

/// Puts the rules of a declaration last, before which there are k expressions.
fn add_decl(
    alloc: Global,
    names: &Names,
    exprs: &[TypedExpr],
    k: usize,
    decl: &Decl,
    rules: &mut Vec<Rule>,
) -> Result<(), NoMemory>
    requires { IsNarrow names.now }
    ensures { OnOk result (rules.new.items ≡ rules.old.items
        ++ spec.rules_at names.now exprs.now k (tree_of decl.now)) }
{
    if let Decl::Equations(phylum, op, _, equations) = decl
        && let Some(op) = names.operator_at(phylum, op)
    {
        add_rules(alloc, names, exprs, op, k, equations, rules)?;
    }
    Ok(())
}

/// The rules of all declarations.
fn all_rules(
    alloc: Global,
    decls: &[Decl],
    names: &Names,
    exprs: &[TypedExpr],
) -> Result<Vec<Rule>, NoMemory>
    requires { IsNarrow names.now }
    ensures { IfOk result (λ rules. rules.items ≡ spec.rules_in names.now exprs.now 0 (trees_of decls.now)) }
{
    let mut rules = Vec::new(alloc);
    let mut k = 0;
    for decl in decls {
        add_decl(alloc, names, exprs, k, decl, &mut rules)?;
        k = after(k, expr_count(decl))?;
    }
    Ok(rules)
}

/// The rules of the record, one for each equation in the order of the text, or the first fault of the equations: of
/// the first that defines what its operator does not owe, else of the first that defines what one before it defines,
/// else of the first operator that owes what no equation defines. `names` and `typed` are those of the declarations.
/// More rules than numbers of 32 bits are want of memory.
pub fn rules(
    alloc: Global,
    decls: &[Decl],
    names: &Names,
    typed: &Typed,
) -> Result<Row<Rule>, SpecFault>
    ensures rules { IfOk result (λ rs. rs ≡ spec.rules_in names.now typed.now.exprs 0 (trees_of decls.now)) }
    ensures few { IfOk result (λ rs. length rs < 2 ^ 32) }
    ensures none { OnOk result (fault_of names.now (trees_of decls.now) ≡ None) }
    ensures fault { IfErr result (λ f. f ≢ SpecFault.NoMemory → fault_of names.now (trees_of decls.now) ≡ Some f) }
{
    if let Some(fault) = incomplete(alloc, decls, names)? {
        return Err(fault);
    }
    if !is_narrow(names) {
        return Err(SpecFault::NoMemory);
    }
    let rules = all_rules(alloc, decls, names, typed.exprs.as_slice())?;
    if rules.len() > MOST {
        return Err(SpecFault::NoMemory);
    }
    Ok(Row::new(rules))
}
