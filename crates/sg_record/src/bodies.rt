//! The bodies of functions, and the expressions of the record.
ghost use Rattle.std.specs.Prelude.{◌≡◌, ◌++◌, ◌+◌, [], ◌∷◌, map, IfOk, OnOk};
ghost use Rattle.sg_ast.specs.View.{tree_of, trees_of};
ghost use Rattle.sg_kinds.specs.Expressions.{Named};
ghost use Rattle.sg_record.specs.Record as spec;
ghost use Rattle.sg_typing.specs.declared.bodies.TypedExpr.{TypedExpr};

use sg_ast::decl::Decl;
use sg_kinds::expr::{Expr, ExprTree};
use sg_kinds::ids::ExprId;
use sg_kinds::memory::NoMemory;
use sg_kinds::spec::Function;
use sg_names::table::Signature;
use sg_typing::{TypedExpr, expr_count};
use std::alloc::Global;

/// How many expressions stand before what comes after so many more.
pub(crate) fn after(k: usize, count: usize) -> Result<usize, NoMemory>
    ensures { IfOk result (λ n. n ≡ k + count) }
{
    k.checked_add(count).ok_or(NoMemory)
}

/// The number of an expression.
pub(crate) fn expr_id(k: usize) -> Result<ExprId, NoMemory>
    ensures { IfOk result (λ id. id ≡ k) }
{
    match u32::try_from(k) {
        Ok(number) => Ok(ExprId { number }),
        Err(_) => Err(NoMemory),
    }
}

fn add_body(k: usize, decl: &Decl, bodies: &mut Vec<ExprId>) -> Result<(), NoMemory>
    ensures { OnOk result (bodies.new.items ≡ bodies.old.items ++ spec.body_at k (tree_of decl.now)) }
{
    if let Decl::Function(..) = decl {
        bodies.push(expr_id(k)?)?;
    }
    Ok(())
}

/// The numbers of the bodies of functions.
pub(crate) fn bodies(alloc: Global, decls: &[Decl]) -> Result<Vec<ExprId>, NoMemory>
    ensures { IfOk result (λ v. v.items ≡ spec.bodies_in 0 (trees_of decls.now)) }
{
    let mut bodies = Vec::new(alloc);
    let mut k = 0;
    for decl in decls {
        add_body(k, decl, &mut bodies)?;
        k = after(k, expr_count(decl))?;
    }
    Ok(bodies)
}

fn with_body(signature: Signature, body: ExprId) -> Function
    ensures { result ≡ spec.with_body signature body }
{
    let Signature {
        name,
        params,
        result,
    } = signature;
    Function {
        name,
        params,
        result,
        body,
    }
}

/// Functions with the bodies of these numbers.
pub(crate) fn with_bodies(
    alloc: Global,
    functions: Vec<Signature>,
    bodies: &[ExprId],
) -> Result<Vec<Function>, NoMemory>
    ensures { IfOk result (λ v. v.items ≡ spec.with_bodies bodies.now functions.items) }
{
    let mut made = Vec::new(alloc);
    let mut rest = bodies;
    for signature in functions {
        let mut body = ExprId { number: 0 };
        if let Some((first, others)) = rest.split_first() {
            body = *first;
            rest = others;
        }
        made.push(with_body(signature, body))?;
    }
    Ok(made)
}

/// The expressions alone, and behind them that which names the first of what an equation names.
pub(crate) fn exprs(alloc: Global, typed: Vec<TypedExpr>) -> Result<Vec<Expr>, NoMemory>
    ensures { IfOk result (λ v. v.items ≡ map (λ (x : TypedExpr). x.expr) typed.items ++ Named 0 ∷ []) }
{
    let mut exprs = Vec::new(alloc);
    for each in typed {
        exprs.push(each.expr)?;
    }
    exprs.push(Expr {
        tree: ExprTree::Named(0),
    })?;
    Ok(exprs)
}
