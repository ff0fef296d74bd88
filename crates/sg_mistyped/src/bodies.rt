//! The mismatches of declarations.
ghost use Rattle.std.specs.Prelude.{◌≡◌, ◌++◌, [], flat_map, map, IfOk, OnOk};
ghost use Rattle.sg_ast.specs.View.{equation_of, expr_of, pattern_of, right_of, tree_of, trees_of};
ghost use Rattle.sg_names.specs.Lookups.{phylum_named};
ghost use Rattle.sg_types.specs.Bindings.{OfEquation, OfNothing};
ghost use Rattle.sg_typing.specs.Bodies.{parameter};
ghost use Rattle.sg_mistyped.specs.Mistyped as spec;

use crate::exprs::where_wanted;
use crate::mistyped::Mistyped;
use crate::patterns::pattern;
use sg_ast::decl::{Decl, Equation, Right};
use sg_ast::expr::Expr;
use sg_ast::name::{Name, Typed};
use sg_ast::pattern::Pattern;
use sg_kinds::ids::{OpId, PhylumId};
use sg_kinds::memory::NoMemory;
use sg_kinds::spec::Occurrence;
use sg_names::names::Names;
use sg_types::bindings::Owner;
use sg_types::expr::Walk;
use sg_types::scope::Scope;
use sg_typing::{args_in, operator, parameters, result_type, target_type};
use std::alloc::Global;

// an expression of an equation with these arguments, where this type is wanted
fn defined(
    alloc: Global,
    names: &Names,
    op: OpId,
    args: &[Occurrence],
    e: &Expr,
    wanted: &Option<PhylumId>,
    found: &mut Vec<Mistyped>,
) -> Result<(), NoMemory>
    ensures { OnOk result (found.new.items ≡ found.old.items
        ++ spec.of_body names.now (OfEquation op args.now) [] wanted.now (expr_of e.now)) }
{
    let walk = Walk {
        alloc,
        names,
        owner: Owner::Equation(op, args),
    };
    let mut scope = Scope::new(alloc);
    where_wanted(&walk, e, wanted, &mut scope, found)?;
    Ok(())
}

fn equation(
    alloc: Global,
    names: &Names,
    op: OpId,
    equation: &Equation,
    found: &mut Vec<Mistyped>,
) -> Result<(), NoMemory>
    ensures { OnOk result (found.new.items ≡ found.old.items
        ++ spec.of_equation names.now op (equation_of equation.now)) }
{
    let args = args_in(alloc, names, op, &equation.expr)?;
    let wanted = target_type(names, op, &equation.target);
    defined(alloc, names, op, &args, &equation.expr, &wanted, found)
}

fn equations(
    alloc: Global,
    names: &Names,
    op: OpId,
    equations: &[Equation],
    found: &mut Vec<Mistyped>,
) -> Result<(), NoMemory>
    ensures { OnOk result (found.new.items ≡ found.old.items
        ++ flat_map (spec.of_equation names.now op) (map equation_of equations.now)) }
{
    for each in equations {
        equation(alloc, names, op, each, found)?;
    }
    Ok(())
}

fn right(
    alloc: Global,
    names: &Names,
    left: &Name,
    right: &Right,
    found: &mut Vec<Mistyped>,
) -> Result<(), NoMemory>
    ensures { OnOk result (found.new.items ≡ found.old.items
        ++ spec.of_right names.now left.now (right_of right.now)) }
{
    let walk = Walk {
        alloc,
        names,
        owner: Owner::Production(&left.text, right.parts.as_slice()),
    };
    let wanted = result_type(names, left);
    let mut scope = Scope::new(alloc);
    where_wanted(&walk, &right.expr, &wanted, &mut scope, found)?;
    Ok(())
}

fn rights(
    alloc: Global,
    names: &Names,
    left: &Name,
    rights: &[Right],
    found: &mut Vec<Mistyped>,
) -> Result<(), NoMemory>
    ensures { OnOk result (found.new.items ≡ found.old.items
        ++ flat_map (spec.of_right names.now left.now) (map right_of rights.now)) }
{
    for each in rights {
        right(alloc, names, left, each, found)?;
    }
    Ok(())
}

fn function(
    alloc: Global,
    names: &Names,
    of: &Name,
    params: &[Typed],
    body: &Expr,
    found: &mut Vec<Mistyped>,
) -> Result<(), NoMemory>
    ensures { OnOk result (found.new.items ≡ found.old.items ++ spec.of_body names.now OfNothing
        (map (parameter names.now) params.now) (phylum_named names.now of.now.text) (expr_of body.now)) }
{
    let mut scope = parameters(alloc, names, params)?;
    let owner = Owner::Nothing;
    let walk = Walk {
        alloc,
        names,
        owner,
    };
    let wanted = names.phylum_named(&of.text);
    where_wanted(&walk, body, &wanted, &mut scope, found)?;
    Ok(())
}

fn transform(
    alloc: Global,
    names: &Names,
    phylum: &Name,
    matched: &Pattern,
    body: &Expr,
    found: &mut Vec<Mistyped>,
) -> Result<(), NoMemory>
    ensures { OnOk result (found.new.items ≡ found.old.items ++ spec.of_transform names.now
        (phylum_named names.now phylum.now.text) (pattern_of matched.now) (expr_of body.now)) }
{
    let wanted = names.phylum_named(&phylum.text);
    let mut scope = Scope::new(alloc);
    sg_types::pattern::pattern(alloc, names, matched, &wanted, &mut scope)?;
    pattern(names, matched, &wanted, found)?;
    let owner = Owner::Nothing;
    let walk = Walk {
        alloc,
        names,
        owner,
    };
    where_wanted(&walk, body, &wanted, &mut scope, found)?;
    Ok(())
}

fn declaration(
    alloc: Global,
    names: &Names,
    decl: &Decl,
    found: &mut Vec<Mistyped>,
) -> Result<(), NoMemory>
    ensures { OnOk result (found.new.items ≡ found.old.items ++ spec.of_decl names.now (tree_of decl.now)) }
{
    match decl {
        Decl::Equations(phylum, op, _, list) => {
            equations(alloc, names, operator(names, phylum, op), list, found)
        }
        Decl::Function(of, _, params, body) => {
            function(alloc, names, of, params.as_slice(), body, found)
        }
        Decl::Transform(phylum, _, matched, body) => {
            transform(alloc, names, phylum, matched, body, found)
        }
        Decl::Productions(left, list) => rights(alloc, names, left, list, found),
        _ => Ok(()),
    }
}

/// All mismatches of declarations with these names, in the order of the text, each with its types. Where an expression
/// or pattern mismatches, its parts are looked at too.
pub fn mistypes(alloc: Global, names: &Names, decls: &[Decl]) -> Result<Vec<Mistyped>, NoMemory>
    ensures { IfOk result (λ found. found.items ≡ spec.mistypes names.now (trees_of decls.now)) }
{
    let mut found = Vec::new(alloc);
    for decl in decls {
        declaration(alloc, names, decl, &mut found)?;
    }
    Ok(found)
}
