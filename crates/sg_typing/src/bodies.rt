//! The expressions and patterns of declarations.
ghost use Rattle.std.specs.Prelude.{◌≡◌, ◌++◌, [], map, unwrap_or, Ok, None, IfOk};
ghost use Rattle.sg_ast.specs.FirstFault.{first};
ghost use Rattle.sg_ast.specs.View.{tree_of, trees_of, equation_of, right_of, expr_of, pattern_of};
ghost use Rattle.sg_kinds.specs.ExprView as view;
ghost use Rattle.sg_typing.specs.Bodies as spec;
ghost use Rattle.sg_types.specs.Bindings.{OfEquation};
ghost use Rattle.sg_types.specs.Expressions.{where_wanted};
ghost use Rattle.sg_types.specs.ExpressionsView.{IsFound};
ghost use Rattle.sg_typing.specs.BodiesView.{AreBodies};
ghost use Rattle.sg_types.specs.Patterns as patterns;

use crate::arguments::args_in;
use sg_ast::decl::{Decl, Equation, Right, Target};
use sg_ast::expr::Expr as Written;
use sg_ast::name::{Name, Typed as Param};
use sg_ast::pattern::Pattern as Matched;
use sg_kinds::expr::Expr;
use sg_kinds::fault::Position;
use sg_kinds::ids::{OpId, PhylumId};
use sg_kinds::memory::NoMemory;
use sg_kinds::pattern::Pattern;
use sg_kinds::row::Row;
use sg_kinds::spec::Occurrence;
use sg_names::names::Names;
use sg_types::bindings::{Owner, local_slot, slot_type};
use sg_types::expr::{Walk, expr};
use sg_types::found::{Found, where_wanted};
use sg_types::pattern::pattern;
use sg_types::scope::{Scope, Variable};
use sg_types::types::{earlier, op_or_none, phylum_or_none};
use std::alloc::Global;

/// An expression of the record, its type, and of an equation its arguments: the different occurrences that it names,
/// in the order of their first mention.
#[derive(Drop)]
pub struct TypedExpr {
    pub expr: Expr,
    pub of: PhylumId,
    pub args: Row<Occurrence>,
}

/// An expression that was walked over, and its first mismatch where a type is wanted.
#[derive(Drop)]
struct Checked {
    typed: TypedExpr,
    mismatch: Option<Position>,
}

/// A transformation's pattern and expression.
#[derive(Drop)]
struct Transformed {
    pattern: Pattern,
    body: Checked,
}

/// The expressions and patterns of declarations so far.
#[derive(Drop)]
pub(crate) struct Bodies {
    pub exprs: Vec<TypedExpr>,
    pub patterns: Vec<Pattern>,
}

/// How many expressions of the record a declaration has.
pub fn expr_count(decl: &Decl) -> usize
    ensures { result ≡ spec.expr_count (tree_of decl.now) }
{
    match decl {
        Decl::Equations(_, _, _, equations) => equations.len(),
        Decl::Function(..) | Decl::Transform(..) => 1,
        Decl::Productions(_, rights) => rights.len(),
        _ => 0,
    }
}

fn walked(names: &Names, found: Found, wanted: &Option<PhylumId>, args: Vec<Occurrence>) -> Checked
    ensures typed { result.typed ≡ record {
      expr = view.expr_of found.tree;
      of = unwrap_or found.of 0;
      args = args.items;
    } }
    ensures mismatch { result.mismatch ≡ where_wanted names.now wanted.now found.of found.place found.mismatch }
{
    let mismatch = where_wanted(names, wanted, &found);
    let of = phylum_or_none(&found.of);
    let expr = Expr { tree: found.tree };
    let args = Row::new(args);
    Checked {
        typed: TypedExpr { expr, of, args },
        mismatch,
    }
}

/// The type of what an equation defines, or a scheme shows.
pub fn target_type(names: &Names, op: OpId, target: &Target) -> Option<PhylumId>
    ensures { result ≡ spec.target_type names.now op target.now }
{
    match target {
        Target::Attribute(reference) => {
            let occurrence = names.reference(op, reference)?;
            slot_type(names, op, occurrence.at, occurrence.slot as usize)
        }
        Target::Local(name) => {
            let slot = local_slot(names, op, &name.text)?;
            slot_type(names, op, 0, slot)
        }
    }
}

/// The operator of a phylum, 0 where the names mean nothing.
pub fn operator(names: &Names, phylum: &Name, op: &Name) -> OpId
    ensures { result ≡ spec.operator names.now phylum.now op.now }
{
    op_or_none(names.operator_at(phylum, op))
}

// the expression of an equation with these arguments
fn equation_found(
    alloc: Global,
    names: &Names,
    op: OpId,
    args: &[Occurrence],
    e: &Written,
) -> Result<Found, NoMemory>
    ensures { IfOk result (IsFound names.now (OfEquation op args.now) [] (expr_of e.now)) }
{
    let owner = Owner::Equation(op, args);
    let walk = Walk {
        alloc,
        names,
        owner,
    };
    let mut scope = Scope::new(alloc);
    expr(&walk, e, &mut scope)
}

fn equation(
    alloc: Global,
    names: &Names,
    op: OpId,
    equation: &Equation,
) -> Result<Checked, NoMemory>
    ensures typed { IfOk result (λ x. x.typed ≡ spec.equation_typed names.now op (equation_of equation.now)) }
    ensures mismatch { IfOk result (λ x. x.mismatch ≡ spec.equation_mismatch names.now op (equation_of equation.now)) }
{
    let args = args_in(alloc, names, op, &equation.expr)?;
    let wanted = target_type(names, op, &equation.target);
    let found = equation_found(alloc, names, op, &args, &equation.expr)?;
    Ok(walked(names, found, &wanted, args))
}

fn equations(
    alloc: Global,
    names: &Names,
    op: OpId,
    equations: &[Equation],
    exprs: &mut Vec<TypedExpr>,
) -> Result<Option<Position>, NoMemory>
    ensures mismatch { IfOk result (λ m. m ≡ first (spec.equation_mismatch names.now op)
        (map equation_of equations.now)) }
    ensures exprs { result ≡ Ok None → exprs.new.items
        ≡ exprs.old.items ++ map (spec.equation_typed names.now op) (map equation_of equations.now) }
{
    for each in equations {
        let walked = equation(alloc, names, op, each)?;
        if let Some(place) = walked.mismatch {
            return Ok(Some(place));
        }
        exprs.push(walked.typed)?;
    }
    Ok(None)
}

fn right(alloc: Global, names: &Names, left: &Name, right: &Right) -> Result<Checked, NoMemory>
    ensures typed { IfOk result (λ x. x.typed ≡ spec.right_typed names.now left.now (right_of right.now)) }
    ensures mismatch { IfOk result (λ x. x.mismatch ≡ spec.right_mismatch names.now left.now (right_of right.now)) }
{
    let wanted = result_type(names, left);
    let walk = Walk {
        alloc,
        names,
        owner: Owner::Production(&left.text, right.parts.as_slice()),
    };
    let mut scope = Scope::new(alloc);
    let found = expr(&walk, &right.expr, &mut scope)?;
    Ok(walked(names, found, &wanted, Vec::new(alloc)))
}

/// The type of the first attribute of a nonterminal, its result.
pub fn result_type(names: &Names, left: &Name) -> Option<PhylumId>
    ensures { result ≡ spec.result_type names.now left.now }
{
    let attr = names.symbol_attrs(&left.text).first()?;
    Some(attr.of)
}

fn rights(
    alloc: Global,
    names: &Names,
    left: &Name,
    rights: &[Right],
    exprs: &mut Vec<TypedExpr>,
) -> Result<Option<Position>, NoMemory>
    ensures mismatch { IfOk result (λ m. m ≡ first (spec.right_mismatch names.now left.now) (map right_of rights.now)) }
    ensures exprs { result ≡ Ok None → exprs.new.items
        ≡ exprs.old.items ++ map (spec.right_typed names.now left.now) (map right_of rights.now) }
{
    for each in rights {
        let walked = right(alloc, names, left, each)?;
        if let Some(place) = walked.mismatch {
            return Ok(Some(place));
        }
        exprs.push(walked.typed)?;
    }
    Ok(None)
}

/// The parameters of a function as its variables, each with the type of its phylum if that is known.
pub fn parameters(alloc: Global, names: &Names, params: &[Param]) -> Result<Scope, NoMemory>
    ensures { IfOk result (λ scope. scope ≡ map (spec.parameter names.now) params.now) }
{
    let mut scope = Scope::new(alloc);
    for param in params {
        scope.bind(Variable {
            name: param.name.text.copy(alloc)?,
            of: names.phylum_named(&param.of.text),
        })?;
    }
    Ok(scope)
}

fn function(
    alloc: Global,
    names: &Names,
    of: &Name,
    params: &[Param],
    body: &Written,
) -> Result<Checked, NoMemory>
    ensures typed { IfOk result (λ x. x.typed ≡ spec.function_typed names.now params.now (expr_of body.now)) }
    ensures mismatch { IfOk result (λ x. x.mismatch ≡ spec.function_mismatch names.now of.now params.now
        (expr_of body.now)) }
{
    let wanted = names.phylum_named(&of.text);
    let mut scope = parameters(alloc, names, params)?;
    let walk = Walk {
        alloc,
        names,
        owner: Owner::Nothing,
    };
    let found = expr(&walk, body, &mut scope)?;
    Ok(walked(names, found, &wanted, Vec::new(alloc)))
}

fn transform(
    alloc: Global,
    names: &Names,
    phylum: &Name,
    matched: &Matched,
    body: &Written,
) -> Result<Transformed, NoMemory>
    ensures pattern { IfOk result (λ x. x.pattern ≡ patterns.recorded names.now (pattern_of matched.now)) }
    ensures typed { IfOk result (λ x. x.body.typed ≡ spec.transform_typed names.now phylum.now
        (pattern_of matched.now) (expr_of body.now)) }
    ensures mismatch { IfOk result (λ x. x.body.mismatch
        ≡ spec.transform_mismatch names.now phylum.now (pattern_of matched.now) (expr_of body.now)) }
{
    let wanted = names.phylum_named(&phylum.text);
    let mut scope = Scope::new(alloc);
    let checked = pattern(alloc, names, matched, &wanted, &mut scope)?;
    let walk = Walk {
        alloc,
        names,
        owner: Owner::Nothing,
    };
    let found = expr(&walk, body, &mut scope)?;
    let Checked { typed, mismatch } = walked(names, found, &wanted, Vec::new(alloc));
    let mismatch = earlier(checked.mismatch, mismatch);
    Ok(Transformed {
        pattern: Pattern { tree: checked.tree },
        body: Checked { typed, mismatch },
    })
}

// the expressions and the pattern of a declaration, behind others, and its first mismatch
fn body(
    alloc: Global,
    names: &Names,
    decl: &Decl,
    bodies: &mut Bodies,
) -> Result<Option<Position>, NoMemory>
    ensures mismatch { IfOk result (λ m. m ≡ spec.mismatch_at_decl names.now (tree_of decl.now)) }
    ensures exprs { result ≡ Ok None → bodies.new.exprs.items
        ≡ bodies.old.exprs.items ++ spec.exprs_at names.now (tree_of decl.now) }
    ensures patterns { result ≡ Ok None → bodies.new.patterns.items
        ≡ bodies.old.patterns.items ++ spec.patterns_at names.now (tree_of decl.now) }
{
    match decl {
        Decl::Equations(phylum, op, _, list) => {
            let op = operator(names, phylum, op);
            equations(alloc, names, op, list, &mut bodies.exprs)
        }
        Decl::Function(of, _, params, e) => {
            let found = function(alloc, names, of, params.as_slice(), e)?;
            bodies.exprs.push(found.typed)?;
            Ok(found.mismatch)
        }
        Decl::Transform(phylum, _, matched, e) => {
            let Transformed { pattern, body } = transform(alloc, names, phylum, matched, e)?;
            bodies.exprs.push(body.typed)?;
            bodies.patterns.push(pattern)?;
            Ok(body.mismatch)
        }
        Decl::Productions(left, list) => rights(alloc, names, left, list, &mut bodies.exprs),
        _ => Ok(None),
    }
}

/// The expressions and patterns of declarations, or their first mismatch.
pub(crate) fn all_bodies(
    alloc: Global,
    names: &Names,
    decls: &[Decl],
) -> Result<Result<Bodies, Position>, NoMemory>
    ensures { IfOk result (AreBodies names.now (trees_of decls.now)) }
{
    let mut bodies = Bodies {
        exprs: Vec::new(alloc),
        patterns: Vec::new(alloc),
    };
    for decl in decls {
        if let Some(place) = body(alloc, names, decl, &mut bodies)? {
            return Ok(Err(place));
        }
    }
    Ok(Ok(bodies))
}
