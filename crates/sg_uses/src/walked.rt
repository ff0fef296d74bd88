//! The walk along declarations, which finds the first fault of three rows at once.
ghost use Rattle.std.specs.Prelude.{◌≡◌, map, flat_map, IfOk, OnOk};
ghost use Rattle.sg_ast.specs.View.{expr_of, pattern_of, equation_of, right_of, tree_of, trees_of};
ghost use Rattle.sg_ast.specs.declared.decl.Alt.{Alt};
ghost use Rattle.sg_ast.specs.declared.decl.AttrDecl.{AttrDecl};
ghost use Rattle.sg_ast.specs.declared.name.Typed.{Typed};
ghost use Rattle.sg_uses.specs.Noted.{noted, nothing_found};
ghost use Rattle.sg_uses.specs.SiteView.{site_of};
ghost use Rattle.sg_names.specs.Uses as uses;
ghost use Rattle.sg_names.specs.UnknownName.{unknown_name};
ghost use Rattle.sg_names.specs.TwiceBound.{twice_bound};
ghost use Rattle.sg_names.specs.Arity.{arity};

use crate::found::Found;
use crate::known::{Context, Site};
use crate::scope::Scope;
use crate::walk::{case, expr};
use sg_ast::decl::{Alt, AttrDecl, Decl, Equation, Item, Part, Right, SchemeDecl, Target};
use sg_ast::expr::Expr;
use sg_ast::name::{Name, Typed};
use sg_ast::pattern::Pattern;
use sg_kinds::ids::OpId;
use sg_kinds::memory::NoMemory;
use sg_names::names::Names;
use std::alloc::Global;

#[tactic(auto, using(crate::proofs::NotedLaws::map_more, crate::proofs::NotedLaws::map_all))]
fn phyla(context: &Context, found: &mut Found, names: &[Name]) -> Result<(), NoMemory>
    ensures { OnOk result (found.new ≡ noted context.now.names.now found.old (map uses.UsesPhylum names.now)) }
{
    for name in names {
        context.phylum(found, name)?;
    }
    Ok(())
}

#[tactic(auto, using(crate::proofs::NotedLaws::flat_more, crate::proofs::NotedLaws::flat_all))]
fn alts(context: &Context, found: &mut Found, alts: &[Alt]) -> Result<(), NoMemory>
    ensures { OnOk result (found.new ≡ noted context.now.names.now found.old
        (flat_map (λ (a : Alt). map uses.UsesPhylum a.args) alts.now)) }
{
    for alt in alts {
        phyla(context, found, alt.args.as_slice())?;
    }
    Ok(())
}

#[tactic(auto, using(crate::proofs::NotedLaws::map_more, crate::proofs::NotedLaws::map_all))]
fn attributes(context: &Context, found: &mut Found, attrs: &[AttrDecl]) -> Result<(), NoMemory>
    ensures { OnOk result (found.new ≡ noted context.now.names.now found.old
        (map (λ (a : AttrDecl). uses.UsesPhylum a.of) attrs.now)) }
{
    for attr in attrs {
        context.phylum(found, &attr.of)?;
    }
    Ok(())
}

#[tactic(auto, using(crate::proofs::NotedLaws::map_more, crate::proofs::NotedLaws::map_all))]
fn locals(context: &Context, found: &mut Found, locals: &[Typed]) -> Result<(), NoMemory>
    ensures { OnOk result (found.new ≡ noted context.now.names.now found.old
        (map (λ (l : Typed). uses.UsesPhylum l.of) locals.now)) }
{
    for local in locals {
        context.phylum(found, &local.of)?;
    }
    Ok(())
}

/// The locals of an operator.
#[tactic(auto, using(crate::proofs::NotedLaws::fold_more, crate::proofs::NotedLaws::fold_all))]
fn local_scope(alloc: Global, names: &Names, op: OpId) -> Result<Scope, NoMemory>
    ensures { IfOk result (λ s. s ≡ uses.local_scope names.now op) }
{
    let mut scope = Scope::new(alloc);
    let locals = names.locals(op);
    for local in locals {
        scope.bind(alloc, local.name.as_slice())?;
    }
    Ok(scope)
}

fn target(
    context: &Context,
    scope: &Scope,
    found: &mut Found,
    target: &Target,
) -> Result<(), NoMemory>
    ensures { OnOk result (found.new ≡ noted context.now.names.now found.old
        (uses.target_uses (site_of context.now.site) scope.now target.now)) }
{
    match target {
        Target::Attribute(reference) => context.reference(found, reference),
        Target::Local(name) => context.variable(scope, found, name),
    }
}

#[tactic(auto, using(crate::proofs::NotedLaws::noted_append))]
fn equation(
    context: &Context,
    scope: &mut Scope,
    found: &mut Found,
    equation: &Equation,
) -> Result<(), NoMemory>
    ensures scope { OnOk result (scope.new ≡ scope.old) }
    ensures found { OnOk result (found.new ≡ noted context.now.names.now found.old
        (uses.equation_uses (site_of context.now.site) scope.old (equation_of equation.now))) }
{
    target(context, scope, found, &equation.target)?;
    expr(context, scope, found, &equation.expr)
}

#[tactic(auto, using(crate::proofs::NotedLaws::view_more, crate::proofs::NotedLaws::view_all))]
fn equations(
    context: &Context,
    scope: &mut Scope,
    found: &mut Found,
    equations: &[Equation],
) -> Result<(), NoMemory>
    ensures { OnOk result (found.new ≡ noted context.now.names.now found.old
        (flat_map (uses.equation_uses (site_of context.now.site) scope.old) (map equation_of equations.now))) }
{
    for one in equations {
        equation(context, scope, found, one)?;
    }
    Ok(())
}

fn item(context: &Context, scope: &Scope, found: &mut Found, item: &Item) -> Result<(), NoMemory>
    ensures { OnOk result (found.new ≡ noted context.now.names.now found.old
        (uses.item_uses (site_of context.now.site) scope.now item.now)) }
{
    match item {
        Item::Shows(shown) => target(context, scope, found, shown),
        _ => Ok(()),
    }
}

#[tactic(auto, using(crate::proofs::NotedLaws::flat_more, crate::proofs::NotedLaws::flat_all))]
fn scheme(
    context: &Context,
    scope: &Scope,
    found: &mut Found,
    scheme: &SchemeDecl,
) -> Result<(), NoMemory>
    ensures { OnOk result (found.new ≡ noted context.now.names.now found.old
        (uses.scheme_uses (site_of context.now.site) scope.now scheme.now)) }
{
    let items = scheme.items.as_slice();
    for one in items {
        item(context, scope, found, one)?;
    }
    Ok(())
}

#[tactic(auto, using(crate::proofs::NotedLaws::flat_more, crate::proofs::NotedLaws::flat_all))]
fn schemes(
    context: &Context,
    scope: &Scope,
    found: &mut Found,
    schemes: &[SchemeDecl],
) -> Result<(), NoMemory>
    ensures { OnOk result (found.new ≡ noted context.now.names.now found.old
        (flat_map (uses.scheme_uses (site_of context.now.site) scope.now) schemes.now)) }
{
    for one in schemes {
        scheme(context, scope, found, one)?;
    }
    Ok(())
}

/// Notes the uses of parameters, and makes them visible.
fn parameters(
    context: &Context,
    scope: &mut Scope,
    found: &mut Found,
    params: &[Typed],
) -> Result<(), NoMemory>
    ensures scope { OnOk result (scope.new ≡ uses.params_scope scope.old params.now) }
    ensures found { OnOk result (found.new ≡ noted context.now.names.now found.old
        (uses.params_uses scope.old params.now)) }
{
    for param in params {
        context.phylum(found, &param.of)?;
        context.binding(scope, found, &param.name)?;
        scope.bind(context.alloc, param.name.text.as_slice())?;
    }
    Ok(())
}

fn part(context: &Context, found: &mut Found, part: &Part) -> Result<(), NoMemory>
    ensures { OnOk result (found.new ≡ noted context.now.names.now found.old (uses.part_uses part.now)) }
{
    match part {
        Part::Named(name) => context.symbol(found, name),
        Part::Literal(_) => Ok(()),
    }
}

#[tactic(auto, using(crate::proofs::NotedLaws::flat_more, crate::proofs::NotedLaws::flat_all))]
fn parts(context: &Context, found: &mut Found, parts: &[Part]) -> Result<(), NoMemory>
    ensures { OnOk result (found.new ≡ noted context.now.names.now found.old (flat_map uses.part_uses parts.now)) }
{
    for one in parts {
        part(context, found, one)?;
    }
    Ok(())
}

#[tactic(auto, using(crate::proofs::NotedLaws::noted_append))]
fn right(
    alloc: Global,
    names: &Names,
    found: &mut Found,
    left: &Name,
    right: &Right,
) -> Result<(), NoMemory>
    ensures { OnOk result (found.new ≡ noted names.now found.old (uses.right_uses left.now.text (right_of right.now))) }
{
    let symbols = right.parts.as_slice();
    let site = Site::Production(&left.text, symbols);
    let context = Context { alloc, names, site };
    parts(&context, found, symbols)?;
    expr(&context, &mut Scope::new(alloc), found, &right.expr)
}

#[tactic(auto, using(crate::proofs::NotedLaws::view_more, crate::proofs::NotedLaws::view_all))]
fn rights(
    alloc: Global,
    names: &Names,
    found: &mut Found,
    left: &Name,
    rights: &[Right],
) -> Result<(), NoMemory>
    ensures { OnOk result (found.new ≡ noted names.now found.old
        (flat_map (uses.right_uses left.now.text) (map right_of rights.now))) }
{
    for one in rights {
        right(alloc, names, found, left, one)?;
    }
    Ok(())
}

fn within_equations(
    alloc: Global,
    names: &Names,
    found: &mut Found,
    op: Option<OpId>,
    all: &[Equation],
) -> Result<(), NoMemory>
    ensures { OnOk result (found.new ≡ noted names.now found.old
        (uses.within (uses.equations_uses names.now (map equation_of all.now)) op)) }
{
    let Some(op) = op else {
        return Ok(());
    };
    let mut scope = local_scope(alloc, names, op)?;
    let site = Site::Operator(op);
    equations(&Context { alloc, names, site }, &mut scope, found, all)
}

fn within_schemes(
    alloc: Global,
    names: &Names,
    found: &mut Found,
    op: Option<OpId>,
    all: &[SchemeDecl],
) -> Result<(), NoMemory>
    ensures { OnOk result (found.new ≡ noted names.now found.old
        (uses.within (uses.schemes_uses names.now all.now) op)) }
{
    let Some(op) = op else {
        return Ok(());
    };
    let scope = local_scope(alloc, names, op)?;
    let site = Site::Operator(op);
    schemes(&Context { alloc, names, site }, &scope, found, all)
}

/// Notes the uses of the locals and equations of an operator.
#[tactic(auto, using(crate::proofs::NotedLaws::noted_append))]
fn in_equations(
    context: &Context,
    found: &mut Found,
    phylum: &Name,
    name: &Name,
    own: &[Typed],
    all: &[Equation],
) -> Result<(), NoMemory>
    ensures { OnOk result (found.new ≡ noted context.now.names.now found.old
        (uses.in_equations context.now.names.now phylum.now name.now own.now (map equation_of all.now))) }
{
    context.operator_use(found, phylum, name)?;
    locals(context, found, own)?;
    let op = context.names.operator_at(phylum, name);
    within_equations(context.alloc, context.names, found, op, all)
}

/// Notes the uses of the schemes of an operator.
fn in_schemes(
    context: &Context,
    found: &mut Found,
    phylum: &Name,
    name: &Name,
    all: &[SchemeDecl],
) -> Result<(), NoMemory>
    ensures { OnOk result (found.new ≡ noted context.now.names.now found.old
        (uses.in_schemes context.now.names.now phylum.now name.now all.now)) }
{
    context.operator_use(found, phylum, name)?;
    let op = context.names.operator_at(phylum, name);
    within_schemes(context.alloc, context.names, found, op, all)
}

/// Notes the uses of a function.
#[tactic(auto, using(crate::proofs::NotedLaws::noted_append))]
fn in_function(
    context: &Context,
    found: &mut Found,
    of: &Name,
    params: &[Typed],
    body: &Expr,
) -> Result<(), NoMemory>
    requires { site_of context.now.site ≡ uses.Elsewhere }
    ensures { OnOk result (found.new ≡ noted context.now.names.now found.old
        (uses.in_function of.now params.now (expr_of body.now))) }
{
    context.phylum(found, of)?;
    let mut scope = Scope::new(context.alloc);
    parameters(context, &mut scope, found, params)?;
    expr(context, &mut scope, found, body)
}

/// Notes the uses of a transformation.
fn in_transform(
    context: &Context,
    found: &mut Found,
    of: &Name,
    pattern: &Pattern,
    body: &Expr,
) -> Result<(), NoMemory>
    requires { site_of context.now.site ≡ uses.Elsewhere }
    ensures { OnOk result (found.new ≡ noted context.now.names.now found.old
        (uses.in_transform of.now (pattern_of pattern.now) (expr_of body.now))) }
{
    context.phylum(found, of)?;
    case(
        context,
        &mut Scope::new(context.alloc),
        found,
        pattern,
        body,
    )
}

/// Notes the uses of an entry.
fn in_entry(
    context: &Context,
    found: &mut Found,
    phylum: &Name,
    nonterminal: &Name,
    attr: &Name,
) -> Result<(), NoMemory>
    ensures { OnOk result (found.new ≡ noted context.now.names.now found.old
        (uses.in_entry phylum.now nonterminal.now attr.now)) }
{
    context.phylum(found, phylum)?;
    context.result(found, nonterminal, attr)
}

/// Notes the uses of attributes of an owner.
fn in_attributes(
    context: &Context,
    found: &mut Found,
    owner: &Name,
    attrs: &[AttrDecl],
) -> Result<(), NoMemory>
    ensures { OnOk result (found.new ≡ noted context.now.names.now found.old (uses.in_attributes owner.now attrs.now)) }
{
    context.with_attributes(found, owner)?;
    attributes(context, found, attrs)
}

/// Notes the uses of a declaration.
fn declaration(alloc: Global, names: &Names, found: &mut Found, decl: &Decl) -> Result<(), NoMemory>
    ensures { OnOk result (found.new ≡ noted names.now found.old (uses.decl_uses names.now (tree_of decl.now))) }
{
    let site = Site::Elsewhere;
    let context = Context { alloc, names, site };
    match decl {
        Decl::Root(name) | Decl::Listed(name) | Decl::Optional(_, name) => {
            context.with_operators(found, name)
        }
        Decl::Operators(_, all) => alts(&context, found, all.as_slice()),
        Decl::Attributes(name, attrs) => in_attributes(&context, found, name, attrs.as_slice()),
        Decl::Equations(phylum, name, own, all) => {
            in_equations(&context, found, phylum, name, own.as_slice(), all)
        }
        Decl::Schemes(phylum, name, _, all) => {
            in_schemes(&context, found, phylum, name, all.as_slice())
        }
        Decl::Function(of, _, params, body) => {
            in_function(&context, found, of, params.as_slice(), body)
        }
        Decl::Transform(of, _, pattern, body) => in_transform(&context, found, of, pattern, body),
        Decl::Productions(left, all) => rights(alloc, names, found, left, all),
        Decl::Entry(phylum, nonterminal, attr) => {
            in_entry(&context, found, phylum, nonterminal, attr)
        }
        Decl::Lexeme(_, _) | Decl::Levels(_, _, _) => Ok(()),
    }
}

/// The first unknown name, the first name that is bound twice and the first wrong number of parts, by one walk.
#[tactic(auto, using(crate::proofs::NotedLaws::view_more, crate::proofs::NotedLaws::view_all))]
fn walked_from(alloc: Global, names: &Names, decls: &[Decl]) -> Result<Found, NoMemory>
    ensures { IfOk result (λ f. f ≡ noted names.now nothing_found (uses.uses names.now (trees_of decls.now))) }
{
    let mut found = Found {
        unknown: None,
        twice: None,
        arity: None,
    };
    for decl in decls {
        declaration(alloc, names, &mut found, decl)?;
    }
    Ok(found)
}

/// The first unknown name, the first name that is bound twice and the first wrong number of parts.
pub fn walked(alloc: Global, names: &Names, decls: &[Decl]) -> Result<Found, NoMemory>
    ensures unknown { IfOk result (λ f. f.unknown ≡ unknown_name names.now (trees_of decls.now)) }
    ensures twice { IfOk result (λ f. f.twice ≡ twice_bound names.now (trees_of decls.now)) }
    ensures arity { IfOk result (λ f. f.arity ≡ arity names.now (trees_of decls.now)) }
{
    let found = walked_from(alloc, names, decls)?;
    Ok(found)
}
