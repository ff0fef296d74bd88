//! Expressions: one walk finds the expression of the record, its type and the first mismatch.
ghost use Rattle.std.specs.Prelude.{◌≡◌, [], length, Some, None, unwrap_or, IfOk, OnOk};
ghost use Rattle.sg_ast.specs.View.{pattern_of, expr_of, exprs_of, cases_of};
ghost use Rattle.sg_ast.specs.Expressions as plain;
ghost use Rattle.sg_kinds.specs.ExprView as view;
ghost use Rattle.sg_kinds.specs.Expressions as kept;
ghost use Rattle.sg_kinds.specs.Specification.{texts, phylum_of};
ghost use Rattle.sg_kinds.specs.Values as value;
ghost use Rattle.sg_kinds.specs.declared.marks.Made.TheVariants.{Completing};
ghost use Rattle.sg_names.specs.Lookups as look;
ghost use Rattle.sg_types.specs.Bindings.{type_there, place_there};
ghost use Rattle.sg_types.specs.Expressions as spec;
ghost use Rattle.sg_names.specs.declared.table.Callable.TheVariants as callable;
ghost use Rattle.sg_types.specs.Types as types;
ghost use Rattle.sg_types.specs.ExpressionsView.{IsFound, AreFound, IsBuiltIn, IsCase, AreCases};
ghost use Rattle.sg_types.specs.OwnersView.{owner_of};

use crate::bindings::{Binding, Owner, reference_at, remote_at, variable_at};
use crate::found::{
    Found, FoundCase, FoundCases, FoundList, chain, chosen, constant, distinguished, mismatch_of,
    where_wanted,
};
use crate::operators::{between, prefix_of, prefix_type};
use crate::pattern::pattern;
use crate::scope::{Scope, Variable};
use crate::types::{BOOL, INT, STR, earlier, phylum_or_none, untyped};
use sg_ast::expr::{Cases, Expr, Exprs, Infix, Operands, Prefix};
use sg_ast::name::{Name, Pair, Quoted, Reference, Remote};
use sg_ast::pattern::Pattern;
use sg_kinds::expr::{CaseList, ExprList, ExprTree};
use sg_kinds::fault::Position;
use sg_kinds::ids::{OpId, PhylumId};
use sg_kinds::marks::{Made, Unary};
use sg_kinds::memory::NoMemory;
use sg_kinds::pattern::{Literal, Pattern as Kept};
use sg_names::names::Names;
use sg_names::table::Callable;
use std::alloc::Global;
use std::boxed::Box;

/// What does not change while an expression is walked over.
#[derive(Clone, Copy)]
pub struct Walk<'a> {
    pub alloc: Global,
    pub names: &'a Names,
    pub owner: Owner<'a>,
}

fn text(alloc: Global, quoted: &Quoted) -> Result<Found, NoMemory>
    ensures tree { IfOk result (λ f. view.expr_of f.tree ≡ kept.Constant (value.Chars quoted.now.text)) }
    ensures of { IfOk result (λ f. f.of ≡ Some texts) }
    ensures place { IfOk result (λ f. f.place ≡ quoted.now.place) }
    ensures mismatch { IfOk result (λ f. f.mismatch ≡ None) }
{
    let text = quoted.text.copy(alloc)?;
    Ok(constant(Literal::Text(text), STR, quoted.place))
}

// a name that stands for a binding, or for nothing
fn named(binding: Option<Binding>, place: Position) -> Result<Found, NoMemory>
    ensures tree { IfOk result (λ f. view.expr_of f.tree ≡ kept.Named (place_there binding)) }
    ensures of { IfOk result (λ f. f.of ≡ type_there binding) }
    ensures place { IfOk result (λ f. f.place ≡ place) }
    ensures mismatch { IfOk result (λ f. f.mismatch ≡ types.untyped (type_there binding) place) }
{
    let Some((at, of)) = binding else {
        return Ok(Found {
            tree: ExprTree::Named(0),
            of: None,
            place,
            mismatch: Some(place),
        });
    };
    let Ok(number) = u32::try_from(at) else {
        return Err(NoMemory);
    };
    let mismatch = untyped(&of, place);
    Ok(Found {
        tree: ExprTree::Named(number),
        of,
        place,
        mismatch,
    })
}

fn variable(walk: &Walk<'_>, name: &Name, scope: &Scope) -> Result<Found, NoMemory>
    ensures { IfOk result (IsFound walk.now.names.now (owner_of walk.now.owner) scope.now (plain.Variable name.now)) }
{
    let binding = variable_at(walk.names, &walk.owner, scope, &name.text)?;
    named(binding, name.place)
}

fn attribute(walk: &Walk<'_>, reference: &Reference, scope: &Scope) -> Result<Found, NoMemory>
    ensures { IfOk result (IsFound walk.now.names.now (owner_of walk.now.owner) scope.now
        (plain.Attribute reference.now)) }
{
    let _ = scope;
    let binding = reference_at(walk.names, &walk.owner, reference);
    named(binding, reference.of.place())
}

fn first_type(names: &Names, pairs: &[Pair]) -> Option<PhylumId>
    ensures { result ≡ look.first_type names.now pairs.now }
{
    match pairs {
        [first, ..] => names.pair_type(first),
        [] => None,
    }
}

// attributes of several types: a term of no phylum, and the type of the first
fn unlike(names: &Names, remote: &Remote) -> Result<Found, NoMemory>
    ensures tree { IfOk result (λ f. view.expr_of f.tree ≡ kept.MadeOf Completing (length names.now.phyla)) }
    ensures of { IfOk result (λ f. f.of ≡ look.first_type names.now remote.now.pairs) }
    ensures place { IfOk result (λ f. f.place ≡ remote.now.place) }
    ensures mismatch { IfOk result (λ f. f.mismatch ≡ Some remote.now.place) }
{
    let Ok(number) = u32::try_from(names.table().phyla.len()) else {
        return Err(NoMemory);
    };
    Ok(Found {
        tree: ExprTree::Made(Made::Completing, PhylumId { number }),
        of: first_type(names, remote.pairs.as_slice()),
        place: remote.place,
        mismatch: Some(remote.place),
    })
}

fn remote(walk: &Walk<'_>, remote: &Remote, scope: &Scope) -> Result<Found, NoMemory>
    ensures { IfOk result (IsFound walk.now.names.now (owner_of walk.now.owner) scope.now (plain.Remote remote.now)) }
{
    let _ = scope;
    if !walk.names.are_alike(remote) {
        return unlike(walk.names, remote);
    }
    let binding = remote_at(walk.alloc, walk.names, &walk.owner, remote)?;
    named(binding, remote.place)
}

fn made_term(names: &Names, made: Made, name: &Name, place: Position) -> Found
    ensures tree { view.expr_of result.tree ≡ kept.MadeOf made
        (unwrap_or (look.usable_named names.now name.now.text) 0) }
    ensures of { result.of ≡ look.usable_named names.now name.now.text }
    ensures place { result.place ≡ place }
    ensures mismatch { result.mismatch ≡ types.untyped (look.usable_named names.now name.now.text) place }
{
    let of = names.usable_named(&name.text);
    let mismatch = untyped(&of, place);
    let phylum = phylum_or_none(&of);
    Found {
        tree: ExprTree::Made(made, phylum),
        of,
        place,
        mismatch,
    }
}

// a call of what means nothing
fn meaningless(place: Position) -> Found
    ensures tree { view.expr_of result.tree ≡ kept.Named 0 }
    ensures of { result.of ≡ None }
    ensures place { result.place ≡ place }
    ensures mismatch { result.mismatch ≡ Some place }
{
    Found {
        tree: ExprTree::Named(0),
        of: None,
        place,
        mismatch: Some(place),
    }
}

// the phylum of an operator
fn op_result(names: &Names, op: OpId) -> Option<PhylumId>
    ensures { result ≡ phylum_of names.now.ops op }
{
    match names.table().ops.place(op.number) {
        Some(operator) => Some(operator.phylum),
        None => None,
    }
}

// the type of a function's result
fn function_result(names: &Names, function: u32) -> Option<PhylumId>
    ensures { result ≡ look.result_of names.now (callable.Function function) }
{
    match names.table().functions.place(function) {
        Some(function) => Some(function.result),
        None => None,
    }
}

// the types of the parameters of a function
fn params(names: &Names, function: u32) -> &[PhylumId]
    ensures { result.now ≡ look.params_of names.now (callable.Function function) }
{
    match names.table().functions.place(function) {
        Some(function) => function.params.as_slice(),
        None => &[],
    }
}

// the type of the argument of `STRtoINT`, `INTtoSTR`, `STRlen`
fn builtin_param(builtin: Unary) -> PhylumId
    ensures { result ≡ look.builtin_param builtin }
{
    match builtin {
        Unary::NumberToText => INT,
        _ => STR,
    }
}

// the type of its result
fn builtin_result(builtin: Unary) -> PhylumId
    ensures { result ≡ look.builtin_result builtin }
{
    match builtin {
        Unary::NumberToText => STR,
        _ => INT,
    }
}

// the place, where another argument follows
fn surplus(rest: &Exprs, place: Position) -> Option<Position>
    ensures { result ≡ spec.surplus (exprs_of rest.now) place }
{
    match rest {
        Exprs::End => None,
        Exprs::More(_, _) => Some(place),
    }
}

/// An expression among these variables, which stay.
#[cycle(expr)]
pub fn expr(walk: &Walk<'_>, e: &Expr, scope: &mut Scope) -> Result<Found, NoMemory>
    ensures found { IfOk result (IsFound walk.now.names.now (owner_of walk.now.owner) scope.old (expr_of e.now)) }
    ensures scope { OnOk result (scope.new ≡ scope.old) }
{
    match e {
        Expr::Number(number, place) => { Ok(constant(Literal::Number(number.get()), INT, *place)) }
        Expr::Text(quoted) => text(walk.alloc, quoted),
        Expr::Truth(truth, place) => Ok(constant(Literal::Truth(*truth), BOOL, *place)),
        Expr::Variable(name) => variable(walk, name, scope),
        Expr::Attribute(reference) => attribute(walk, reference, scope),
        Expr::Remote(atom) => remote(walk, atom, scope),
        Expr::Made(made, name, place) => Ok(made_term(walk.names, *made, name, *place)),
        Expr::Paren(inner, place) => paren(walk, inner, *place, scope),
        Expr::Prefix(prefix, operand, place) => single(walk, *prefix, operand, *place, scope),
        Expr::Binary(sign, operands) => {
            let Operands::Both(left, right) = &**operands;
            binary(walk, *sign, left, right, scope)
        }
        Expr::Choice(condition, first, second) => choice(walk, condition, first, second, scope),
        Expr::Call(name, args) => call(walk, name, args, scope),
        Expr::Let(name, bound, body, place) => bind(walk, name, bound, body, *place, scope),
        Expr::With(subject, head, body, rest) => {
            with(walk, subject, &head.pattern, body, rest, head.place, scope)
        }
    }
}

#[cycle(expr)]
fn paren(
    walk: &Walk<'_>,
    inner: &Expr,
    place: Position,
    scope: &mut Scope,
) -> Result<Found, NoMemory>
    ensures found { IfOk result (IsFound walk.now.names.now (owner_of walk.now.owner) scope.old
        (plain.Paren (expr_of inner.now) place)) }
    ensures scope { OnOk result (scope.new ≡ scope.old) }
{
    let found = expr(walk, inner, scope)?;
    let tree = Box::new(walk.alloc, found.tree)?;
    Ok(Found {
        tree: ExprTree::Unary(Unary::Paren, tree),
        of: found.of,
        place,
        mismatch: found.mismatch,
    })
}

#[cycle(expr)]
fn single(
    walk: &Walk<'_>,
    prefix: Prefix,
    operand: &Expr,
    place: Position,
    scope: &mut Scope,
) -> Result<Found, NoMemory>
    ensures found { IfOk result (IsFound walk.now.names.now (owner_of walk.now.owner) scope.old
        (plain.Single prefix (expr_of operand.now) place)) }
    ensures scope { OnOk result (scope.new ≡ scope.old) }
{
    let found = expr(walk, operand, scope)?;
    let mismatch = where_wanted(walk.names, &Some(prefix_type(prefix)), &found);
    let tree = Box::new(walk.alloc, found.tree)?;
    Ok(Found {
        tree: ExprTree::Unary(prefix_of(prefix), tree),
        of: Some(prefix_type(prefix)),
        place,
        mismatch,
    })
}

#[cycle(expr)]
fn binary(
    walk: &Walk<'_>,
    sign: Infix,
    left: &Expr,
    right: &Expr,
    scope: &mut Scope,
) -> Result<Found, NoMemory>
    ensures found { IfOk result (IsFound walk.now.names.now (owner_of walk.now.owner) scope.old
        (plain.Binary sign (expr_of left.now) (expr_of right.now))) }
    ensures scope { OnOk result (scope.new ≡ scope.old) }
{
    let left = expr(walk, left, scope)?;
    let right = expr(walk, right, scope)?;
    between(walk.alloc, walk.names, sign, left, right)
}

#[cycle(expr)]
fn choice(
    walk: &Walk<'_>,
    condition: &Expr,
    first: &Expr,
    second: &Expr,
    scope: &mut Scope,
) -> Result<Found, NoMemory>
    ensures found { IfOk result (IsFound walk.now.names.now (owner_of walk.now.owner) scope.old
        (plain.Choice (expr_of condition.now) (expr_of first.now) (expr_of second.now))) }
    ensures scope { OnOk result (scope.new ≡ scope.old) }
{
    let condition = expr(walk, condition, scope)?;
    let first = expr(walk, first, scope)?;
    let second = expr(walk, second, scope)?;
    chosen(walk.alloc, walk.names, condition, first, second)
}

#[cycle(expr)]
fn call(walk: &Walk<'_>, name: &Name, args: &Exprs, scope: &mut Scope) -> Result<Found, NoMemory>
    ensures found { IfOk result (IsFound walk.now.names.now (owner_of walk.now.owner) scope.old
        (plain.Call name.now (exprs_of args.now))) }
    ensures scope { OnOk result (scope.new ≡ scope.old) }
{
    let Some(called) = walk.names.callable(&name.text) else {
        return Ok(meaningless(name.place));
    };
    match called {
        Callable::Operator(op) => {
            let inside = all(walk, args, walk.names.args(op), name.place, scope)?;
            Ok(Found {
                tree: ExprTree::Apply(op, inside.list),
                of: op_result(walk.names, op),
                place: name.place,
                mismatch: inside.mismatch,
            })
        }
        Callable::Function(function) => {
            let types = params(walk.names, function);
            let inside = all(walk, args, types, name.place, scope)?;
            Ok(Found {
                tree: ExprTree::Call(function, inside.list),
                of: function_result(walk.names, function),
                place: name.place,
                mismatch: inside.mismatch,
            })
        }
        Callable::Builtin(builtin) => built_in(walk, builtin, args, name.place, scope),
    }
}

// a call of a builtin
#[cycle(expr)]
fn built_in(
    walk: &Walk<'_>,
    builtin: Unary,
    args: &Exprs,
    place: Position,
    scope: &mut Scope,
) -> Result<Found, NoMemory>
    ensures found { IfOk result (IsBuiltIn walk.now.names.now (owner_of walk.now.owner) scope.old builtin
        (exprs_of args.now) place) }
    ensures scope { OnOk result (scope.new ≡ scope.old) }
{
    let of = Some(builtin_result(builtin));
    let Exprs::More(first, rest) = args else {
        let tree = Box::new(walk.alloc, ExprTree::Named(0))?;
        return Ok(Found {
            tree: ExprTree::Unary(builtin, tree),
            of,
            place,
            mismatch: Some(place),
        });
    };
    let first = expr(walk, first, scope)?;
    let own = where_wanted(walk.names, &Some(builtin_param(builtin)), &first);
    let tree = Box::new(walk.alloc, first.tree)?;
    Ok(Found {
        tree: ExprTree::Unary(builtin, tree),
        of,
        place,
        mismatch: earlier(own, surplus(rest, place)),
    })
}

// arguments where these types are wanted, as many as there are types
#[cycle(expr)]
fn all(
    walk: &Walk<'_>,
    args: &Exprs,
    types: &[PhylumId],
    place: Position,
    scope: &mut Scope,
) -> Result<FoundList, NoMemory>
    ensures found { IfOk result (AreFound walk.now.names.now (owner_of walk.now.owner) scope.old place
        (exprs_of args.now) types.now) }
    ensures scope { OnOk result (scope.new ≡ scope.old) }
{
    match (args, types.split_first()) {
        (Exprs::End, None) => Ok(FoundList {
            list: ExprList::End,
            mismatch: None,
        }),
        (Exprs::More(first, rest), Some((of, types))) => {
            let first = expr(walk, first, scope)?;
            let rest = all(walk, rest, types, place, scope)?;
            let own = where_wanted(walk.names, &Some(*of), &first);
            let tree = Box::new(walk.alloc, first.tree)?;
            Ok(FoundList {
                list: ExprList::More(tree, Box::new(walk.alloc, rest.list)?),
                mismatch: earlier(own, rest.mismatch),
            })
        }
        _ => Ok(FoundList {
            list: ExprList::End,
            mismatch: Some(place),
        }),
    }
}

#[cycle(expr)]
fn bind(
    walk: &Walk<'_>,
    name: &Name,
    bound: &Expr,
    body: &Expr,
    place: Position,
    scope: &mut Scope,
) -> Result<Found, NoMemory>
    ensures found { IfOk result (IsFound walk.now.names.now (owner_of walk.now.owner) scope.old
        (plain.Let name.now (expr_of bound.now) (expr_of body.now) place)) }
    ensures scope { OnOk result (scope.new ≡ scope.old) }
{
    let bound = expr(walk, bound, scope)?;
    let before = scope.len();
    scope.bind(Variable {
        name: name.text.copy(walk.alloc)?,
        of: bound.of,
    })?;
    let body = expr(walk, body, scope)?;
    scope.leave(before);
    let first = Box::new(walk.alloc, bound.tree)?;
    Ok(Found {
        tree: ExprTree::Let(first, Box::new(walk.alloc, body.tree)?),
        of: body.of,
        place,
        mismatch: earlier(bound.mismatch, body.mismatch),
    })
}

#[cycle(expr)]
fn with(
    walk: &Walk<'_>,
    subject: &Expr,
    first: &Pattern,
    body: &Expr,
    rest: &Cases,
    place: Position,
    scope: &mut Scope,
) -> Result<Found, NoMemory>
    ensures found { IfOk result (IsFound walk.now.names.now (owner_of walk.now.owner) scope.old
        (plain.With (expr_of subject.now) (pattern_of first.now) (expr_of body.now) (cases_of rest.now) place)) }
    ensures scope { OnOk result (scope.new ≡ scope.old) }
{
    let subject = expr(walk, subject, scope)?;
    let first = case(walk, first, body, &subject.of, scope)?;
    let rest = cases(walk, rest, &subject.of, &first.body.of, scope)?;
    distinguished(walk.alloc, subject, first, rest, place)
}

// a pattern and the expression behind it, which sees the pattern's variables
#[cycle(expr)]
fn case(
    walk: &Walk<'_>,
    matched: &Pattern,
    body: &Expr,
    subject: &Option<PhylumId>,
    scope: &mut Scope,
) -> Result<FoundCase, NoMemory>
    ensures found { IfOk result (IsCase walk.now.names.now (owner_of walk.now.owner) scope.old subject.now
        (pattern_of matched.now) (expr_of body.now)) }
    ensures scope { OnOk result (scope.new ≡ scope.old) }
{
    let before = scope.len();
    let pattern = pattern(walk.alloc, walk.names, matched, subject, scope)?;
    let body = expr(walk, body, scope)?;
    scope.leave(before);
    Ok(FoundCase { pattern, body })
}

// the cases after the first
#[cycle(expr)]
fn cases(
    walk: &Walk<'_>,
    cases: &Cases,
    subject: &Option<PhylumId>,
    wanted: &Option<PhylumId>,
    scope: &mut Scope,
) -> Result<FoundCases, NoMemory>
    ensures found { IfOk result (AreCases walk.now.names.now
        (owner_of walk.now.owner) scope.old subject.now wanted.now (cases_of cases.now)) }
    ensures scope { OnOk result (scope.new ≡ scope.old) }
{
    let mut kept = Vec::new(walk.alloc);
    let mut mismatch = None;
    let mut rest = cases;
    while let Cases::More(pattern, body, next) = rest {
        let case = case(walk, pattern, body, subject, scope)?;
        mismatch = earlier(mismatch, mismatch_of(walk.names, wanted, &case));
        let tree = case.pattern.tree;
        kept.push((Kept { tree }, case.body.tree))?;
        rest = next;
    }
    match rest {
        Cases::Default(body) => {
            let found = expr(walk, body, scope)?;
            let own = where_wanted(walk.names, wanted, &found);
            let tree = Box::new(walk.alloc, found.tree)?;
            Ok(FoundCases {
                list: chain(walk.alloc, kept, CaseList::Default(tree))?,
                mismatch: earlier(mismatch, own),
            })
        }
        _ => Ok(FoundCases {
            list: chain(walk.alloc, kept, CaseList::End)?,
            mismatch,
        }),
    }
}
