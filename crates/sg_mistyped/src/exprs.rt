//! The mismatches of expressions: one walk lists them and answers the type.
ghost use Rattle.std.specs.Prelude.{◌≡◌, ◌++◌, ◌∷◌, [], IfOk, OnOk};
ghost use Rattle.sg_ast.specs.Chains.{expr_place};
ghost use Rattle.sg_ast.specs.Expressions as plain;
ghost use Rattle.sg_ast.specs.View.{cases_of, expr_of, exprs_of, pattern_of};
ghost use Rattle.sg_names.specs.Lookups.{builtin_param, params_of, result_of};
ghost use Rattle.sg_names.specs.declared.table.Callable.TheVariants as callable;
ghost use Rattle.sg_types.specs.Expressions.{mismatch_in, type_in};
ghost use Rattle.sg_types.specs.OwnersView.{owner_of};
ghost use Rattle.sg_types.specs.Patterns.{variables_of};
ghost use Rattle.sg_types.specs.Types.{list_of};
ghost use Rattle.sg_mistyped.specs.Mistyped as spec;

use crate::mistyped::{Mistyped, Wanted, add, like, one, put};
use crate::patterns::pattern;
use sg_ast::expr::{Cases, Expr, Exprs, Infix, Operands};
use sg_ast::name::Name;
use sg_ast::pattern::Pattern;
use sg_kinds::ids::PhylumId;
use sg_kinds::marks::Unary;
use sg_kinds::memory::NoMemory;
use sg_names::names::Names;
use sg_names::table::Callable;
use sg_types::expr::Walk;
use sg_types::operators::{given, pair_of, prefix_type, taken};
use sg_types::scope::{Scope, Variable};
use sg_types::types::{BOOL, INT, STR, do_agree, fits_where};

// an expression without parts
fn atom(
    walk: &Walk<'_>,
    e: &Expr,
    scope: &mut Scope,
    found: &mut Vec<Mistyped>,
) -> Result<Option<PhylumId>, NoMemory>
    ensures of { IfOk result (λ of. of ≡ type_in walk.now.names.now (owner_of walk.now.owner) scope.old (expr_of e.now)) }
    ensures scope { OnOk result (scope.new ≡ scope.old) }
    ensures found { OnOk result (found.new.items ≡ found.old.items
        ++ spec.of_atom (mismatch_in walk.now.names.now (owner_of walk.now.owner) scope.old (expr_of e.now))) }
{
    let typed = sg_types::expr::expr(walk, e, scope)?;
    if let Some(place) = typed.mismatch {
        add(found, false, place, Wanted::Any, None)?;
    }
    Ok(typed.of)
}

// the types of the parameters of a function
fn params(names: &Names, function: u32) -> &[PhylumId]
    ensures { result.now ≡ params_of names.now (callable.Function function) }
{
    match names.table().functions.place(function) {
        Some(function) => function.params.as_slice(),
        None => &[],
    }
}

// the type of what is called
fn result(names: &Names, called: &Callable) -> Option<PhylumId>
    ensures { result ≡ result_of names.now called.now }
{
    names.result(*called)
}

// the type of the argument of `STRtoINT`, `INTtoSTR`, `STRlen`
fn builtin_param(builtin: Unary) -> PhylumId
    ensures { result ≡ builtin_param builtin }
{
    match builtin {
        Unary::NumberToText => INT,
        _ => STR,
    }
}

/// Puts the mismatches inside an expression among these variables, which stay, behind the others, and answers its type.
#[cycle(expr)]
fn expr(
    walk: &Walk<'_>,
    e: &Expr,
    scope: &mut Scope,
    found: &mut Vec<Mistyped>,
) -> Result<Option<PhylumId>, NoMemory>
    ensures of { IfOk result (λ of. of ≡ type_in walk.now.names.now (owner_of walk.now.owner) scope.old (expr_of e.now)) }
    ensures scope { OnOk result (scope.new ≡ scope.old) }
    ensures found { OnOk result (found.new.items ≡ found.old.items
        ++ spec.of_expr walk.now.names.now (owner_of walk.now.owner) scope.old (expr_of e.now)) }
{
    match e {
        Expr::Number(_, _)
        | Expr::Text(_)
        | Expr::Truth(_, _)
        | Expr::Variable(_)
        | Expr::Attribute(_)
        | Expr::Remote(_)
        | Expr::Made(_, _, _) => atom(walk, e, scope, found),
        Expr::Paren(inner, _) => expr(walk, inner, scope, found),
        Expr::Prefix(prefix, operand, _) => {
            let of = Some(prefix_type(*prefix));
            where_wanted(walk, operand, &of, scope, found)?;
            Ok(of)
        }
        Expr::Binary(sign, operands) => {
            let Operands::Both(left, right) = &**operands;
            binary(walk, *sign, left, right, scope, found)
        }
        Expr::Choice(condition, first, second) => {
            choice(walk, condition, first, second, scope, found)
        }
        Expr::Call(name, args) => call(walk, name, args, scope, found),
        Expr::Let(name, bound, body, _) => bind(walk, name, bound, body, scope, found),
        Expr::With(subject, head, body, rest) => {
            with(walk, subject, &head.pattern, body, rest, scope, found)
        }
    }
}

/// The same where a type is wanted, which is tested before what stands inside.
#[cycle(expr)]
#[tactic(auto, using(crate::proofs::Put::put_between))]
pub(crate) fn where_wanted(
    walk: &Walk<'_>,
    e: &Expr,
    wanted: &Option<PhylumId>,
    scope: &mut Scope,
    found: &mut Vec<Mistyped>,
) -> Result<Option<PhylumId>, NoMemory>
    ensures of { IfOk result (λ of. of ≡ type_in walk.now.names.now (owner_of walk.now.owner) scope.old (expr_of e.now)) }
    ensures scope { OnOk result (scope.new ≡ scope.old) }
    ensures found { OnOk result (found.new.items ≡ found.old.items
        ++ spec.of_body walk.now.names.now (owner_of walk.now.owner) scope.old wanted.now (expr_of e.now)) }
{
    let at = found.len();
    let of = expr(walk, e, scope, found)?;
    let fits = fits_where(walk.names, wanted, &of);
    put(found, at, fits, e.place(), one(wanted), of)?;
    Ok(of)
}

#[cycle(expr)]
fn binary(
    walk: &Walk<'_>,
    sign: Infix,
    left: &Expr,
    right: &Expr,
    scope: &mut Scope,
    found: &mut Vec<Mistyped>,
) -> Result<Option<PhylumId>, NoMemory>
    ensures of { IfOk result (λ of. of ≡ type_in walk.now.names.now (owner_of walk.now.owner) scope.old
        (plain.Binary sign (expr_of left.now) (expr_of right.now))) }
    ensures scope { OnOk result (scope.new ≡ scope.old) }
    ensures found { OnOk result (found.new.items ≡ found.old.items
        ++ spec.of_expr walk.now.names.now (owner_of walk.now.owner) scope.old
        (plain.Binary sign (expr_of left.now) (expr_of right.now))) }
{
    match sign {
        Infix::Equal | Infix::Unequal => {
            equal(walk, left, right, scope, found)?;
            Ok(Some(BOOL))
        }
        Infix::Cons => cons(walk, left, right, scope, found),
        _ => {
            let wanted = Some(taken(sign));
            where_wanted(walk, left, &wanted, scope, found)?;
            let of = where_wanted(walk, right, &wanted, scope, found)?;
            Ok(given(sign, &of))
        }
    }
}

// the operands of `==` and `!=`
#[cycle(expr)]
#[tactic(auto, using(crate::proofs::Put::put_between))]
fn equal(
    walk: &Walk<'_>,
    left: &Expr,
    right: &Expr,
    scope: &mut Scope,
    found: &mut Vec<Mistyped>,
) -> Result<(), NoMemory>
    ensures scope { OnOk result (scope.new ≡ scope.old) }
    ensures found { let t = walk.now.names.now in let w = owner_of walk.now.owner in let vs = scope.old in
        let a = expr_of left.now in let b = expr_of right.now in
        OnOk result (found.new.items ≡ found.old.items ++ spec.of_equal t (type_in t w vs a) (type_in t w vs b)
        (expr_place b) (spec.of_expr t w vs a) (spec.of_expr t w vs b)) }
{
    let of = expr(walk, left, scope, found)?;
    let at = found.len();
    let other = expr(walk, right, scope, found)?;
    let fits = do_agree(walk.names, &of, &other);
    put(found, at, fits, right.place(), like(&of), other)
}

// the operands of `::`, and the type of the right one
#[cycle(expr)]
#[tactic(auto, using(crate::proofs::Put::put_between))]
fn cons(
    walk: &Walk<'_>,
    left: &Expr,
    right: &Expr,
    scope: &mut Scope,
    found: &mut Vec<Mistyped>,
) -> Result<Option<PhylumId>, NoMemory>
    ensures of { IfOk result (λ of. of ≡ type_in walk.now.names.now (owner_of walk.now.owner) scope.old
        (expr_of right.now)) }
    ensures scope { OnOk result (scope.new ≡ scope.old) }
    ensures found { let t = walk.now.names.now in let w = owner_of walk.now.owner in let vs = scope.old in
        let a = expr_of left.now in let b = expr_of right.now in
        OnOk result (found.new.items ≡ found.old.items ++ spec.of_cons t (list_of t (type_in t w vs b))
        (type_in t w vs a) (type_in t w vs b) (expr_place a) (expr_place b) (spec.of_expr t w vs a)
        (spec.of_expr t w vs b)) }
{
    let first = found.len();
    let of = expr(walk, left, scope, found)?;
    let second = found.len();
    let list = expr(walk, right, scope, found)?;
    match pair_of(walk.names, &list) {
        Some((_, element)) => {
            let fits = fits_where(walk.names, &Some(element), &of);
            put(found, first, fits, left.place(), Wanted::One(element), of)?;
            Ok(list)
        }
        None => {
            put(found, second, false, right.place(), Wanted::AnyList, list)?;
            Ok(list)
        }
    }
}

#[cycle(expr)]
fn choice(
    walk: &Walk<'_>,
    condition: &Expr,
    first: &Expr,
    second: &Expr,
    scope: &mut Scope,
    found: &mut Vec<Mistyped>,
) -> Result<Option<PhylumId>, NoMemory>
    ensures of { IfOk result (λ of. of ≡ type_in walk.now.names.now (owner_of walk.now.owner) scope.old
        (plain.Choice (expr_of condition.now) (expr_of first.now) (expr_of second.now))) }
    ensures scope { OnOk result (scope.new ≡ scope.old) }
    ensures found { OnOk result (found.new.items ≡ found.old.items
        ++ spec.of_expr walk.now.names.now (owner_of walk.now.owner) scope.old
        (plain.Choice (expr_of condition.now) (expr_of first.now) (expr_of second.now))) }
{
    where_wanted(walk, condition, &Some(BOOL), scope, found)?;
    let of = expr(walk, first, scope, found)?;
    where_wanted(walk, second, &of, scope, found)?;
    Ok(of)
}

#[cycle(expr)]
#[tactic(auto, using(crate::proofs::Cases::none_wanted))]
fn call(
    walk: &Walk<'_>,
    name: &Name,
    args: &Exprs,
    scope: &mut Scope,
    found: &mut Vec<Mistyped>,
) -> Result<Option<PhylumId>, NoMemory>
    ensures of { IfOk result (λ of. of ≡ type_in walk.now.names.now (owner_of walk.now.owner) scope.old
        (plain.Call name.now (exprs_of args.now))) }
    ensures scope { OnOk result (scope.new ≡ scope.old) }
    ensures found { OnOk result (found.new.items ≡ found.old.items
        ++ spec.of_expr walk.now.names.now (owner_of walk.now.owner) scope.old
        (plain.Call name.now (exprs_of args.now))) }
{
    let Some(called) = walk.names.callable(&name.text) else {
        return Ok(None);
    };
    arguments(walk, &called, args, scope, found)?;
    Ok(result(walk.names, &called))
}

// the arguments of what is called
#[cycle(expr)]
fn arguments(
    walk: &Walk<'_>,
    called: &Callable,
    args: &Exprs,
    scope: &mut Scope,
    found: &mut Vec<Mistyped>,
) -> Result<(), NoMemory>
    ensures scope { OnOk result (scope.new ≡ scope.old) }
    ensures found { let t = walk.now.names.now in OnOk result (found.new.items ≡ found.old.items
        ++ spec.of_exprs t (owner_of walk.now.owner) scope.old (exprs_of args.now) (params_of t called.now)) }
{
    match called {
        Callable::Operator(op) => all(walk, args, walk.names.args(*op), scope, found),
        Callable::Function(function) => {
            all(walk, args, params(walk.names, *function), scope, found)
        }
        Callable::Builtin(builtin) => only(walk, args, builtin_param(*builtin), scope, found),
    }
}

// the one argument of a builtin
#[cycle(expr)]
fn only(
    walk: &Walk<'_>,
    args: &Exprs,
    of: PhylumId,
    scope: &mut Scope,
    found: &mut Vec<Mistyped>,
) -> Result<(), NoMemory>
    ensures scope { OnOk result (scope.new ≡ scope.old) }
    ensures found { OnOk result (found.new.items ≡ found.old.items
        ++ spec.of_exprs walk.now.names.now (owner_of walk.now.owner) scope.old (exprs_of args.now) (of ∷ [])) }
{
    match args {
        Exprs::End => Ok(()),
        Exprs::More(first, _) => {
            where_wanted(walk, first, &Some(of), scope, found)?;
            Ok(())
        }
    }
}

// arguments where these types are wanted, as deep as there are types
#[cycle(expr)]
fn all(
    walk: &Walk<'_>,
    args: &Exprs,
    types: &[PhylumId],
    scope: &mut Scope,
    found: &mut Vec<Mistyped>,
) -> Result<(), NoMemory>
    ensures scope { OnOk result (scope.new ≡ scope.old) }
    ensures found { OnOk result (found.new.items ≡ found.old.items
        ++ spec.of_exprs walk.now.names.now (owner_of walk.now.owner) scope.old (exprs_of args.now) types.now) }
{
    match (args, types.split_first()) {
        (Exprs::More(first, rest), Some((of, types))) => {
            where_wanted(walk, first, &Some(*of), scope, found)?;
            all(walk, rest, types, scope, found)
        }
        (Exprs::More(_, _), None) => Ok(()),
        (Exprs::End, _) => Ok(()),
    }
}

#[cycle(expr)]
fn bind(
    walk: &Walk<'_>,
    name: &Name,
    bound: &Expr,
    body: &Expr,
    scope: &mut Scope,
    found: &mut Vec<Mistyped>,
) -> Result<Option<PhylumId>, NoMemory>
    ensures of { let t = walk.now.names.now in let w = owner_of walk.now.owner in
        let x = type_in t w scope.old (expr_of bound.now) in
        IfOk result (λ of. of ≡ type_in t w (scope.old ++ record { name = name.now.text; of = x } ∷ [])
        (expr_of body.now)) }
    ensures scope { OnOk result (scope.new ≡ scope.old) }
    ensures found { let t = walk.now.names.now in let w = owner_of walk.now.owner in
        let x = type_in t w scope.old (expr_of bound.now) in
        OnOk result (found.new.items ≡ found.old.items ++ (spec.of_expr t w scope.old (expr_of bound.now)
        ++ spec.of_expr t w (scope.old ++ record { name = name.now.text; of = x } ∷ []) (expr_of body.now))) }
{
    let of = expr(walk, bound, scope, found)?;
    let before = scope.len();
    scope.bind(Variable {
        name: name.text.copy(walk.alloc)?,
        of,
    })?;
    let of = expr(walk, body, scope, found)?;
    scope.leave(before);
    Ok(of)
}

#[cycle(expr)]
fn with(
    walk: &Walk<'_>,
    subject: &Expr,
    first: &Pattern,
    body: &Expr,
    rest: &Cases,
    scope: &mut Scope,
    found: &mut Vec<Mistyped>,
) -> Result<Option<PhylumId>, NoMemory>
    ensures of { let t = walk.now.names.now in let w = owner_of walk.now.owner in
        let x = type_in t w scope.old (expr_of subject.now) in
        IfOk result (λ of. of ≡ type_in t w (scope.old ++ variables_of t (pattern_of first.now) x) (expr_of body.now)) }
    ensures scope { OnOk result (scope.new ≡ scope.old) }
    ensures found { let t = walk.now.names.now in let w = owner_of walk.now.owner in
        let x = type_in t w scope.old (expr_of subject.now) in
        let vs = scope.old ++ variables_of t (pattern_of first.now) x in
        OnOk result (found.new.items ≡ found.old.items ++ (spec.of_expr t w scope.old (expr_of subject.now)
        ++ (spec.of_pattern t (pattern_of first.now) x ++ (spec.of_expr t w vs (expr_of body.now)
        ++ spec.of_cases t w scope.old x (type_in t w vs (expr_of body.now)) (cases_of rest.now))))) }
{
    let subject = expr(walk, subject, scope, found)?;
    let before = scope.len();
    enter(walk, first, &subject, scope, found)?;
    let of = expr(walk, body, scope, found)?;
    scope.leave(before);
    cases(walk, rest, &subject, &of, scope, found)?;
    Ok(of)
}

// a pattern, whose variables become visible
fn enter(
    walk: &Walk<'_>,
    matched: &Pattern,
    subject: &Option<PhylumId>,
    scope: &mut Scope,
    found: &mut Vec<Mistyped>,
) -> Result<(), NoMemory>
    ensures scope { OnOk result (scope.new ≡ scope.old
        ++ variables_of walk.now.names.now (pattern_of matched.now) subject.now) }
    ensures found { OnOk result (found.new.items ≡ found.old.items
        ++ spec.of_pattern walk.now.names.now (pattern_of matched.now) subject.now) }
{
    sg_types::pattern::pattern(walk.alloc, walk.names, matched, subject, scope)?;
    pattern(walk.names, matched, subject, found)
}

// a case after the first, where its type is wanted
#[cycle(expr)]
fn case(
    walk: &Walk<'_>,
    matched: &Pattern,
    body: &Expr,
    subject: &Option<PhylumId>,
    wanted: &Option<PhylumId>,
    scope: &mut Scope,
    found: &mut Vec<Mistyped>,
) -> Result<(), NoMemory>
    ensures scope { OnOk result (scope.new ≡ scope.old) }
    ensures found { let t = walk.now.names.now in let q = pattern_of matched.now in
        OnOk result (found.new.items ≡ found.old.items ++ (spec.of_pattern t q subject.now
        ++ spec.of_body t (owner_of walk.now.owner) (scope.old ++ variables_of t q subject.now) wanted.now
        (expr_of body.now))) }
{
    let before = scope.len();
    enter(walk, matched, subject, scope, found)?;
    where_wanted(walk, body, wanted, scope, found)?;
    scope.leave(before);
    Ok(())
}

// the cases after the first
#[cycle(expr)]
fn cases(
    walk: &Walk<'_>,
    cases: &Cases,
    subject: &Option<PhylumId>,
    wanted: &Option<PhylumId>,
    scope: &mut Scope,
    found: &mut Vec<Mistyped>,
) -> Result<(), NoMemory>
    ensures scope { OnOk result (scope.new ≡ scope.old) }
    ensures found { OnOk result (found.new.items ≡ found.old.items
        ++ spec.of_cases walk.now.names.now (owner_of walk.now.owner) scope.old subject.now wanted.now
        (cases_of cases.now)) }
{
    let mut rest = cases;
    while let Cases::More(pattern, body, next) = rest {
        case(walk, pattern, body, subject, wanted, scope, found)?;
        rest = next;
    }
    match rest {
        Cases::Default(body) => {
            where_wanted(walk, body, wanted, scope, found)?;
            Ok(())
        }
        _ => Ok(()),
    }
}
