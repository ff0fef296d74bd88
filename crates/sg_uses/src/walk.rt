//! The walk along patterns and expressions.
ghost use Rattle.std.specs.Prelude.{◌≡◌, map, OnOk, IfOk};
ghost use Rattle.sg_ast.specs.View.{pattern_of, patterns_of, expr_of, exprs_of, cases_of};
ghost use Rattle.sg_uses.specs.Noted.{noted};
ghost use Rattle.sg_uses.specs.SiteView.{site_of};
ghost use Rattle.sg_names.specs.Uses as uses;

use crate::found::Found;
use crate::known::Context;
use crate::scope::Scope;
use sg_ast::expr::{Cases, Expr, Exprs, Operands};
use sg_ast::name::Pair;
use sg_ast::pattern::{Pattern, Patterns};
use sg_kinds::memory::NoMemory;

/// How many patterns there are. No chain in memory is too long for it.
fn patterns_count(patterns: &Patterns) -> Result<usize, NoMemory>
    ensures { IfOk result (λ n. n ≡ uses.patterns_count (patterns_of patterns.now)) }
{
    let mut count: usize = 0;
    let mut left = patterns;
    while let Patterns::More(_, rest) = left {
        let Some(next) = count.checked_add(1) else {
            return Err(NoMemory);
        };
        count = next;
        left = rest;
    }
    Ok(count)
}

/// How many expressions there are. No chain in memory is too long for it.
fn exprs_count(exprs: &Exprs) -> Result<usize, NoMemory>
    ensures { IfOk result (λ n. n ≡ uses.exprs_count (exprs_of exprs.now)) }
{
    let mut count: usize = 0;
    let mut left = exprs;
    while let Exprs::More(_, rest) = left {
        let Some(next) = count.checked_add(1) else {
            return Err(NoMemory);
        };
        count = next;
        left = rest;
    }
    Ok(count)
}

/// Notes the uses of a pattern, and makes its names visible.
#[cycle(patterns)]
#[tactic(auto, using(crate::proofs::NotedLaws::noted_append))]
pub(crate) fn pattern(
    context: &Context,
    scope: &mut Scope,
    found: &mut Found,
    pattern: &Pattern,
) -> Result<(), NoMemory>
    ensures scope { OnOk result (scope.new ≡ uses.pattern_scope scope.old (pattern_of pattern.now)) }
    ensures found { OnOk result (found.new ≡ noted context.now.names.now found.old
        (uses.pattern_uses scope.old (pattern_of pattern.now))) }
{
    match pattern {
        Pattern::Variable(name) => {
            context.binding(scope, found, name)?;
            scope.bind(context.alloc, name.text.as_slice())
        }
        Pattern::Made(_, name, _) => context.phylum(found, name),
        Pattern::Operator(name, parts) => {
            context.match_(found, name, patterns_count(parts)?)?;
            patterns(context, scope, found, parts)
        }
        _ => Ok(()),
    }
}

/// Notes the uses of patterns from left to right.
#[cycle(patterns)]
#[tactic(auto, using(crate::proofs::NotedLaws::noted_append))]
fn patterns(
    context: &Context,
    scope: &mut Scope,
    found: &mut Found,
    patterns: &Patterns,
) -> Result<(), NoMemory>
    ensures scope { OnOk result (scope.new ≡ uses.patterns_scope scope.old (patterns_of patterns.now)) }
    ensures found { OnOk result (found.new ≡ noted context.now.names.now found.old
        (uses.patterns_uses scope.old (patterns_of patterns.now))) }
{
    let mut left = patterns;
    while let Patterns::More(part, rest) = left {
        pattern(context, scope, found, part)?;
        left = rest;
    }
    Ok(())
}

/// Notes the uses of attributes of enclosing nodes.
#[tactic(auto, using(crate::proofs::NotedLaws::map_more, crate::proofs::NotedLaws::map_all))]
fn pairs(context: &Context, found: &mut Found, pairs: &[Pair]) -> Result<(), NoMemory>
    ensures { OnOk result (found.new ≡ noted context.now.names.now found.old
        (map (uses.Encloses (site_of context.now.site)) pairs.now)) }
{
    for pair in pairs {
        context.encloses(found, pair)?;
    }
    Ok(())
}

/// Notes the uses of an expression.
#[cycle(exprs)]
#[tactic(auto, using(crate::proofs::NotedLaws::noted_append, crate::proofs::NotedLaws::back_from_one))]
pub(crate) fn expr(
    context: &Context,
    scope: &mut Scope,
    found: &mut Found,
    expr: &Expr,
) -> Result<(), NoMemory>
    ensures scope { OnOk result (scope.new ≡ scope.old) }
    ensures found { OnOk result (found.new ≡ noted context.now.names.now found.old
        (uses.expr_uses (site_of context.now.site) scope.old (expr_of expr.now))) }
{
    match expr {
        Expr::Number(_, _) | Expr::Text(_) | Expr::Truth(_, _) => Ok(()),
        Expr::Variable(name) => context.variable(scope, found, name),
        Expr::Attribute(reference) => context.reference(found, reference),
        Expr::Remote(remote) => pairs(context, found, remote.pairs.as_slice()),
        Expr::Made(_, name, _) => context.phylum(found, name),
        Expr::Paren(inner, _) | Expr::Prefix(_, inner, _) => {
            self::expr(context, scope, found, inner)
        }
        Expr::Binary(_, operands) => {
            let Operands::Both(left, right) = &**operands;
            self::expr(context, scope, found, left)?;
            self::expr(context, scope, found, right)
        }
        Expr::Choice(test, yes, no) => {
            self::expr(context, scope, found, test)?;
            self::expr(context, scope, found, yes)?;
            self::expr(context, scope, found, no)
        }
        Expr::Call(name, args) => {
            context.call(found, name, exprs_count(args)?)?;
            exprs(context, scope, found, args)
        }
        Expr::Let(name, value, body, _) => {
            context.binding(scope, found, name)?;
            self::expr(context, scope, found, value)?;
            let count = scope.len();
            scope.bind(context.alloc, name.text.as_slice())?;
            self::expr(context, scope, found, body)?;
            scope.leave(count);
            Ok(())
        }
        Expr::With(value, head, body, rest) => {
            self::expr(context, scope, found, value)?;
            case(context, scope, found, &head.pattern, body)?;
            cases(context, scope, found, rest)
        }
    }
}

/// Notes the uses of expressions from left to right.
#[cycle(exprs)]
#[tactic(auto, using(crate::proofs::NotedLaws::noted_append))]
fn exprs(
    context: &Context,
    scope: &mut Scope,
    found: &mut Found,
    exprs: &Exprs,
) -> Result<(), NoMemory>
    ensures scope { OnOk result (scope.new ≡ scope.old) }
    ensures found { OnOk result (found.new ≡ noted context.now.names.now found.old
        (uses.exprs_uses (site_of context.now.site) scope.old (exprs_of exprs.now))) }
{
    let mut left = exprs;
    while let Exprs::More(part, rest) = left {
        expr(context, scope, found, part)?;
        left = rest;
    }
    Ok(())
}

/// Notes the uses of a pattern, and of an expression where its names are visible.
#[cycle(exprs)]
#[tactic(auto, using(crate::proofs::NotedLaws::noted_append, crate::proofs::NotedLaws::back_from_pattern))]
pub(crate) fn case(
    context: &Context,
    scope: &mut Scope,
    found: &mut Found,
    pattern: &Pattern,
    body: &Expr,
) -> Result<(), NoMemory>
    ensures scope { OnOk result (scope.new ≡ scope.old) }
    ensures found { OnOk result (found.new ≡ noted context.now.names.now found.old
        (uses.case_uses (site_of context.now.site) scope.old (pattern_of pattern.now) (expr_of body.now))) }
{
    let visible = scope.len();
    self::pattern(context, scope, found, pattern)?;
    expr(context, scope, found, body)?;
    scope.leave(visible);
    Ok(())
}

/// Notes the uses of cases.
#[cycle(exprs)]
#[tactic(auto, using(crate::proofs::NotedLaws::noted_append))]
fn cases(
    context: &Context,
    scope: &mut Scope,
    found: &mut Found,
    cases: &Cases,
) -> Result<(), NoMemory>
    ensures scope { OnOk result (scope.new ≡ scope.old) }
    ensures found { OnOk result (found.new ≡ noted context.now.names.now found.old
        (uses.cases_uses (site_of context.now.site) scope.old (cases_of cases.now))) }
{
    let mut left = cases;
    loop {
        match left {
            Cases::End => return Ok(()),
            Cases::Default(body) => return expr(context, scope, found, body),
            Cases::More(pattern, body, rest) => {
                case(context, scope, found, pattern, body)?;
                left = rest;
            }
        }
    }
}
