// The evaluation of an expression.
ghost use Rattle.std.specs.Prelude.{◌≡◌, ℕ, [], List, length, slice_get, unwrap_or, OnOk, MatchResult};
ghost use Rattle.sg_kinds.specs.Values.{Value};
ghost use Rattle.sg_pool.specs.Pools.{IsGrown};
ghost use Rattle.sg_kinds.specs.PatternView.{literal_of};
ghost use Rattle.sg_kinds.specs.ExprView.{expr_of, exprs_of, cases_of};
ghost use Rattle.sg_kinds.specs.Expressions.{Single, Binary, Logical, Cons, Choice, Apply, Call, Let, With};
ghost use Rattle.sg_kinds.specs.Evaluation.{Gives, untyped, value_within, step as step_of, limited, made_value, row_reached, first_case};
ghost use Rattle.sg_eval.specs.Answers.{given};
ghost use Rattle.sg_eval.specs.Lives.{value_in, IsKnown, AreKnown, bindings, bound_in, IsReached, AreReached, IsHalted, needs_second as needs_second_of};
ghost use Rattle.sg_eval.specs.MadeTerms.{AreMade};

use crate::answer::Answer;
use crate::live::{Live, Stop};
use crate::made::MadeTerms;
use crate::operators::{applied, combined};
use crate::patterns::matches;
use crate::texts::text;
use crate::trees::{read, tree, value_of_made};
use sg_kinds::expr::{CaseList, ExprList, ExprTree};
use sg_kinds::ids::{OpId, PhylumId, ValueId};
use sg_kinds::marks::{Connective, FaultKind, Made, Sign, Unary};
use sg_kinds::pattern::Literal;
use sg_kinds::spec::Spec;
use sg_pool::pool::Pool;
use std::alloc::Global;

/// What does not change while an expression or a function's body is evaluated. The first bindings are the arguments.
#[derive(Clone, Copy)]
pub struct Scope<'a> {
    pub alloc: Global,
    pub spec: &'a Spec,
    pub args: &'a [ValueId],
}

/// The value of an expression, where `room` nodes more may be entered and not left.
#[cycle(eval)]
#[inline(always)]
pub fn enter(
    scope: &Scope,
    e: &ExprTree,
    env: &mut Vec<Live>,
    room: u32,
    fuel: &mut u32,
    pool: &mut Pool,
    made: &mut MadeTerms,
) -> Result<Live, Stop>
    requires known { AreKnown (length pool.old) (bindings scope.now.args.now env.old.items) }
    requires made { AreMade scope.now.spec.now made.old pool.old }
    ensures value { (last : List Value) → IsGrown pool.new last →
        IsReached last result fuel.new (value_within scope.now.spec.now room (expr_of e.now)
        (bound_in last scope.now.args.now env.old.items) fuel.old) }
    ensures env { OnOk result (env.new.items ≡ env.old.items) }
    ensures grown { IsGrown pool.old pool.new }
    ensures made { AreMade scope.now.spec.now made.new pool.new }
{
    reach(scope, e, env, room, fuel, pool, made).given()
}

// as `enter`, with the answer in two registers; a binding is read at once
#[cycle(eval)]
#[inline(never)]
fn reach(
    scope: &Scope,
    e: &ExprTree,
    env: &mut Vec<Live>,
    room: u32,
    fuel: &mut u32,
    pool: &mut Pool,
    made: &mut MadeTerms,
) -> Answer
    requires known { AreKnown (length pool.old) (bindings scope.now.args.now env.old.items) }
    requires made { AreMade scope.now.spec.now made.old pool.old }
    ensures value { (last : List Value) → IsGrown pool.new last →
        IsReached last (given result) fuel.new (value_within scope.now.spec.now room (expr_of e.now)
        (bound_in last scope.now.args.now env.old.items) fuel.old) }
    ensures env { OnOk (given result) (env.new.items ≡ env.old.items) }
    ensures grown { IsGrown pool.old pool.new }
    ensures made { AreMade scope.now.spec.now made.new pool.new }
{
    if *fuel == 0 {
        return Answer::Fuel;
    }
    if room == 0 {
        return Answer::Depth;
    }
    *fuel -= 1;
    match e {
        ExprTree::Named(k) => Answer::of(named(scope, env, *k, pool)),
        _ => descend(scope, e, env, room - 1, fuel, pool, made),
    }
}

// as `step`
#[cycle(eval)]
#[inline(never)]
fn descend(
    scope: &Scope,
    e: &ExprTree,
    env: &mut Vec<Live>,
    room: u32,
    fuel: &mut u32,
    pool: &mut Pool,
    made: &mut MadeTerms,
) -> Answer
    requires known { AreKnown (length pool.old) (bindings scope.now.args.now env.old.items) }
    requires made { AreMade scope.now.spec.now made.old pool.old }
    ensures value { (last : List Value) → IsGrown pool.new last →
        IsReached last (given result) fuel.new (limited (step_of scope.now.spec.now
        (value_within scope.now.spec.now room) (expr_of e.now) (bound_in last scope.now.args.now env.old.items) fuel.old)) }
    ensures env { OnOk (given result) (env.new.items ≡ env.old.items) }
    ensures grown { IsGrown pool.old pool.new }
    ensures made { AreMade scope.now.spec.now made.new pool.new }
{
    Answer::of(step(scope, e, env, room, fuel, pool, made))
}

// the value of a node, after its own unit of fuel
#[cycle(eval)]
fn step(
    scope: &Scope,
    e: &ExprTree,
    env: &mut Vec<Live>,
    room: u32,
    fuel: &mut u32,
    pool: &mut Pool,
    made: &mut MadeTerms,
) -> Result<Live, Stop>
    requires known { AreKnown (length pool.old) (bindings scope.now.args.now env.old.items) }
    requires made { AreMade scope.now.spec.now made.old pool.old }
    ensures value { (last : List Value) → IsGrown pool.new last →
        IsReached last result fuel.new (limited (step_of scope.now.spec.now (value_within scope.now.spec.now room)
        (expr_of e.now) (bound_in last scope.now.args.now env.old.items) fuel.old)) }
    ensures env { OnOk result (env.new.items ≡ env.old.items) }
    ensures grown { IsGrown pool.old pool.new }
    ensures made { AreMade scope.now.spec.now made.new pool.new }
{
    match e {
        ExprTree::Literal(literal) => constant(scope.alloc, literal, pool),
        ExprTree::Named(k) => named(scope, env, *k, pool),
        ExprTree::Made(kind, p) => made_of(scope, *kind, *p, pool, made),
        ExprTree::Unary(f, a) => single(scope, *f, a, env, room, fuel, pool, made),
        ExprTree::Binary(sign, a, b) => binary(scope, *sign, a, b, env, room, fuel, pool, made),
        ExprTree::Logical(how, a, b) => logical(scope, *how, a, b, env, room, fuel, pool, made),
        ExprTree::Cons(op, a, b) => cons(scope, *op, a, b, env, room, fuel, pool, made),
        ExprTree::Choice(c, a, b) => choice(scope, c, a, b, env, room, fuel, pool, made),
        ExprTree::Apply(op, parts) => apply(scope, *op, parts, env, room, fuel, pool, made),
        ExprTree::Call(f, parts) => call(scope, *f, parts, env, room, fuel, pool, made),
        ExprTree::Let(a, b) => bind(scope, a, b, env, room, fuel, pool, made),
        ExprTree::With(a, cases) => with(scope, a, cases, env, room, fuel, pool, made),
    }
}

// a form with one operand
#[cycle(eval)]
fn single(
    scope: &Scope,
    f: Unary,
    a: &ExprTree,
    env: &mut Vec<Live>,
    room: u32,
    fuel: &mut u32,
    pool: &mut Pool,
    made: &mut MadeTerms,
) -> Result<Live, Stop>
    requires known { AreKnown (length pool.old) (bindings scope.now.args.now env.old.items) }
    requires made { AreMade scope.now.spec.now made.old pool.old }
    ensures value { (last : List Value) → IsGrown pool.new last →
        IsReached last result fuel.new (limited (step_of scope.now.spec.now (value_within scope.now.spec.now room)
        (Single f (expr_of a.now)) (bound_in last scope.now.args.now env.old.items) fuel.old)) }
    ensures env { OnOk result (env.new.items ≡ env.old.items) }
    ensures grown { IsGrown pool.old pool.new }
    ensures made { AreMade scope.now.spec.now made.new pool.new }
{
    let x = enter(scope, a, env, room, fuel, pool, made)?;
    applied(scope.alloc, f, x, pool)
}

// an operator with two strict operands
#[cycle(eval)]
fn binary(
    scope: &Scope,
    sign: Sign,
    a: &ExprTree,
    b: &ExprTree,
    env: &mut Vec<Live>,
    room: u32,
    fuel: &mut u32,
    pool: &mut Pool,
    made: &mut MadeTerms,
) -> Result<Live, Stop>
    requires known { AreKnown (length pool.old) (bindings scope.now.args.now env.old.items) }
    requires made { AreMade scope.now.spec.now made.old pool.old }
    ensures value { (last : List Value) → IsGrown pool.new last →
        IsReached last result fuel.new (limited (step_of scope.now.spec.now (value_within scope.now.spec.now room)
        (Binary sign (expr_of a.now) (expr_of b.now)) (bound_in last scope.now.args.now env.old.items) fuel.old)) }
    ensures env { OnOk result (env.new.items ≡ env.old.items) }
    ensures grown { IsGrown pool.old pool.new }
    ensures made { AreMade scope.now.spec.now made.new pool.new }
{
    let x = enter(scope, a, env, room, fuel, pool, made)?;
    let y = enter(scope, b, env, room, fuel, pool, made)?;
    combined(scope.alloc, sign, x, y, pool)
}

// `&&` and `||`
#[cycle(eval)]
fn logical(
    scope: &Scope,
    how: Connective,
    a: &ExprTree,
    b: &ExprTree,
    env: &mut Vec<Live>,
    room: u32,
    fuel: &mut u32,
    pool: &mut Pool,
    made: &mut MadeTerms,
) -> Result<Live, Stop>
    requires known { AreKnown (length pool.old) (bindings scope.now.args.now env.old.items) }
    requires made { AreMade scope.now.spec.now made.old pool.old }
    ensures value { (last : List Value) → IsGrown pool.new last →
        IsReached last result fuel.new (limited (step_of scope.now.spec.now (value_within scope.now.spec.now room)
        (Logical how (expr_of a.now) (expr_of b.now)) (bound_in last scope.now.args.now env.old.items) fuel.old)) }
    ensures env { OnOk result (env.new.items ≡ env.old.items) }
    ensures grown { IsGrown pool.old pool.new }
    ensures made { AreMade scope.now.spec.now made.new pool.new }
{
    let x = enter(scope, a, env, room, fuel, pool, made)?;
    let Some(first) = x.to_truth() else {
        return Err(Stop::Fault(FaultKind::NoMatch));
    };
    if needs_second(how, first) {
        enter(scope, b, env, room, fuel, pool, made)
    } else {
        Ok(x)
    }
}

// whether the second operand decides
fn needs_second(how: Connective, first: bool) -> bool
    ensures { result ≡ needs_second_of how first }
{
    match how {
        Connective::Both => first,
        Connective::Either => !first,
    }
}

// `::`
#[cycle(eval)]
fn cons(
    scope: &Scope,
    op: OpId,
    a: &ExprTree,
    b: &ExprTree,
    env: &mut Vec<Live>,
    room: u32,
    fuel: &mut u32,
    pool: &mut Pool,
    made: &mut MadeTerms,
) -> Result<Live, Stop>
    requires known { AreKnown (length pool.old) (bindings scope.now.args.now env.old.items) }
    requires made { AreMade scope.now.spec.now made.old pool.old }
    ensures value { (last : List Value) → IsGrown pool.new last →
        IsReached last result fuel.new (limited (step_of scope.now.spec.now (value_within scope.now.spec.now room)
        (Cons op (expr_of a.now) (expr_of b.now)) (bound_in last scope.now.args.now env.old.items) fuel.old)) }
    ensures env { OnOk result (env.new.items ≡ env.old.items) }
    ensures grown { IsGrown pool.old pool.new }
    ensures made { AreMade scope.now.spec.now made.new pool.new }
{
    let x = enter(scope, a, env, room, fuel, pool, made)?;
    let y = enter(scope, b, env, room, fuel, pool, made)?;
    tree(scope.alloc, op, &[x, y], pool)
}

// `? :`
#[cycle(eval)]
fn choice(
    scope: &Scope,
    c: &ExprTree,
    a: &ExprTree,
    b: &ExprTree,
    env: &mut Vec<Live>,
    room: u32,
    fuel: &mut u32,
    pool: &mut Pool,
    made: &mut MadeTerms,
) -> Result<Live, Stop>
    requires known { AreKnown (length pool.old) (bindings scope.now.args.now env.old.items) }
    requires made { AreMade scope.now.spec.now made.old pool.old }
    ensures value { (last : List Value) → IsGrown pool.new last →
        IsReached last result fuel.new (limited (step_of scope.now.spec.now (value_within scope.now.spec.now room)
        (Choice (expr_of c.now) (expr_of a.now) (expr_of b.now))
        (bound_in last scope.now.args.now env.old.items) fuel.old)) }
    ensures env { OnOk result (env.new.items ≡ env.old.items) }
    ensures grown { IsGrown pool.old pool.new }
    ensures made { AreMade scope.now.spec.now made.new pool.new }
{
    let Some(chosen) = enter(scope, c, env, room, fuel, pool, made)?.to_truth() else {
        return Err(Stop::Fault(FaultKind::NoMatch));
    };
    if chosen {
        enter(scope, a, env, room, fuel, pool, made)
    } else {
        enter(scope, b, env, room, fuel, pool, made)
    }
}

// an operator on its operands
#[cycle(eval)]
fn apply(
    scope: &Scope,
    op: OpId,
    parts: &ExprList,
    env: &mut Vec<Live>,
    room: u32,
    fuel: &mut u32,
    pool: &mut Pool,
    made: &mut MadeTerms,
) -> Result<Live, Stop>
    requires known { AreKnown (length pool.old) (bindings scope.now.args.now env.old.items) }
    requires made { AreMade scope.now.spec.now made.old pool.old }
    ensures value { (last : List Value) → IsGrown pool.new last →
        IsReached last result fuel.new (limited (step_of scope.now.spec.now (value_within scope.now.spec.now room)
        (Apply op (exprs_of parts.now)) (bound_in last scope.now.args.now env.old.items) fuel.old)) }
    ensures env { OnOk result (env.new.items ≡ env.old.items) }
    ensures grown { IsGrown pool.old pool.new }
    ensures made { AreMade scope.now.spec.now made.new pool.new }
{
    let kids = row(scope, parts, env, room, fuel, pool, made)?;
    let reached = tree(scope.alloc, op, &kids, pool);
    made.leave_row(kids);
    reached
}

// a function on its arguments, whose body is evaluated inside the call
#[cycle(eval)]
fn call(
    scope: &Scope,
    f: u32,
    parts: &ExprList,
    env: &mut Vec<Live>,
    room: u32,
    fuel: &mut u32,
    pool: &mut Pool,
    made: &mut MadeTerms,
) -> Result<Live, Stop>
    requires known { AreKnown (length pool.old) (bindings scope.now.args.now env.old.items) }
    requires made { AreMade scope.now.spec.now made.old pool.old }
    ensures value { (last : List Value) → IsGrown pool.new last →
        IsReached last result fuel.new (limited (step_of scope.now.spec.now (value_within scope.now.spec.now room)
        (Call f (exprs_of parts.now)) (bound_in last scope.now.args.now env.old.items) fuel.old)) }
    ensures env { OnOk result (env.new.items ≡ env.old.items) }
    ensures grown { IsGrown pool.old pool.new }
    ensures made { AreMade scope.now.spec.now made.new pool.new }
{
    let mut args = row(scope, parts, env, room, fuel, pool, made)?;
    let Some(function) = scope.spec.functions.place(f) else {
        return Err(Stop::Fault(FaultKind::NoMatch));
    };
    let Some(body) = scope.spec.exprs.place(function.body.number) else {
        return Err(Stop::Fault(FaultKind::NoMatch));
    };
    let inside = Scope {
        alloc: scope.alloc,
        spec: scope.spec,
        args: &[],
    };
    let reached = enter(&inside, &body.tree, &mut args, room, fuel, pool, made);
    made.leave_row(args);
    reached
}

// `let`
#[cycle(eval)]
fn bind(
    scope: &Scope,
    a: &ExprTree,
    b: &ExprTree,
    env: &mut Vec<Live>,
    room: u32,
    fuel: &mut u32,
    pool: &mut Pool,
    made: &mut MadeTerms,
) -> Result<Live, Stop>
    requires known { AreKnown (length pool.old) (bindings scope.now.args.now env.old.items) }
    requires made { AreMade scope.now.spec.now made.old pool.old }
    ensures value { (last : List Value) → IsGrown pool.new last →
        IsReached last result fuel.new (limited (step_of scope.now.spec.now (value_within scope.now.spec.now room)
        (Let (expr_of a.now) (expr_of b.now)) (bound_in last scope.now.args.now env.old.items) fuel.old)) }
    ensures env { OnOk result (env.new.items ≡ env.old.items) }
    ensures grown { IsGrown pool.old pool.new }
    ensures made { AreMade scope.now.spec.now made.new pool.new }
{
    let x = enter(scope, a, env, room, fuel, pool, made)?;
    env.push(x)?;
    let y = enter(scope, b, env, room, fuel, pool, made)?;
    let _ = env.pop();
    Ok(y)
}

// `with`
#[cycle(eval)]
fn with(
    scope: &Scope,
    a: &ExprTree,
    cases: &CaseList,
    env: &mut Vec<Live>,
    room: u32,
    fuel: &mut u32,
    pool: &mut Pool,
    made: &mut MadeTerms,
) -> Result<Live, Stop>
    requires known { AreKnown (length pool.old) (bindings scope.now.args.now env.old.items) }
    requires made { AreMade scope.now.spec.now made.old pool.old }
    ensures value { (last : List Value) → IsGrown pool.new last →
        IsReached last result fuel.new (limited (step_of scope.now.spec.now (value_within scope.now.spec.now room)
        (With (expr_of a.now) (cases_of cases.now)) (bound_in last scope.now.args.now env.old.items) fuel.old)) }
    ensures env { OnOk result (env.new.items ≡ env.old.items) }
    ensures grown { IsGrown pool.old pool.new }
    ensures made { AreMade scope.now.spec.now made.new pool.new }
{
    let x = enter(scope, a, env, room, fuel, pool, made)?;
    first_match(scope, x, cases, env, room, fuel, pool, made)
}

// the first case whose pattern matches, else the default
#[cycle(eval)]
fn first_match(
    scope: &Scope,
    x: Live,
    cases: &CaseList,
    env: &mut Vec<Live>,
    room: u32,
    fuel: &mut u32,
    pool: &mut Pool,
    made: &mut MadeTerms,
) -> Result<Live, Stop>
    requires value { IsKnown (length pool.old) x }
    requires known { AreKnown (length pool.old) (bindings scope.now.args.now env.old.items) }
    requires made { AreMade scope.now.spec.now made.old pool.old }
    ensures value { (last : List Value) → IsGrown pool.new last →
        IsReached last result fuel.new (first_case scope.now.spec.now (value_within scope.now.spec.now room)
        (value_in last x) (cases_of cases.now) (bound_in last scope.now.args.now env.old.items) fuel.old) }
    ensures env { OnOk result (env.new.items ≡ env.old.items) }
    ensures grown { IsGrown pool.old pool.new }
    ensures made { AreMade scope.now.spec.now made.new pool.new }
{
    let count = env.len();
    let mut rest = cases;
    while let CaseList::More(pattern, e, next) = rest {
        if matches(scope.alloc, scope.spec, &pattern.tree, x, pool, made, env)? {
            let y = enter(scope, e, env, room, fuel, pool, made)?;
            env.truncate(count);
            return Ok(y);
        }
        env.truncate(count);
        rest = next;
    }
    match rest {
        CaseList::Default(e) => enter(scope, e, env, room, fuel, pool, made),
        _ => Err(Stop::Fault(FaultKind::NoMatch)),
    }
}

// the values of a row of expressions, from left to right
#[cycle(eval)]
fn row(
    scope: &Scope,
    parts: &ExprList,
    env: &mut Vec<Live>,
    room: u32,
    fuel: &mut u32,
    pool: &mut Pool,
    made: &mut MadeTerms,
) -> Result<Vec<Live>, Stop>
    requires known { AreKnown (length pool.old) (bindings scope.now.args.now env.old.items) }
    requires made { AreMade scope.now.spec.now made.old pool.old }
    ensures value { (last : List Value) → IsGrown pool.new last → MatchResult result
        (λ v. AreReached last v.items fuel.new
        (row_reached (value_within scope.now.spec.now room) [] (exprs_of parts.now)
        (bound_in last scope.now.args.now env.old.items) fuel.old))
        (λ s. IsHalted s fuel.new
        (row_reached (value_within scope.now.spec.now room) [] (exprs_of parts.now)
        (bound_in last scope.now.args.now env.old.items) fuel.old)) }
    ensures env { OnOk result (env.new.items ≡ env.old.items) }
    ensures grown { IsGrown pool.old pool.new }
    ensures made { AreMade scope.now.spec.now made.new pool.new }
{
    let mut values = made.take_row(scope.alloc);
    let mut rest = parts;
    while let ExprList::More(e, next) = rest {
        values.push(enter(scope, e, env, room, fuel, pool, made)?)?;
        rest = next;
    }
    Ok(values)
}

// a literal
fn constant(alloc: Global, literal: &Literal, pool: &mut Pool) -> Result<Live, Stop>
    ensures value { (last : List Value) (left : ℕ) → IsGrown pool.new last →
        IsReached last result left (limited (Gives (literal_of literal.now) left)) }
    ensures grown { IsGrown pool.old pool.new }
{
    match literal {
        Literal::Truth(b) => Ok(Live::truth(*b)),
        Literal::Number(n) => Ok(Live::Number(*n)),
        Literal::Text(bytes) => text(Vec::from_slice(alloc, bytes.as_slice())?, pool),
    }
}

// a binding: an argument, or one that was bound since
#[tactic(auto, using(crate::proofs::Bindings::binding_left, crate::proofs::Bindings::binding_right))]
fn binding(scope: &Scope, env: &[Live], k: u32) -> Option<Live>
    ensures { result ≡ slice_get (bindings scope.now.args.now env.now) k }
{
    let k = k as usize;
    let count = scope.args.len();
    if k < count {
        let id = scope.args[k];
        Some(Live::Kept(id.number))
    } else {
        env.get(k - count).copied()
    }
}

// the value of a binding
#[tactic(auto, using(crate::proofs::Bindings::bound_at, crate::proofs::Bindings::known_at))]
fn named(scope: &Scope, env: &[Live], k: u32, pool: &Pool) -> Result<Live, Stop>
    requires { AreKnown (length pool.now) (bindings scope.now.args.now env.now) }
    ensures { (last : List Value) (left : ℕ) → IsGrown pool.now last → IsReached last result left
        (limited (Gives (unwrap_or (slice_get (bound_in last scope.now.args.now env.now) k) untyped) left)) }
{
    match binding(scope, env, k) {
        Some(Live::False) => Ok(Live::False),
        Some(Live::True) => Ok(Live::True),
        Some(Live::Number(n)) => Ok(Live::Number(n)),
        Some(Live::Kept(number)) => read(ValueId { number }, pool),
        None => Err(Stop::Fault(FaultKind::NoMatch)),
    }
}

// `[p]` and `<p>`. A value over a limit is not kept: a specification that has one is refused where it is loaded.
#[tactic(auto, using(crate::proofs::MadeLater::made_later, crate::proofs::MadeLater::made_more))]
fn made_of(
    scope: &Scope,
    kind: Made,
    p: PhylumId,
    pool: &mut Pool,
    made: &mut MadeTerms,
) -> Result<Live, Stop>
    requires { AreMade scope.now.spec.now made.old pool.old }
    ensures value { (last : List Value) (left : ℕ) → IsGrown pool.new last →
        IsReached last result left (limited (Gives (made_value scope.now.spec.now kind p) left)) }
    ensures grown { IsGrown pool.old pool.new }
    ensures made { AreMade scope.now.spec.now made.new pool.new }
{
    if let Some(id) = made.number(kind, p) {
        return read(id, pool);
    }
    let value = value_of_made(scope.alloc, scope.spec, kind, p)?;
    if !value.is_within() {
        return Err(Stop::Fault(FaultKind::Size));
    }
    let id = pool.put(&value)?;
    made.keep(kind, p, id);
    read(id, pool)
}
