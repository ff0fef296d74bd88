// Patterns over values.
ghost use Rattle.std.specs.Prelude.{◌≡◌, ◌<◌, All, map, length, IfOk, MatchOption, IfSome, false};
ghost use Rattle.sg_kinds.specs.Values.{row_of, same_value, same_values};
ghost use Rattle.sg_pool.specs.Pools.{value_at, tree_over, IsGrown};
ghost use Rattle.sg_kinds.specs.PatternView.{literal_of, pattern_of, patterns_of};
ghost use Rattle.sg_kinds.specs.Evaluation.{bound_by, bound_by_all, made_value};
ghost use Rattle.sg_eval.specs.Lives.{value_in, IsKnown, is_tree_of, IsMatched};
ghost use Rattle.sg_eval.specs.MadeTerms.{AreMade};

use crate::live::Live;
use crate::made::MadeTerms;
use crate::trees::value_of_made;
use sg_kinds::ids::{OpId, PhylumId, ValueId};
use sg_kinds::marks::Made;
use sg_kinds::memory::NoMemory;
use sg_kinds::pattern::{Literal, PatternList, PatternTree};
use sg_kinds::spec::Spec;
use sg_kinds::value::{Value, ValueNode};
use sg_pool::entry::PoolEntry;
use sg_pool::pool::Pool;
use std::alloc::Global;

/// Whether a value matches a pattern. What its variables are bound to is put behind `bound`, from left to right. The
/// number of a made term that it meets is kept.
#[tactic(auto, using(crate::proofs::MadeLater::made_later))]
pub fn matches(
    alloc: Global,
    spec: &Spec,
    pattern: &PatternTree,
    x: Live,
    pool: &mut Pool,
    made: &mut MadeTerms,
    bound: &mut Vec<Live>,
) -> Result<bool, NoMemory>
    requires known { IsKnown (length pool.old) x }
    requires made { AreMade spec.now made.old pool.old }
    ensures matched { IfOk result
        (λ b. IsMatched pool.new (bound_by spec.now (pattern_of pattern.now) (value_in pool.new x))
        bound.old.items bound.new.items b) }
    ensures grown { IsGrown pool.old pool.new }
    ensures made { AreMade spec.now made.new pool.new }
{
    let mut wanted = None;
    let given = Given {
        alloc,
        spec,
        pool,
        made,
    };
    let matched = fits(&given, pattern, x, bound, &mut wanted)?;
    if let Some((kind, p)) = wanted {
        keep_made(alloc, spec, kind, p, pool, made)?;
    }
    Ok(matched)
}

// what a matching reads
#[derive(Clone, Copy)]
struct Given<'a> {
    alloc: Global,
    spec: &'a Spec,
    pool: &'a Pool,
    made: &'a MadeTerms,
}

// whether a value matches a pattern. A made term that has no number yet is named in `wanted`
#[cycle(fitting)]
#[inline(always)]
fn fits(
    given: &Given,
    pattern: &PatternTree,
    x: Live,
    bound: &mut Vec<Live>,
    wanted: &mut Option<(Made, PhylumId)>,
) -> Result<bool, NoMemory>
    requires known { IsKnown (length given.now.pool.now) x }
    requires made { AreMade given.now.spec.now given.now.made.now given.now.pool.now }
    ensures { IfOk result (λ b. IsMatched given.now.pool.now
        (bound_by given.now.spec.now (pattern_of pattern.now) (value_in given.now.pool.now x))
        bound.old.items bound.new.items b) }
{
    match pattern {
        PatternTree::Literal(literal) => Ok(is_literal(literal, x, given.pool)),
        PatternTree::Anything => Ok(true),
        PatternTree::Variable => {
            bound.push(x)?;
            Ok(true)
        }
        PatternTree::Made(kind, p) => is_made(given, *kind, *p, x, wanted),
        PatternTree::Operator(op, parts) => match kids_of(*op, x, given.pool) {
            Some(kids) => all_fit(given, parts, kids, bound, wanted),
            None => Ok(false),
        },
    }
}

// whether the values of these numbers match these patterns, each its own
#[cycle(fitting)]
fn all_fit(
    given: &Given,
    patterns: &PatternList,
    kids: &[ValueId],
    bound: &mut Vec<Live>,
    wanted: &mut Option<(Made, PhylumId)>,
) -> Result<bool, NoMemory>
    requires known { All (λ k. k < length given.now.pool.now) kids.now }
    requires made { AreMade given.now.spec.now given.now.made.now given.now.pool.now }
    ensures { IfOk result (λ b. IsMatched given.now.pool.now
        (bound_by_all given.now.spec.now (patterns_of patterns.now)
        (row_of (map (value_at given.now.pool.now) kids.now))) bound.old.items bound.new.items b) }
{
    match patterns {
        PatternList::End => Ok(kids.is_empty()),
        PatternList::More(first, rest) => {
            let Some((kid, kids)) = kids.split_first() else {
                return Ok(false);
            };
            if !fits(given, first, Live::Kept(kid.number), bound, wanted)? {
                return Ok(false);
            }
            all_fit(given, rest, kids, bound, wanted)
        }
    }
}

// whether a value is that of `[p]` or `<p>`
#[inline(never)]
fn is_made(
    given: &Given,
    kind: Made,
    p: PhylumId,
    x: Live,
    wanted: &mut Option<(Made, PhylumId)>,
) -> Result<bool, NoMemory>
    requires known { IsKnown (length given.now.pool.now) x }
    requires made { AreMade given.now.spec.now given.now.made.now given.now.pool.now }
    ensures { IfOk result
        (λ b. b ≡ same_value (made_value given.now.spec.now kind p) (value_in given.now.pool.now x)) }
{
    if let Some(id) = given.made.number(kind, p) {
        return Ok(has_number(id, x, given.pool));
    }
    *wanted = Some((kind, p));
    let value = value_of_made(given.alloc, given.spec, kind, p)?;
    Ok(is_value(&value, x, given.pool))
}

// keeps the number of `[p]` or `<p>`; a value over a limit has none
#[tactic(auto, using(crate::proofs::MadeLater::made_later, crate::proofs::MadeLater::made_more))]
fn keep_made(
    alloc: Global,
    spec: &Spec,
    kind: Made,
    p: PhylumId,
    pool: &mut Pool,
    made: &mut MadeTerms,
) -> Result<(), NoMemory>
    requires { AreMade spec.now made.old pool.old }
    ensures grown { IsGrown pool.old pool.new }
    ensures made { AreMade spec.now made.new pool.new }
{
    let value = value_of_made(alloc, spec, kind, p)?;
    if value.is_within() {
        let id = pool.put(&value)?;
        made.keep(kind, p, id);
    }
    Ok(())
}

// whether a value is that of a number: equal values have one number
fn has_number(id: ValueId, x: Live, pool: &Pool) -> bool
    requires number { id < length pool.now }
    requires known { IsKnown (length pool.now) x }
    ensures { result ≡ same_value (value_at pool.now id) (value_in pool.now x) }
{
    pool.sound();
    match x {
        Live::False => matches!(pool.entry(id), PoolEntry::Bool(a) if !*a),
        Live::True => matches!(pool.entry(id), PoolEntry::Bool(a) if *a),
        Live::Number(n) => matches!(pool.entry(id), PoolEntry::Int(a) if *a == n),
        Live::Kept(number) => id.number == number,
    }
}

// whether a value is that of a literal
fn is_literal(literal: &Literal, x: Live, pool: &Pool) -> bool
    requires { IsKnown (length pool.now) x }
    ensures { result ≡ same_value (literal_of literal.now) (value_in pool.now x) }
{
    match x {
        Live::False => matches!(literal, Literal::Truth(a) if !*a),
        Live::True => matches!(literal, Literal::Truth(a) if *a),
        Live::Number(n) => matches!(literal, Literal::Number(a) if *a == n),
        Live::Kept(number) => is_literal_at(literal, number, pool),
    }
}

// whether the value of a number is that of a literal
fn is_literal_at(literal: &Literal, number: usize, pool: &Pool) -> bool
    requires { number < length pool.now }
    ensures { result ≡ same_value (literal_of literal.now) (value_at pool.now number) }
{
    match (literal, pool.entry(ValueId { number })) {
        (Literal::Truth(a), PoolEntry::Bool(b)) => *a == *b,
        (Literal::Number(a), PoolEntry::Int(b)) => *a == *b,
        (Literal::Text(a), PoolEntry::Text(b)) => a.as_slice() == b.as_slice(),
        _ => false,
    }
}

// whether two values are the same
fn is_value(v: &Value, x: Live, pool: &Pool) -> bool
    requires { IsKnown (length pool.now) x }
    ensures { result ≡ same_value v.now (value_in pool.now x) }
{
    match x {
        Live::False => v.same(&Value::truth(false)),
        Live::True => v.same(&Value::truth(true)),
        Live::Number(n) => v.same(&Value::number(n)),
        Live::Kept(number) => is_value_at(v, ValueId { number }, pool),
    }
}

// whether a value is that of a number
#[cycle(comparing)]
fn is_value_at(v: &Value, id: ValueId, pool: &Pool) -> bool
    requires { id < length pool.now }
    ensures { result ≡ same_value v.now (value_at pool.now id) }
{
    match (&v.node, pool.entry(id)) {
        (ValueNode::Bool(a), PoolEntry::Bool(b)) => *a == *b,
        (ValueNode::Int(a), PoolEntry::Int(b)) => *a == *b,
        (ValueNode::Text(a), PoolEntry::Text(b)) => a.as_slice() == b.as_slice(),
        (ValueNode::Tree(a, xs), PoolEntry::Tree(b, ys)) => {
            *a == *b && are_values_at(xs, ys.as_slice(), pool)
        }
        (ValueNode::Fault(a), PoolEntry::Fault(b)) => *a == *b,
        _ => false,
    }
}

// whether these values are those of these numbers, in the same order
#[cycle(comparing)]
fn are_values_at(vs: &[Value], ids: &[ValueId], pool: &Pool) -> bool
    requires { All (λ k. k < length pool.now) ids.now }
    ensures { result ≡ same_values (row_of vs.now) (row_of (map (value_at pool.now) ids.now)) }
{
    let (Some((v, vs)), Some((id, ids))) = (vs.split_first(), ids.split_first()) else {
        return vs.is_empty() && ids.is_empty();
    };
    is_value_at(v, *id, pool) && are_values_at(vs, ids, pool)
}

// the numbers of the children of a tree of this operator
fn kids_of<'a>(op: OpId, x: Live, pool: &'a Pool) -> Option<&'a [ValueId]>
    requires { IsKnown (length pool.now) x }
    ensures value { MatchOption result (is_tree_of op (value_in pool.now x) ≡ false)
        (λ kids. value_in pool.now x ≡ tree_over pool.now op kids.now) }
    ensures known { IfSome result (λ kids. All (λ k. k < length pool.now) kids.now) }
{
    let Live::Kept(number) = x else {
        return None;
    };
    match pool.entry(ValueId { number }) {
        PoolEntry::Tree(q, kids) if *q == op => Some(kids.as_slice()),
        _ => None,
    }
}
