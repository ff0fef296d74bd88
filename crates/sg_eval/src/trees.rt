// Trees of operators, and made terms.
ghost use Rattle.std.specs.Prelude.{◌≡◌, ℕ, ◌<◌, List, length, map, IfOk};
ghost use Rattle.sg_kinds.specs.Values.{Value, Tree, row_of};
ghost use Rattle.sg_kinds.specs.Terms.{kids_of};
ghost use Rattle.sg_kinds.specs.ValueOf.{value_of as value_of_term, values_of as values_of_terms};
ghost use Rattle.sg_pool.specs.Pools.{value_at, IsGrown};
ghost use Rattle.sg_kinds.specs.Evaluation.{Gives, limited, made_value};
ghost use Rattle.sg_eval.specs.Lives.{value_in, IsUsable, AreUsable, IsReached};

use crate::live::{Live, Stop};
use sg_kinds::ids::{OpId, PhylumId, ValueId};
use sg_kinds::marks::{FaultKind, Made};
use sg_kinds::memory::NoMemory;
use sg_kinds::spec::Spec;
use sg_kinds::term::{Term, TermNode};
use sg_kinds::value::{Kids, Value};
use sg_pool::entry::PoolEntry;
use sg_pool::pool::{Pool, PoolFault};
use std::alloc::Global;

/// The number of what stands for a value.
pub fn interned(l: Live, pool: &mut Pool) -> Result<ValueId, NoMemory>
    requires { IsUsable pool.old l }
    ensures below { IfOk result (λ id. id < length pool.new) }
    ensures value { (last : List Value) → IsGrown pool.new last →
        IfOk result (λ id. value_at last id ≡ value_in last l) }
    ensures grown { IsGrown pool.old pool.new }
{
    match l {
        Live::False => pool.put_truth(false),
        Live::True => pool.put_truth(true),
        Live::Number(n) => pool.put_number(n),
        Live::Kept(number) => Ok(ValueId { number }),
    }
}

/// The tree of an operator over these children.
pub fn tree(alloc: Global, op: OpId, kids: &[Live], pool: &mut Pool) -> Result<Live, Stop>
    requires { AreUsable pool.old kids.now }
    ensures value { (last : List Value) (left : ℕ) → IsGrown pool.new last →
        IsReached last result left (limited (Gives (Tree op (row_of (map (value_in last) kids.now))) left)) }
    ensures grown { IsGrown pool.old pool.new }
{
    let mut numbers = Vec::with_capacity(alloc, kids.len())?;
    for kid in kids {
        numbers.push(interned(*kid, pool)?)?;
    }
    match pool.node(op, numbers) {
        Ok(id) => Ok(Live::Kept(id.number)),
        Err(PoolFault::Size) => Err(Stop::Fault(FaultKind::Size)),
        Err(PoolFault::NoMemory) => Err(Stop::NoMemory),
    }
}

/// The value of a term.
#[cycle(value_of)]
pub fn value_of(alloc: Global, t: &Term) -> Result<Value, NoMemory>
    ensures { IfOk result (λ v. v ≡ value_of_term t.now) }
{
    match &t.node {
        TermNode::Leaf(_, v) => Ok(v.copy(alloc)?),
        TermNode::Node(op, _, _, kids) => Ok(Value::tree(*op, values_of(alloc, kids)?)),
    }
}

// the values of these terms
#[cycle(value_of)]
fn values_of(alloc: Global, terms: &[Term]) -> Result<Kids, NoMemory>
    ensures { IfOk result (λ vs. row_of vs.items ≡ values_of_terms (kids_of terms.now)) }
{
    let mut values = Vec::with_capacity(alloc, terms.len())?;
    for term in terms {
        values.push(value_of(alloc, term)?)?;
    }
    Ok(values)
}

/// The value of `[p]` or `<p>`.
pub fn value_of_made(alloc: Global, spec: &Spec, made: Made, p: PhylumId) -> Result<Value, NoMemory>
    ensures { IfOk result (λ v. v ≡ made_value spec.now made p) }
{
    let t = match made {
        Made::Completing => spec.completing(alloc, p)?,
        Made::Placeholder => spec.placeholder(alloc, p)?,
    };
    value_of(alloc, &t)
}

/// The value of a number.
pub fn read(id: ValueId, pool: &Pool) -> Result<Live, Stop>
    requires { id < length pool.now }
    ensures { (last : List Value) (left : ℕ) → IsGrown pool.now last →
        IsReached last result left (limited (Gives (value_at last id) left)) }
{
    match pool.entry(id) {
        PoolEntry::Bool(b) => Ok(Live::truth(*b)),
        PoolEntry::Int(n) => Ok(Live::Number(*n)),
        PoolEntry::Fault(kind) => Err(Stop::Fault(*kind)),
        _ => {
            if pool.is_within(id) {
                Ok(Live::Kept(id.number))
            } else {
                Err(Stop::Fault(FaultKind::Size))
            }
        }
    }
}
