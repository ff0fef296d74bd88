// The evaluator of a specification.
ghost use Rattle.std.specs.Prelude.{◌≡◌, ℕ, ◌<◌, ◌⊎◌, [], ◌∷◌, ◌++◌, map, length, All, slice_get, Some, IfOk, OnOk, OnErr};
ghost use Rattle.sg_kinds.specs.declared.spec.Rule.{Rule};
ghost use Rattle.sg_pool.specs.Pools.{value_at, StandsFor, IsGrown};
ghost use Rattle.sg_kinds.specs.Evaluation.{Reached, outcome_in, clipped};
ghost use Rattle.sg_kinds.specs.Outcome.{outcome, outcome_of};
ghost use Rattle.sg_eval.specs.Journal.{now_of, total_of};
ghost use Rattle.sg_eval.specs.Applied.{IsApplied};
ghost use Rattle.sg_eval.specs.MadeTerms.{AreMade};
ghost use Rattle.sg_eval.specs.Lives.{IsReached};

use crate::eval::{Scope, enter};
use crate::journal::{Instance, Journal};
use crate::live::{Live, Stop};
use crate::made::MadeTerms;
use sg_kinds::ids::{ExprId, RuleId, ValueId};
use sg_kinds::limits::{FUEL, NESTING};
use sg_kinds::marks::FaultKind;
use sg_kinds::memory::NoMemory;
use sg_kinds::row::item;
use sg_kinds::spec::Spec;
use sg_kinds::value::Value;
use sg_pool::pool::Pool;
use std::alloc::Global;
use std::marker::Model;

/// The evaluator of a specification, of which it keeps a copy. Contracts see it as that specification.
#[derive(Drop)]
pub struct Evaluator {
    alloc: Global,
    spec: Spec,
}

impl Model for Evaluator {
    ghost use Rattle.sg_kinds.specs.declared.spec.Spec.{Spec};
    ghost use Rattle.sg_kinds.specs.contracts.spec.Spec as contract;

    ghost Value = { Spec };

    ghost coded = { contract.the_row.coded };

    ghost view = { λ e. e.spec };
}

impl Evaluator {
    /// The evaluator of a specification.
    pub fn new(alloc: Global, spec: &Spec) -> Result<Evaluator, NoMemory>
        ensures { IfOk result (λ e. e ≡ spec.now) }
    {
        Ok(Evaluator {
            alloc,
            spec: spec.copy(alloc)?,
        })
    }

    /// The specification.
    pub fn spec(&self) -> &Spec
        ensures { result.now ≡ self.now }
    {
        &self.spec
    }

    /// Notes `who` in the journal and answers the number of the rule's outcome on the values of these numbers. It is
    /// the only call that evaluates an equation. It keeps the numbers of the made terms that it needs.
    pub fn run(
        &self,
        rule: RuleId,
        args: &[ValueId],
        who: Instance,
        pool: &mut Pool,
        made: &mut MadeTerms,
        journal: &mut Journal,
    ) -> Result<ValueId, NoMemory>
        requires rule { rule < length self.now.rules }
        requires who { who.rule ≡ rule }
        requires args { All (λ k. k < length pool.old) args.now }
        requires made { AreMade self.now made.old pool.old }
        ensures outcome { (r : Rule) → slice_get self.now.rules rule ≡ Some r →
            IfOk result (λ id. StandsFor pool.new id (outcome self.now r (map (value_at pool.old) args.now))) }
        ensures noted { OnOk result (now_of journal.new ≡ now_of journal.old ++ who ∷ []) }
        ensures err { OnErr result
            ((now_of journal.new ≡ now_of journal.old) ⊎ (now_of journal.new ≡ now_of journal.old ++ who ∷ [])) }
        ensures total { total_of journal.new ≡ total_of journal.old }
        ensures grown { IsGrown pool.old pool.new }
        ensures made { AreMade self.now made.new pool.new }
    {
        journal.note(who)?;
        let spec = &self.spec;
        let rule = item(spec.rules.as_slice(), rule.number as usize);
        evaluate(self.alloc, spec, rule.expr, args, pool, made)
    }

    /// The outcome of the expression of a transformation or of an input production on these values, of which each is
    /// the binding at its place: the values of the pattern's variables, or the results of the nonterminals and the
    /// texts of the lexemes, from left to right. No journal is handed in, so it takes no equation.
    pub fn apply(&self, e: ExprId, bound: &[Value]) -> Result<Value, NoMemory>
        requires applied { IsApplied self.now e }
        ensures { IfOk result (λ v. v ≡ outcome_of self.now e bound.now) }
    {
        let mut pool = Pool::new(self.alloc)?;
        let mut numbers = Vec::with_capacity(self.alloc, bound.len())?;
        for value in bound {
            numbers.push(clip(value, &mut pool)?)?;
        }
        let mut made = MadeTerms::new(self.alloc, &self.spec)?;
        let id = self.apply_in(e, &numbers, &mut pool, &mut made)?;
        Ok(pool.value(self.alloc, id)?)
    }

    /// As `apply`, but on numbers of a pool, where the outcome is put. It keeps the numbers of the made terms that it
    /// needs.
    pub fn apply_in(
        &self,
        e: ExprId,
        bound: &[ValueId],
        pool: &mut Pool,
        made: &mut MadeTerms,
    ) -> Result<ValueId, NoMemory>
        requires applied { IsApplied self.now e }
        requires bound { All (λ k. k < length pool.old) bound.now }
        requires made { AreMade self.now made.old pool.old }
        ensures outcome { IfOk result
            (λ id. StandsFor pool.new id (outcome_of self.now e (map (value_at pool.old) bound.now))) }
        ensures grown { IsGrown pool.old pool.new }
        ensures made { AreMade self.now made.new pool.new }
    {
        evaluate(self.alloc, &self.spec, e, bound, pool, made)
    }
}

// the number of a value, or of the fault that it is over a limit
fn clip(v: &Value, pool: &mut Pool) -> Result<ValueId, NoMemory>
    ensures stands { IfOk result (λ id. StandsFor pool.new id (clipped v.now)) }
    ensures grown { IsGrown pool.old pool.new }
{
    if v.is_within() {
        pool.put(v)
    } else {
        pool.put_fault(FaultKind::Size)
    }
}

// the number of the outcome of an expression on the values of these numbers
#[tactic(auto, using(crate::proofs::MadeLater::made_later))]
fn evaluate(
    alloc: Global,
    spec: &Spec,
    e: ExprId,
    args: &[ValueId],
    pool: &mut Pool,
    made: &mut MadeTerms,
) -> Result<ValueId, NoMemory>
    requires args { All (λ k. k < length pool.old) args.now }
    requires made { AreMade spec.now made.old pool.old }
    ensures outcome { IfOk result
        (λ id. StandsFor pool.new id (outcome_of spec.now e (map (value_at pool.old) args.now))) }
    ensures grown { IsGrown pool.old pool.new }
    ensures made { AreMade spec.now made.new pool.new }
{
    match spec.exprs.place(e.number) {
        Some(expr) => {
            let scope = Scope { alloc, spec, args };
            let mut env = made.take_row(alloc);
            // 73,717 nodes were measured to take about a millisecond, and a call nested 2,048 times 750 KiB of stack as
            // LLVM builds it, 1,300 KiB as Rattle's own compiler does
            let mut fuel = FUEL;
            let reached = enter(&scope, &expr.tree, &mut env, NESTING, &mut fuel, pool, made);
            made.leave_row(env);
            settled(reached, pool)
        }
        None => pool.put_fault(FaultKind::NoMatch),
    }
}

// the number of an answer's value
fn settled(reached: Result<Live, Stop>, pool: &mut Pool) -> Result<ValueId, NoMemory>
    ensures ok { (r : Reached) (left : ℕ) → IsReached pool.old reached left r →
        IfOk result (λ id. StandsFor pool.new id (outcome_in r)) }
    ensures grown { IsGrown pool.old pool.new }
{
    match reached {
        Ok(Live::False) => pool.put_truth(false),
        Ok(Live::True) => pool.put_truth(true),
        Ok(Live::Number(n)) => pool.put_number(n),
        Ok(Live::Kept(number)) => Ok(ValueId { number }),
        Err(Stop::Fault(kind)) => pool.put_fault(kind),
        Err(Stop::NoMemory) => Err(NoMemory),
    }
}
