// What a pattern's variables are bound to.
ghost use Rattle.std.specs.Prelude.{◌≡◌, ◌++◌, List, Some, IfOk, OnOk};
ghost use Rattle.sg_kinds.specs.Values.{Value as IsValue};
ghost use Rattle.sg_kinds.specs.PatternView.{pattern_of, patterns_of};
ghost use Rattle.sg_kinds.specs.Evaluation.{bound_by, bound_by_all};
ghost use Rattle.sg_forest.specs.Trees.{IsLive};
ghost use Rattle.sg_groves.specs.Grove.{nodes};
ghost use Rattle.sg_matching.specs.Under.{value_under, values_under};

use crate::nodes::kid_at;
use sg_build::value_out;
use sg_forest::NodeId;
use sg_kinds::memory::NoMemory;
use sg_kinds::pattern::{PatternList, PatternTree};
use sg_kinds::value::Value;
use sg_terms::Terms;
use std::alloc::Global;

/// What the variables of a pattern that matches are bound to, from left to right.
pub fn bindings(
    alloc: Global,
    terms: &Terms,
    pattern: &PatternTree,
    n: NodeId,
) -> Result<Vec<Value>, NoMemory>
    requires { IsLive (nodes terms.now) n }
    ensures { (values : List IsValue)
        → bound_by terms.now.spec (pattern_of pattern.now) (value_under terms.now n) ≡ Some values
        → IfOk result (λ v. v.items ≡ values) }
{
    let mut bound = Vec::new(alloc);
    bind(alloc, terms, pattern, n, &mut bound)?;
    Ok(bound)
}

// puts what the variables are bound to behind `bound`
#[cycle(binding)]
fn bind(
    alloc: Global,
    terms: &Terms,
    pattern: &PatternTree,
    n: NodeId,
    bound: &mut Vec<Value>,
) -> Result<(), NoMemory>
    requires { IsLive (nodes terms.now) n }
    ensures { (values : List IsValue)
        → bound_by terms.now.spec (pattern_of pattern.now) (value_under terms.now n) ≡ Some values
        → OnOk result (bound.new.items ≡ bound.old.items ++ values) }
{
    terms.facts();
    match pattern {
        PatternTree::Variable => {
            bound.push(value_out(alloc, terms, n)?)?;
            Ok(())
        }
        PatternTree::Operator(_, parts) => bind_all(alloc, terms, parts, n, 0, bound),
        _ => Ok(()),
    }
}

// the same of patterns, on a node's children from child `k` on
#[cycle(binding)]
fn bind_all(
    alloc: Global,
    terms: &Terms,
    patterns: &PatternList,
    n: NodeId,
    k: usize,
    bound: &mut Vec<Value>,
) -> Result<(), NoMemory>
    requires { IsLive (nodes terms.now) n }
    ensures { (values : List IsValue)
        → bound_by_all terms.now.spec (patterns_of patterns.now) (values_under terms.now n k) ≡ Some values
        → OnOk result (bound.new.items ≡ bound.old.items ++ values) }
{
    match patterns {
        PatternList::End => Ok(()),
        PatternList::More(first, rest) => {
            let Some(kid) = kid_at(terms, n, k) else {
                return Ok(());
            };
            bind(alloc, terms, first, kid, bound)?;
            bind_all(alloc, terms, rest, n, k + 1, bound)
        }
    }
}
