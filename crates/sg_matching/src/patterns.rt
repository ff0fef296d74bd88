// Patterns against what stands under a node.
ghost use Rattle.std.specs.Prelude.{◌≡◌, ◌<◌, Some, slice_get, is_some, length};
ghost use Rattle.sg_kinds.specs.ValueOf.{value_of};
ghost use Rattle.sg_kinds.specs.Terms.{Term};
ghost use Rattle.sg_kinds.specs.PatternView.{pattern_of, patterns_of};
ghost use Rattle.sg_kinds.specs.Evaluation.{bound_by, bound_by_all};
ghost use Rattle.sg_kinds.specs.declared.spec.Transform.{Transform};
ghost use Rattle.sg_forest.specs.Trees.{IsLive};
ghost use Rattle.sg_groves.specs.Grove.{nodes};
ghost use Rattle.sg_groves.specs.Holds.{Holds};
ghost use Rattle.sg_matching.specs.Under.{value_under, values_under};
ghost use Rattle.sg_matching.specs.InRange.{IsInRange, AreInRange};

use crate::made::is_made;
use crate::nodes::{is_literal, is_of, kid_at};
use sg_forest::NodeId;
use sg_kinds::ids::PatternId;
use sg_kinds::pattern::{PatternList, PatternTree};
use sg_kinds::row::item;
use sg_terms::Terms;

/// Whether a transformation's pattern matches the term under a node. It takes no memory. Its cost is the pattern's
/// size, with that of the made terms that the pattern names.
pub fn matches(terms: &Terms, p: PatternId, at: NodeId) -> bool
    requires pattern { p < length terms.now.spec.transforms }
    requires live { IsLive (nodes terms.now) at }
    ensures { (x : Transform) (t : Term) → slice_get terms.now.spec.transforms p ≡ Some x → Holds terms.now at t
        → result ≡ is_some (bound_by terms.now.spec x.pattern (value_of t)) }
{
    terms.facts();
    let transform = item(terms.spec().transforms.as_slice(), p.number as usize);
    is_match(terms, &transform.pattern.tree, at)
}

/// Whether a pattern matches the value under a node. It takes no memory.
#[cycle(matching)]
pub fn is_match(terms: &Terms, pattern: &PatternTree, n: NodeId) -> bool
    requires live { IsLive (nodes terms.now) n }
    requires range { IsInRange terms.now.spec (pattern_of pattern.now) }
    ensures { result ≡ is_some (bound_by terms.now.spec (pattern_of pattern.now) (value_under terms.now n)) }
{
    match pattern {
        PatternTree::Literal(literal) => is_literal(terms, literal, n),
        PatternTree::Anything => true,
        PatternTree::Variable => true,
        PatternTree::Made(made, p) => is_made(terms, *made, *p, n),
        PatternTree::Operator(op, parts) => is_of(terms, *op, n) && all_match(terms, parts, n, 0),
    }
}

// whether patterns match the values under a node's children, each its own, from child `k` on
#[cycle(matching)]
fn all_match(terms: &Terms, patterns: &PatternList, n: NodeId, k: usize) -> bool
    requires live { IsLive (nodes terms.now) n }
    requires range { AreInRange terms.now.spec (patterns_of patterns.now) }
    ensures { result ≡ is_some (bound_by_all terms.now.spec (patterns_of patterns.now) (values_under terms.now n k)) }
{
    match patterns {
        PatternList::End => kid_at(terms, n, k).is_none(),
        PatternList::More(first, rest) => {
            let Some(kid) = kid_at(terms, n, k) else {
                return false;
            };
            is_match(terms, first, kid) && all_match(terms, rest, n, k + 1)
        }
    }
}
