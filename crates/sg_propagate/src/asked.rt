//! Whether an equation has an argument whose value is another one than before.
ghost use Rattle.std.specs.Prelude.{◌≡◌, ◌↔◌, Some, Contains, IsTrue, slice_get};
ghost use Rattle.sg_kinds.specs.Specification.{rules_of};
ghost use Rattle.sg_kinds.specs.declared.spec.Rule.{Rule};
ghost use Rattle.sg_dependencies.specs.Vertices.{IsVertex};
ghost use Rattle.sg_terms.specs.Found.{op_at};
ghost use Rattle.sg_propagate.specs.Scenes.{AreTops, ShowsOther};

use crate::work::Work;
use sg_forest::NodeId;
use sg_kinds::ids::RuleId;
use sg_kinds::row::item;
use sg_kinds::spec::Occurrence;
use sg_terms::Terms;

// Whether an argument at a node shows another value. At the new top it is compared with what the old one keeps, so that
// no visit of the new subterm has to say what changed.
fn shows_other(
    terms: &Terms,
    n: NodeId,
    o: Occurrence,
    top: NodeId,
    left: NodeId,
    work: &Work,
) -> bool
    requires vertex { (op : _) × (op_at terms.now n ≡ Some op) × IsVertex (rules_of terms.now.spec) op o }
    requires tops { AreTops terms.now top left }
    ensures { IsTrue result ↔ ShowsOther terms.now top left n work.now o }
{
    terms.facts();
    if o.at == 0 {
        return work.is_noted(n, o.slot);
    }
    let m = terms.kid(n, o.at as usize - 1);
    if m == top {
        terms.pool().sound();
        terms.stored(top, o.slot) != terms.stored(left, o.slot)
    } else {
        work.is_noted(m, o.slot)
    }
}

/// Whether some argument of an equation at a node shows another value, in a look-up an argument.
pub fn has_other(
    terms: &Terms,
    n: NodeId,
    rule: RuleId,
    top: NodeId,
    left: NodeId,
    work: &Work,
) -> bool
    requires operator { (r : Rule) × (slice_get terms.now.spec.rules rule ≡ Some r) × (op_at terms.now n ≡ Some r.op) }
    requires tops { AreTops terms.now top left }
    ensures { (r : Rule) → slice_get terms.now.spec.rules rule ≡ Some r → IsTrue result
        ↔ ((o : _) × Contains r.args o × ShowsOther terms.now top left n work.now o) }
{
    terms.facts();
    for &o in item(terms.spec().rules.as_slice(), rule.number as usize)
        .args
        .as_slice()
    {
        if shows_other(terms, n, o, top, left, work) {
            return true;
        }
    }
    false
}
