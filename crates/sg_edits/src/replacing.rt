// What is replaced everywhere.
ghost use Rattle.std.specs.Prelude.{◌≡◌, IfOk, Some};
ghost use Rattle.sg_kinds.specs.Places.{Place, sub};
ghost use Rattle.sg_kinds.specs.Terms.{Term};
ghost use Rattle.sg_kinds.specs.Values.{Bytes};
ghost use Rattle.sg_kinds.specs.declared.spec.Spec.{Spec};
ghost use Rattle.sg_forest.specs.Trees.{IsLive};
ghost use Rattle.sg_groves.specs.Grove.{nodes};
ghost use Rattle.sg_search.specs.ReplacedAll.{replaced_all};
ghost use Rattle.sg_search.specs.Why.{IsWhy};
ghost use Rattle.sg_edits.specs.Choice.{choice_of, limited, IsFit};
ghost use Rattle.sg_edits.specs.Chosen.{IsLimited, PutsFit};
ghost use Rattle.sg_edits.specs.Edits.{by_replaced, everywhere};

use crate::choice::{Choice, put};
use sg_eval::Evaluator;
use sg_forest::NodeId;
use sg_kinds::memory::NoMemory;
use sg_script::Message;
use sg_search::{SearchFault, all};
use sg_terms::Terms;
use std::alloc::Global;

// what is said where there is no term with all replaced
fn unmade(fault: SearchFault) -> Result<Choice, NoMemory>
    ensures choice { IfOk result (λ c. (spec : Spec) (name : Bytes) (t x : Term) (u : Place) → sub t u ≡ Some x
        → IsWhy spec name x fault → limited t (choice_of c) ≡ limited t (by_replaced u (replaced_all spec name x))) }
    ensures fits { IfOk result (λ c. (spec : Spec) (t : Term) → IsFit spec t (choice_of c)) }
{
    match fault {
        SearchFault::Unknown => Ok(Choice::Refused(Message::Unknown)),
        SearchFault::NoMatch => Ok(Choice::Refused(Message::NoMatch)),
        SearchFault::Outcome(why) => Ok(Choice::Refused(Message::Result(why))),
        SearchFault::Size => Ok(Choice::Refused(Message::Size)),
        SearchFault::NoMemory => Err(NoMemory),
    }
}

/// `replace-all`: what the transformations of a name give in all outermost places of a term, in its place. A term over a
/// limit is refused here or by the last guard.
pub fn everywhere(
    alloc: Global,
    terms: &Terms,
    ev: &Evaluator,
    at: NodeId,
    name: &[u8],
) -> Result<Choice, NoMemory>
    requires same { ev.now ≡ terms.now.spec }
    requires live { IsLive (nodes terms.now) at }
    ensures choice { IsLimited terms.now at result (λ t u. everywhere terms.now.spec t u name.now) }
    ensures fits { PutsFit terms.now at result }
{
    terms.facts();
    match all(alloc, terms, ev, at, name) {
        Ok(term) => Ok(put(alloc, terms, at, term, at, false, 1)?),
        Err(fault) => Ok(unmade(fault)?),
    }
}
