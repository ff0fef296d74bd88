// What is put where it was asked.
ghost use Rattle.std.specs.Prelude.{◌≡◌, IfOk};
ghost use Rattle.sg_kinds.specs.Fits.{Fits};
ghost use Rattle.sg_kinds.specs.Places.{Place};
ghost use Rattle.sg_kinds.specs.Terms.{Term};
ghost use Rattle.sg_kinds.specs.Plain.{plain};
ghost use Rattle.sg_kinds.specs.declared.spec.Spec.{Spec};
ghost use Rattle.sg_forest.specs.Trees.{IsLive};
ghost use Rattle.sg_groves.specs.Grove.{nodes, spec_shown};
ghost use Rattle.sg_groves.specs.Holds.{Holds};
ghost use Rattle.sg_matching.specs.Refusal.{IsRefused};
ghost use Rattle.sg_matching.specs.Transformation.{Given};
ghost use Rattle.sg_edits.specs.Choice.{choice_of, IsFit};
ghost use Rattle.sg_edits.specs.Chosen.{IsChoice, PutsFit};
ghost use Rattle.sg_edits.specs.Edits.{by_given, done, is_editable, typed};

use crate::choice::{Choice, put};
use sg_eval::Evaluator;
use sg_forest::NodeId;
use sg_kinds::memory::NoMemory;
use sg_kinds::value::Value;
use sg_matching::{TransformFault, transformed};
use sg_script::Message;
use sg_terms::Terms;
use sg_unparse::current;
use std::alloc::Global;

/// Whether a node may be typed in: its current scheme in the view is editable as text, or it is a leaf.
pub fn is_editable(terms: &Terms, n: NodeId) -> bool
    requires { IsLive (nodes terms.now) n }
    ensures { (t : Term) → Holds terms.now n t → result ≡ is_editable (spec_shown terms.now) t }
{
    terms.facts();
    match current(terms, n) {
        Some(scheme) => scheme.editable,
        None => terms.op(n).is_none(),
    }
}

/// `text` and `enter`: the plain term of a value in the place of a node, whose phylum it fits.
pub fn typed(alloc: Global, terms: &Terms, at: NodeId, v: &Value) -> Result<Choice, NoMemory>
    requires live { IsLive (nodes terms.now) at }
    requires value { (t : Term) (p : _) → Holds terms.now at t → Fits terms.now.spec t p
        → Fits terms.now.spec (plain terms.now.spec v.now p) p }
    ensures choice { IsChoice terms.now at result (λ t u. typed terms.now.spec t u v.now) }
    ensures fits { PutsFit terms.now at result }
{
    terms.facts();
    let term = terms.spec().plain(alloc, v, terms.phylum(at))?;
    Ok(put(alloc, terms, at, term, at, false, 1)?)
}

// what is said where the transformations of a name give no term
fn refused(fault: TransformFault) -> Result<Choice, NoMemory>
    ensures choice { IfOk result (λ c. (spec : Spec) (t : Term) (u : Place) (p : _) (given : Given)
        → IsRefused fault given → choice_of c ≡ by_given spec t u p given) }
    ensures fits { IfOk result (λ c. (spec : Spec) (t : Term) → IsFit spec t (choice_of c)) }
{
    match fault {
        TransformFault::Unknown => Ok(Choice::Refused(Message::Unknown)),
        TransformFault::NoMatch => Ok(Choice::Refused(Message::NoMatch)),
        TransformFault::Outcome(why) => Ok(Choice::Refused(Message::Result(why))),
        TransformFault::NoMemory => Err(NoMemory),
    }
}

/// `do`: what the transformations of a name give at a node, in its place.
pub fn done(
    alloc: Global,
    terms: &Terms,
    ev: &Evaluator,
    at: NodeId,
    name: &[u8],
) -> Result<Choice, NoMemory>
    requires same { ev.now ≡ terms.now.spec }
    requires live { IsLive (nodes terms.now) at }
    ensures choice { IsChoice terms.now at result (λ t u. done terms.now.spec t u name.now) }
    ensures fits { PutsFit terms.now at result }
{
    terms.facts();
    match transformed(alloc, terms, ev, name, at) {
        Ok(term) => Ok(put(alloc, terms, at, term, at, false, 1)?),
        Err(fault) => Ok(refused(fault)?),
    }
}
