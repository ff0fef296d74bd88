//! A term in terms of its own.
ghost use Rattle.std.specs.Prelude.{◌≡◌, ◌<◌, ◌↔◌, [], ◌∷◌, Contains, IfOk, IfErr, IsOk, OnErr};
ghost use Rattle.sg_kinds.specs.Fits.{Fits};
ghost use Rattle.sg_kinds.specs.Instances.{instances};
ghost use Rattle.sg_kinds.specs.Sound.{IsSmall, IsSound};
ghost use Rattle.sg_kinds.specs.Specification.{rules_of};
ghost use Rattle.sg_kinds.specs.Terms.{nodes_of};
ghost use Rattle.sg_kinds.specs.ValidPlans.{AreValid};
ghost use Rattle.sg_eval.specs.Journal.{now_of, total_of};
ghost use Rattle.sg_terms.specs.Entries.{GainedAll};
ghost use Rattle.sg_build.specs.Counted.{AreCounts};
ghost use Rattle.sg_undo.specs.Timeline.{timeline};
ghost use Rattle.sg_groves.specs.Grove.{IsGrove};
ghost use Rattle.sg_states.specs.Paged.{IsWhole};
ghost use Rattle.sg_exchanges.specs.Noted.{Noted};
ghost use Rattle.sg_exchanges.specs.Roots.{AreTheRoots};

use sg_attrib::attribute;
use sg_build::{Counts, build, counts};
use sg_changes::Step;
use sg_eval::{Evaluator, Journal};
use sg_forest::NodeId;
use sg_kinds::limits::{DEPTH, NODES};
use sg_kinds::memory::NoMemory;
use sg_kinds::plans::Plans;
use sg_kinds::spec::Spec;
use sg_kinds::term::Term;
use sg_terms::Terms;
use sg_undo::History;
use std::alloc::Global;

/// Terms of which one is held, by the one root, with its values, and room for the steps of its changes.
#[derive(Drop)]
pub struct Fresh {
    pub terms: Terms,
    pub root: NodeId,
    pub history: History<Step>,
}

/// How many nodes a term has, or its counts exactly where it is over a limit.
pub fn within(t: &Term) -> Result<usize, Counts>
    ensures nodes { IfOk result (λ n. n ≡ nodes_of t.now) }
    ensures small { IsOk result ↔ IsSmall t.now }
    ensures counts { IfErr result (AreCounts t.now) }
{
    let size = counts(t);
    if size.nodes > NODES || size.depth > DEPTH {
        return Err(size);
    }
    Ok(size.nodes)
}

// Terms of a specification, of which one is held, by the one root, with its values. The term is in the limits and of
// the root's phylum.
fn attributed(
    alloc: Global,
    spec: &Spec,
    t: &Term,
    plans: &Plans,
    ev: &Evaluator,
    journal: &mut Journal,
) -> Result<(Terms, NodeId), NoMemory>
    requires sound { IsSound spec.now }
    requires valid { AreValid (rules_of spec.now) plans.now }
    requires same { ev.now ≡ spec.now }
    requires fits { Fits spec.now t.now spec.now.root }
    requires small { IsSmall t.now }
    ensures spec { IfOk result (λ r. r.0.spec ≡ spec.now) }
    ensures view { IfOk result (λ r. r.0.view ≡ 0) }
    ensures whole { IfOk result (λ r. IsWhole r.0 r.1 t.now) }
    ensures roots { IfOk result (λ r. AreTheRoots r.0 (r.1 ∷ [])) }
    ensures evaluated { IfOk result (λ r. GainedAll r.0 r.1 t.now (Contains (instances (rules_of spec.now) t.now))
        (now_of journal.old) (now_of journal.new)) }
    ensures noted { OnErr result (Noted spec.now t.now (Contains (instances (rules_of spec.now) t.now))
        (now_of journal.old) (now_of journal.new)) }
    ensures total { total_of journal.new ≡ total_of journal.old }
{
    let mut terms = Terms::new(alloc, spec)?;
    let Ok(root) = build(alloc, &mut terms, t) else {
        return Err(NoMemory);
    };
    terms.facts();
    attribute(&mut terms, root, plans, ev, journal)?;
    terms.facts();
    Ok((terms, root))
}

/// A term with its values, in terms of its own and the ordinary view, and room for so many steps. The term is in the limits and
/// of the root's phylum. Without memory some of the equations may be evaluated.
pub fn begin(
    alloc: Global,
    spec: &Spec,
    t: &Term,
    steps: usize,
    plans: &Plans,
    ev: &Evaluator,
    journal: &mut Journal,
) -> Result<Fresh, NoMemory>
    requires sound { IsSound spec.now }
    requires valid { AreValid (rules_of spec.now) plans.now }
    requires same { ev.now ≡ spec.now }
    requires fits { Fits spec.now t.now spec.now.root }
    requires small { IsSmall t.now }
    requires room { 0 < steps }
    ensures spec { IfOk result (λ r. r.terms.spec ≡ spec.now) }
    ensures view { IfOk result (λ r. r.terms.view ≡ 0) }
    ensures grove { IfOk result (λ r. IsGrove r.terms) }
    ensures whole { IfOk result (λ r. IsWhole r.terms r.root t.now) }
    ensures roots { IfOk result (λ r. AreTheRoots r.terms (r.root ∷ [])) }
    ensures history { IfOk result (λ r. r.history ≡ timeline [] [] steps) }
    ensures evaluated { IfOk result (λ r. GainedAll r.terms r.root t.now
        (Contains (instances (rules_of spec.now) t.now)) (now_of journal.old) (now_of journal.new)) }
    ensures noted { OnErr result (Noted spec.now t.now (Contains (instances (rules_of spec.now) t.now))
        (now_of journal.old) (now_of journal.new)) }
    ensures total { total_of journal.new ≡ total_of journal.old }
{
    let history = History::with_capacity(alloc, steps)?;
    let (terms, root) = attributed(alloc, spec, t, plans, ev, journal)?;
    terms.facts();
    Ok(Fresh {
        terms,
        root,
        history,
    })
}
