//! What values are computed with: plans of evaluation and an evaluator.
ghost use Rattle.std.specs.Prelude.{◌≡◌, IfOk};
ghost use Rattle.sg_kinds.specs.Sound.{IsSound};
ghost use Rattle.sg_kinds.specs.Specification.{rules_of};
ghost use Rattle.sg_kinds.specs.ValidPlans.{AreValid};

use sg_eval::Evaluator;
use sg_kinds::memory::NoMemory;
use sg_kinds::plans::Plans;
use sg_kinds::spec::Spec;
use std::alloc::Global;
use std::marker::Model;

/// The plans and the evaluator of one specification. The type keeps that the specification is sound, and that the plans
/// are valid for it. Contracts see the specification and the plans.
#[derive(Drop)]
pub struct Attribution {
    plans: Plans,
    evaluator: Evaluator,
}

impl Model for Attribution {
    ghost use Rattle.sg_buffer.specs.Attributed.{Attributed, attributed_code};
    ghost use Rattle.sg_kinds.specs.contracts.plans.Plans as plans_type;
    ghost use Rattle.sg_kinds.specs.contracts.spec.Spec as spec_type;

    ghost Value = { Attributed };

    ghost coded = { attributed_code spec_type.the_row.coded plans_type.the_row.coded };

    ghost use Rattle.sg_buffer.specs.Attributed.{IsAttributed};

    ghost view = { λ a. record { spec = a.evaluator; plans = a.plans } };

    ghost invariant = { λ a. IsAttributed (record { spec = a.evaluator; plans = a.plans }) };
}

impl Attribution {
    /// That of a specification, of which the evaluator keeps a copy.
    pub fn new(alloc: Global, spec: &Spec, plans: Plans) -> Result<Attribution, NoMemory>
        requires sound { IsSound spec.now }
        requires valid { AreValid (rules_of spec.now) plans }
        ensures { IfOk result (λ a. a ≡ record { spec = spec.now; plans = plans }) }
    {
        let evaluator = Evaluator::new(alloc, spec)?;
        Ok(Attribution { plans, evaluator })
    }

    /// The plans.
    pub fn plans(&self) -> &Plans
        ensures { result.now ≡ self.now.plans }
    {
        &self.plans
    }

    /// The evaluator.
    pub fn evaluator(&self) -> &Evaluator
        ensures { result.now ≡ self.now.spec }
    {
        &self.evaluator
    }

    /// The specification is sound, and the plans are valid for it. This does nothing and tells it.
    pub fn facts(&self)
        ensures sound { IsSound self.now.spec }
        ensures valid { AreValid (rules_of self.now.spec) self.now.plans }
    {
        let _ = &self.plans;
    }
}
