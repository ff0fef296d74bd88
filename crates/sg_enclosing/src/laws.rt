//! Laws of attributes of enclosing nodes, each as the contract of a function without code.
ghost use Rattle.std.specs.Prelude.{◌≡◌, ◌≢◌, [], Some};
ghost use Rattle.sg_kinds.specs.Enclosing.{near};
ghost use Rattle.sg_kinds.specs.Fits.{Fits};
ghost use Rattle.sg_kinds.specs.FromScratch.{value_in};
ghost use Rattle.sg_kinds.specs.Nets.{Reference};
ghost use Rattle.sg_kinds.specs.Places.{Place};
ghost use Rattle.sg_kinds.specs.Terms.{Term};
ghost use Rattle.sg_kinds.specs.declared.plans.Plans.{Plans};
ghost use Rattle.sg_kinds.specs.declared.spec.Spec.{Spec};
ghost use Rattle.sg_plans.specs.Planned.{IsPlanned};
ghost use Rattle.sg_enclosing.specs.NearScratch.{far_at, near_value_in};

/// The from-scratch value of a far attribute is that of the attribute of the nearest enclosing node that its list
/// names, which is a written one.
pub fn far_values()
    ensures { (spec : Spec) (plans : Plans) (t : Term) → IsPlanned spec plans t → Fits spec t spec.root →
        (a : Reference Place) → far_at spec t a ≢ [] →
        (r : Reference Place) × (near spec t a.node (far_at spec t a) ≡ Some r) × (far_at spec t r ≡ []) ×
        (value_in spec t a ≡ value_in spec t r) }
{}

/// The from-scratch value of any other attribute is that by which an equation reads, in the place of a far attribute,
/// the attribute of the nearest enclosing node itself.
pub fn near_is_same()
    ensures { (spec : Spec) (plans : Plans) (t : Term) → IsPlanned spec plans t → Fits spec t spec.root →
        (a : Reference Place) → far_at spec t a ≡ [] → near_value_in spec t a ≡ value_in spec t a }
{}
