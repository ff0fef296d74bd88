//! Laws of edits, each as the contract of a function without code.
ghost use Rattle.std.specs.Prelude.{◌≡◌, ℕ};
ghost use Rattle.sg_kinds.specs.Places.{Place, put};
ghost use Rattle.sg_kinds.specs.Sound.{IsSmall};
ghost use Rattle.sg_kinds.specs.Terms.{Term};
ghost use Rattle.sg_kinds.specs.declared.spec.Spec.{Spec};
ghost use Rattle.sg_edits.specs.Choice.{Picked, Put};
ghost use Rattle.sg_edits.specs.Edits.{removed};

/// What `remove` makes is in the limits of a buffer's term where the old term is.
pub fn removed_terms_stay_small()
    ensures { (spec : Spec) (t s : Term) (u at : Place) (n : ℕ) (select : Picked)
        → removed spec t u n ≡ Put at s select → IsSmall t → IsSmall (put t at s) }
{}
