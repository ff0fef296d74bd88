//! Laws of reasons, each as the contract of a function without code.
ghost use Rattle.std.specs.Prelude.{ℕ, ◌<◌, List, length, Contains};
ghost use Rattle.sg_kinds.specs.Dependencies.{InPhylum};
ghost use Rattle.sg_kinds.specs.Layers.{Extended, IsLayering};
ghost use Rattle.sg_kinds.specs.declared.spec.Rules.{Rules};
ghost use Rattle.sg_dependencies.specs.Vertices.{AreInRange, Numbered};
ghost use Rattle.sg_reasons.specs.Reasons.{AreReasons, Cause as CauseOf, IsCause, Reason as ReasonOf};

/// What a reason relates is a dependency of its phylum, and what a cause relates is one of the operator that the
/// layers extend.
pub fn reasons_are_dependencies()
    ensures phylum { (rules : Rules) (reasons : List ReasonOf) → AreInRange rules → AreReasons rules reasons
        → (r : ReasonOf) → Contains reasons r → InPhylum rules r.phylum r.from r.to }
    ensures operator { (rules : Rules) (layer : ℕ → ℕ → ℕ) (reasons : List ReasonOf) → AreInRange rules
        → ((X : ℕ) → X < length rules.phyla → IsLayering rules X (layer X)) → AreReasons rules reasons
        → (low p m n : ℕ) (c : CauseOf) → IsCause rules reasons low p m n c
        → Numbered rules p (Extended rules layer p) m n }
{}
