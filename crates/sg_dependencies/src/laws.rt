//! Laws of vertices and of equations that are in range, each as the contract of a function without code.
ghost use Rattle.std.specs.Prelude.{◌≡◌, ℕ, ◌<◌};
ghost use Rattle.sg_kinds.specs.Sound.{AreCounted, HasShapes, HasRules};
ghost use Rattle.sg_kinds.specs.Specification.{rules_of};
ghost use Rattle.sg_kinds.specs.ValidPlans.{vertices};
ghost use Rattle.sg_kinds.specs.Visits.{vertex};
ghost use Rattle.sg_kinds.specs.declared.spec.Occurrence.{Occurrence};
ghost use Rattle.sg_kinds.specs.declared.spec.Rules.{Rules};
ghost use Rattle.sg_kinds.specs.declared.spec.Spec.{Spec};
ghost use Rattle.sg_dependencies.specs.Proper.{AreProper};
ghost use Rattle.sg_dependencies.specs.Vertices.{AreInRange, IsVertex};

/// What the ordering requires of equations holds where the counts, the shapes and the equations of their
/// specification are sound.
#[tactic(auto, using(crate::proofs::SoundRules::sound_range, crate::proofs::SoundRules::sound_proper))]
pub fn sound_equations()
    ensures range { (spec : Spec) → AreCounted spec → HasShapes spec → HasRules spec → AreInRange (rules_of spec) }
    ensures proper { (spec : Spec) → AreCounted spec → HasShapes spec → HasRules spec → AreProper (rules_of spec) }
{}

/// The numbers of an operator's vertices are below their count, and different.
#[tactic(auto, using(crate::proofs::Numbers::vertex_under, crate::proofs::Numbers::same_vertex))]
pub fn vertices_are_numbered()
    ensures low { (rules : Rules) (p : ℕ) (o : Occurrence) → IsVertex rules p o → vertex rules p o < vertices rules p }
    ensures one_each { (rules : Rules) (p : ℕ) (u v : Occurrence) → IsVertex rules p u → IsVertex rules p v
        → vertex rules p u ≡ vertex rules p v → u ≡ v }
{}
