//! Laws of undo and redo over terms, each as the contract of a function without code.
ghost use Rattle.std.specs.Prelude.{◌≡◌, ◌+◌, ◌<◌, ◌≤◌, ℕ, Bool, List, [], ◌∷◌, Some, take};
ghost use Rattle.sg_kinds.specs.Places.{Place, place_of, put, sub};
ghost use Rattle.sg_kinds.specs.Sound.{IsSmall};
ghost use Rattle.sg_kinds.specs.Terms.{Term};
ghost use Rattle.sg_kinds.specs.declared.spec.Spec.{Spec};
ghost use Rattle.sg_forest.specs.declared.node_id.NodeId.{NodeId};
ghost use Rattle.sg_changes.specs.Chain.{AllUndo, CanGo, Passes, Stands};
ghost use Rattle.sg_changes.specs.Changes.{Change, Mark, Put, marked, marks_at, opposite, redone, term_along};
ghost use Rattle.sg_changes.specs.StepChanges.{Agree, Exchanged, Goes, change_along, hung, told_along, told_future, told_past, tops_of};
ghost use Rattle.sg_changes.specs.Top.{topped};
ghost use Rattle.sg_changes.specs.declared.direction.Direction.{Direction};
ghost use Rattle.sg_changes.specs.declared.direction.Direction.TheVariants as direction;
ghost use Rattle.sg_changes.specs.declared.spot.Spot.{Spot};
ghost use Rattle.sg_changes.specs.declared.step.Marks.{Marks};
ghost use Rattle.sg_changes.specs.declared.step.Step.{Step};
ghost use Rattle.sg_changes.specs.declared.step.Step.TheVariants.{Marked, Replaced};

/// A step along which a way goes, with the subtree that stood at its place hanging, is the same change as the nearest
/// one behind; the other changes stay, and those along which a way went one after another, ahead and behind, still can be
/// gone along.
pub fn steps_go()
    ensures ahead { (d : Direction) (old new : NodeId → Term) (t : Term) (s : Step) (x : NodeId)
        (ahead behind : List Step) → Exchanged old new t s x ahead behind →
        told_along new d (term_along d t (change_along old d t s)) ahead
        ≡ told_along old d (term_along d t (change_along old d t s)) ahead }
    ensures behind { (d : Direction) (old new : NodeId → Term) (t : Term) (s : Step) (x : NodeId)
        (ahead behind : List Step) → Stands d t (change_along old d t s) → Exchanged old new t s x ahead behind →
        told_along new (opposite d) (term_along d t (change_along old d t s)) (hung s x ∷ behind)
        ≡ change_along old d t s ∷ told_along old (opposite d) t behind }
    ensures on { (d : Direction) (spec : Spec) (spot : Term → Spot → Bool) (old new : NodeId → Term) (t : Term)
        (s : Step) (x : NodeId) (ahead behind : List Step) → Goes d spec (Passes spot) old t (s ∷ ahead) →
        Exchanged old new t s x ahead behind →
        Goes d spec (Passes spot) new (term_along d t (change_along old d t s)) ahead }
    ensures back { (d : Direction) (spec : Spec) (spot : Term → Spot → Bool) (old new : NodeId → Term) (t : Term)
        (s : Step) (x : NodeId) (ahead behind : List Step) → IsSmall t → Goes d spec (Passes spot) old t (s ∷ ahead) →
        Goes (opposite d) spec (Passes spot) old t behind → Exchanged old new t s x ahead behind →
        Goes (opposite d) spec (Passes spot) new (term_along d t (change_along old d t s)) (hung s x ∷ behind) }
{}

/// A new step is the newest change of the past, before those that were there, which can be undone in turn with it; an
/// empty future has no change.
pub fn steps_are_pushed()
    ensures put { (old new : NodeId → Term) (t s y : Term) (path : List ℕ) (x : NodeId) (before after : Spot)
        (past : List Step) →
        sub t (place_of path) ≡ Some y → new x ≡ y → Agree old new (tops_of past) →
        told_past new (put t (place_of path) s) (Replaced path x before after ∷ past) ≡
        Put (place_of path) y s before after ∷ told_past old t past }
    ensures mark { (old new : NodeId → Term) (t : Term) (path : List ℕ) (was made : Marks) (before after : Spot)
        (past : List Step) →
        marks_at t (place_of path) ≡ Some was → Agree old new (tops_of past) →
        told_past new (marked t (place_of path) made) (Marked path was made before after ∷ past) ≡
        Mark (place_of path) was made before after ∷ told_past old t past }
    ensures undoes { (spec : Spec) (spot : Term → Spot → Bool) (t : Term) (c : Change) (cs : List Change) → IsSmall t →
        CanGo spec (Passes spot) direction.Forth t c → AllUndo spec (Passes spot) t cs
        → AllUndo spec (Passes spot) (redone t c) (c ∷ cs) }
    ensures future { (tree : NodeId → Term) (t : Term) → told_future tree t [] ≡ [] }
{}

/// Without the oldest past steps the others are the same changes, which can be undone in turn.
#[tactic(auto, using(crate::proofs::Telling::told_fewer, crate::proofs::Telling::goes_fewer))]
pub fn oldest_steps_go()
    ensures told { (tree : NodeId → Term) (n : ℕ) (t : Term) (past : List Step) →
        told_past tree t (take n past) ≡ take n (told_past tree t past) }
    ensures undoes { (spec : Spec) (spot : Term → Spot → Bool) (tree : NodeId → Term) (n : ℕ) (t : Term)
        (past : List Step) → Goes direction.Back spec (Passes spot) tree t past
        → Goes direction.Back spec (Passes spot) tree t (take n past) }
{}

/// Where the tops that steps keep hold the same, the steps are the same changes, and what goes along them still goes.
#[tactic(auto, using(crate::proofs::Telling::told_agrees, crate::proofs::Telling::goes_agrees))]
pub fn only_tops_are_asked()
    ensures told { (d : Direction) (old new : NodeId → Term) (t : Term) (steps : List Step) →
        Agree old new (tops_of steps) → told_along new d t steps ≡ told_along old d t steps }
    ensures goes { (d : Direction) (spec : Spec) (spot : Term → Spot → Bool) (old new : NodeId → Term) (t : Term)
        (steps : List Step) → Agree old new (tops_of steps) → Goes d spec (Passes spot) old t steps
        → Goes d spec (Passes spot) new t steps }
{}

/// Marks that are put at a node stand there, and its old ones put back give the term back.
#[tactic(auto, using(crate::proofs::Marking::marks_marked, crate::proofs::Marking::marked_back))]
pub fn marks_go_back()
    ensures stand { (t : Term) (u : Place) (was marks : Marks) → marks_at t u ≡ Some was
        → marks_at (marked t u marks) u ≡ Some marks }
    ensures back { (t : Term) (u : Place) (was marks : Marks) → marks_at t u ≡ Some was
        → marked (marked t u marks) u was ≡ t }
{}

/// A window of a height, with the top that the rule gives, shows the first line; a top from which it is shown stays.
#[tactic(auto, using(crate::proofs::Showing::topped_below, crate::proofs::Showing::topped_shows, crate::proofs::Showing::topped_stays))]
pub fn tops_show_lines()
    ensures begins { (height first top : ℕ) → 0 < height → topped height first top ≤ first }
    ensures ends { (height first top : ℕ) → 0 < height → first < topped height first top + height }
    ensures stays { (height first top : ℕ) → top ≤ first → first < top + height → topped height first top ≡ top }
{}
