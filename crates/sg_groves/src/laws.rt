//! Laws of the definitions, each as the contract of a function without code.
ghost use Rattle.std.specs.Prelude.{◌≡◌, ◌≢◌, ◌⊎◌, ℕ, AllPairs, Bool, Contains, IsTrue, List, Some};
ghost use Rattle.sg_kinds.specs.Fits.{Fits};
ghost use Rattle.sg_kinds.specs.Instances.{Site, instances, site_of};
ghost use Rattle.sg_kinds.specs.Nets.{Reference, label_of, net_of};
ghost use Rattle.sg_kinds.specs.Places.{Place, put, sub};
ghost use Rattle.sg_kinds.specs.Sound.{IsSound};
ghost use Rattle.sg_kinds.specs.Specification.{rules_of};
ghost use Rattle.sg_kinds.specs.Terms.{Term};
ghost use Rattle.sg_kinds.specs.Values.{Value};
ghost use Rattle.sg_kinds.specs.declared.spec.Spec.{Spec};
ghost use Rattle.sg_pool.specs.Pools.{StandsFor};
ghost use Rattle.sg_forest.specs.Node.{Node};
ghost use Rattle.sg_forest.specs.Tree.{Tree, changed, replaced};
ghost use Rattle.sg_forest.specs.Trees.{Climbs, IsLive, IsRoot};
ghost use Rattle.sg_forest.specs.declared.node_id.NodeId.{NodeId};
ghost use Rattle.sg_groves.specs.Bare.{node_in};
ghost use Rattle.sg_groves.specs.Evaluated.{IsAtOrBelow, IsEvaluated, evaluated};
ghost use Rattle.sg_groves.specs.Grove.{Grove, nodes, IsGrove};
ghost use Rattle.sg_groves.specs.Holds.{term_of, Holds};
ghost use Rattle.sg_groves.specs.IsRight.{IsRight};
ghost use Rattle.sg_groves.specs.Stored.{number_at, value_there};
ghost use Rattle.sg_groves.specs.TermAt.{term_at, way_at};
ghost use Rattle.sg_groves.specs.Unchanged.{OnlyStored};
ghost use Rattle.sg_groves.specs.declared.kind.Kind.{Kind};
ghost use Rattle.sg_groves.specs.declared.part.Part.{Part};

/// A node that is there holds one term, which fits the node's phylum.
#[tactic(auto, using(crate::proofs::Held::one_term, crate::proofs::Held::live_holds, crate::proofs::Held::held_fits, crate::proofs::Held::held_at))]
pub fn terms_are_held()
    ensures one { (g : Grove) (n : NodeId) (t s : Term) → Holds g n t → Holds g n s → t ≡ s }
    ensures some { (g : Grove) → IsGrove g → (n : NodeId) → IsLive (nodes g) n → (t : Term) × Holds g n t }
    ensures fits { (g : Grove) → IsGrove g → (n : NodeId) (x : Node Kind Part) (t : Term) →
        nodes g n ≡ Some x → Holds g n t → Fits g.spec t x.label.phylum }
    ensures told { (g : Grove) → IsGrove g → (n : NodeId) (t : Term) → Holds g n t → term_at g n ≡ t }
{}

/// The nodes below a node hold the subterms at their places, one node each.
#[tactic(auto, using(crate::proofs::Held::part_held, crate::proofs::Held::node_held, crate::proofs::Ways::one_node, crate::proofs::Ways::one_way, crate::proofs::Ways::way_is))]
pub fn subterms_are_held()
    ensures subterm { (g : Grove) → IsGrove g → (u : Place) (n m : NodeId) (t : Term) →
        Climbs (nodes g) u n m → Holds g m t → (s : Term) × Holds g n s × (sub t u ≡ Some s) }
    ensures node { (g : Grove) → IsGrove g → (u : Place) (m : NodeId) (t s : Term) →
        Holds g m t → sub t u ≡ Some s → (n : NodeId) × Climbs (nodes g) u n m × Holds g n s }
    ensures one_node { (g : Grove) → IsGrove g → (u : Place) (n o m : NodeId) →
        Climbs (nodes g) u n m → Climbs (nodes g) u o m → n ≡ o }
    ensures one_place { (g : Grove) → IsGrove g → (u v : Place) (n m o : NodeId) → IsRoot (nodes g) m
        → IsRoot (nodes g) o →
        Climbs (nodes g) u n m → Climbs (nodes g) v n o → (u ≡ v) × (m ≡ o) }
    ensures told { (g : Grove) → IsGrove g → (u : Place) (n m : NodeId) → IsRoot (nodes g) m → Climbs (nodes g) u n m
        → way_at g n ≡ u }
{}

/// Each stored number stands for a value of the pool.
#[tactic(auto, using(crate::proofs::Frames::number_stands))]
pub fn numbers_stand()
    ensures { (g : Grove) → IsGrove g → (n : NodeId) (slot id : ℕ) → number_at g n slot ≡ Some id
        → (v : Value) × StandsFor g.pool id v }
{}

/// That only the stored values that pass a test change holds where nothing does, with a wider test, and of one step
/// after another with either test.
#[tactic(auto, using(crate::proofs::Frames::only_itself, crate::proofs::Frames::only_more, crate::proofs::Frames::only_twice))]
pub fn changes_add_up()
    ensures none { (g : Grove) (test : NodeId → ℕ → Bool) → OnlyStored g g (λ n slot. IsTrue (test n slot)) }
    ensures more { (old new : Grove) (few many : NodeId → ℕ → Bool) →
        ((n : NodeId) (slot : ℕ) → IsTrue (few n slot) → IsTrue (many n slot)) →
        OnlyStored old new (λ n slot. IsTrue (few n slot)) → OnlyStored old new (λ n slot. IsTrue (many n slot)) }
    ensures both { (old mid new : Grove) (one two : NodeId → ℕ → Bool) →
        OnlyStored old mid (λ n slot. IsTrue (one n slot)) → OnlyStored mid new (λ n slot. IsTrue (two n slot)) →
        OnlyStored old new (λ n slot. IsTrue (one n slot) ⊎ IsTrue (two n slot)) }
{}

/// Where only the stored values that pass a test change, ways, roots, held terms and all other stored values stay,
/// and so does a right tree in which none changes.
#[tactic(auto, using(crate::proofs::Frames::only_climbs, crate::proofs::Frames::only_root, crate::proofs::Frames::only_holds, crate::proofs::Frames::only_number, crate::proofs::Frames::only_value, crate::proofs::Frames::only_right))]
pub fn all_else_stays()
    ensures ways { (old new : Grove) (test : NodeId → ℕ → Bool) → OnlyStored old new (λ n slot. IsTrue (test n slot)) →
        (u : Place) (n m : NodeId) → Climbs (nodes old) u n m → Climbs (nodes new) u n m }
    ensures roots { (old new : Grove) (test : NodeId → ℕ → Bool) → OnlyStored old new (λ n slot. IsTrue (test n slot)) →
        (n : NodeId) → IsRoot (nodes old) n → IsRoot (nodes new) n }
    ensures terms { (old new : Grove) (test : NodeId → ℕ → Bool) → OnlyStored old new (λ n slot. IsTrue (test n slot)) →
        IsGrove old → (n : NodeId) (t : Term) → Holds old n t → Holds new n t }
    ensures numbers { (old new : Grove) (test : NodeId → ℕ → Bool)
        → OnlyStored old new (λ n slot. IsTrue (test n slot)) →
        (n : NodeId) (slot : ℕ) → (IsTrue (test n slot) → ⊥) → number_at new n slot ≡ number_at old n slot }
    ensures right { (old new : Grove) (test : NodeId → ℕ → Bool) → OnlyStored old new (λ n slot. IsTrue (test n slot)) →
        IsGrove old → (n : NodeId) → IsRight old n →
        ((u : Place) (m : NodeId) (slot : ℕ) → Climbs (nodes old) u m n → IsTrue (test m slot) → ⊥) → IsRight new n }
    ensures values { (old new : Grove) (test : NodeId → ℕ → Bool)
        → OnlyStored old new (λ n slot. IsTrue (test n slot)) →
        IsGrove old → (n : NodeId) (slot : ℕ) → (IsTrue (test n slot) → ⊥)
        → value_there new n slot ≡ value_there old n slot }
{}

/// A tree with another in the place of a subtree stands for its term with the other's term there; a change of the
/// subtree under which its term becomes another one puts that in its place.
#[tactic(auto, using(crate::proofs::Replacing::tree_replaced, crate::proofs::Replacing::tree_changed))]
pub fn replaced_trees_hold()
    ensures replaced { (pool : List Value) (u : Place) (new t : Tree Kind Part) (x : Term)
        → sub (term_of pool t) u ≡ Some x →
        term_of pool (replaced u new t) ≡ put (term_of pool t) u (term_of pool new) }
    ensures changed { (pool : List Value) (u : Place) (f : Tree Kind Part
        → Tree Kind Part) (t : Tree Kind Part) (x s : Term) →
        sub (term_of pool t) u ≡ Some x → ((d : Tree Kind Part) → term_of pool d ≡ x → term_of pool (f d) ≡ s) →
        term_of pool (changed u f t) ≡ put (term_of pool t) u s }
{}

/// To put a term at a place leaves each node that is not at or below it, and undoes what was put there before.
#[tactic(auto, using(crate::proofs::Puts::node_outside, crate::proofs::Puts::label_outside, crate::proofs::Puts::put_put))]
pub fn puts_and_nodes()
    ensures outside { (t : Term) (u : Place) (s : Term) (w : Place) → (IsAtOrBelow w u → ⊥)
        → node_in (put t u s) w ≡ node_in t w }
    ensures labels { (t : Term) (u : Place) (s : Term) (w : Place) → (IsAtOrBelow w u → ⊥) →
        label_of (sub (put t u s) w) ≡ label_of (sub t w) }
    ensures again { (t : Term) (u : Place) (s x : Term) → put (put t u s) u x ≡ put t u x }
{}

/// Over a sound specification the instances of a term are exactly the references that have an equation, none twice.
#[tactic(auto, using(crate::proofs::InstancesOnce::instance_has, crate::proofs::InstancesOnce::instance_site, crate::proofs::InstancesOnce::instances_apart))]
pub fn instances_are_references()
    ensures with { (spec : Spec) → IsSound spec → (t : Term) (a : Reference Place) (i : Site Place) →
        site_of (rules_of spec) (net_of t) a ≡ Some i → Contains (instances (rules_of spec) t) a }
    ensures only { (spec : Spec) (t : Term) (a : Reference Place) →
        Contains (instances (rules_of spec) t) a → (i : Site Place) × (site_of (rules_of spec) (net_of t) a ≡ Some i) }
    ensures once { (spec : Spec) (t : Term) → AllPairs (λ a b. a ≢ b) (instances (rules_of spec) t) }
{}

/// Over a sound specification the list of what a replacement evaluates has exactly that, none twice.
#[tactic(auto, using(crate::proofs::EvaluatedOnce::evaluated_to, crate::proofs::EvaluatedOnce::evaluated_from, crate::proofs::EvaluatedOnce::evaluated_apart))]
pub fn evaluated_are_listed()
    ensures all { (spec : Spec) → IsSound spec → (t : Term) (u : Place) (s : Term) (a : Reference Place) →
        IsEvaluated spec t u s a → Contains (evaluated spec t u s) a }
    ensures only { (spec : Spec) (t : Term) (u : Place) (s : Term) (a : Reference Place) →
        Contains (evaluated spec t u s) a → IsEvaluated spec t u s a }
    ensures once { (spec : Spec) (t : Term) (u : Place) (s : Term) → AllPairs (λ a b. a ≢ b) (evaluated spec t u s) }
{}
