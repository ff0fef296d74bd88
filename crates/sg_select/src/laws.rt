//! Laws of resting places and of what is typed, each as the contract of a function without code.
ghost use Rattle.std.specs.Prelude.{◌≡◌, ◌≢◌, [], AllPairs, Contains, None, Option, Some, true};
ghost use Rattle.sg_kinds.specs.Values.{Bytes};
ghost use Rattle.sg_kinds.specs.Places.{Place, sub};
ghost use Rattle.sg_kinds.specs.Terms.{Term};
ghost use Rattle.sg_kinds.specs.declared.spec.Spec.{Spec};
ghost use Rattle.sg_forest.specs.declared.node_id.NodeId.{NodeId};
ghost use Rattle.sg_groves.specs.Grove.{Grove, IsGrove};
ghost use Rattle.sg_groves.specs.Holds.{IsPlaced};
ghost use Rattle.sg_select.specs.RestingPlaces.{above, is_open, resting};
ghost use Rattle.sg_unparse.specs.Along.{typed_in};
ghost use Rattle.sg_unparse.specs.Unparsed.{unparsed_places};

/// No place rests twice.
#[tactic(auto, using(crate::proofs::Neighbours::resting_apart))]
pub fn places_rest_once()
    ensures { (spec : Spec) (t : Term) → AllPairs (λ u v. u ≢ v) (resting spec t) }
{}

/// What can be reached is unparsed, and so has a region, where nothing is typed above it.
pub fn reached_nodes_are_unparsed()
    ensures { (spec : Spec) (typed : Place → Option Bytes) (t x : Term) (u : Place) → sub t u ≡ Some x
        → is_open spec t u ≡ true → ((w : Place) → Contains (above u) w → typed w ≡ None)
        → Contains (unparsed_places spec typed [] t) u }
{}

/// A text that is typed at a node stands in its place, and in no other place of the term.
pub fn typing_has_one_place()
    ensures here { (g : Grove) → IsGrove g → (root n : NodeId) (t : Term) (u : Place) (text : Bytes) →
        IsPlaced g root t u n → typed_in g root (Some n) text u ≡ Some text }
    ensures elsewhere { (g : Grove) → IsGrove g → (root n : NodeId) (t x : Term) (u v : Place) (text : Bytes) →
        IsPlaced g root t u n → sub t v ≡ Some x → u ≢ v → typed_in g root (Some n) text v ≡ None }
{}
