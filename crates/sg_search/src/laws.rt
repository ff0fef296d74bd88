//! A law of what is found, as the contract of a function without code.
ghost use Rattle.std.specs.Prelude.{◌≡◌, ◌++◌, Contains, List, filter};
ghost use Rattle.sg_kinds.specs.Places.{Place, places_in};
ghost use Rattle.sg_kinds.specs.Terms.{Term};
ghost use Rattle.sg_kinds.specs.Values.{Bytes};
ghost use Rattle.sg_kinds.specs.declared.spec.Spec.{Spec};
ghost use Rattle.sg_groves.specs.Evaluated.{IsAtOrBelow};
ghost use Rattle.sg_select.specs.RestingPlaces.{behind};
ghost use Rattle.sg_search.specs.Found.{applies_at, found, outer};

/// The outermost places are found places, none below another, and each found place is at or below one of them. What is
/// found behind a place is the end of what is found.
#[tactic(auto, using(crate::proofs::Outermost::outer_found, crate::proofs::Outermost::outer_apart, crate::proofs::Outermost::found_covered, crate::proofs::Outermost::found_ends))]
pub fn found_places()
    ensures outermost { (spec : Spec) (name : Bytes) (t : Term) (u : Place) → Contains (outer spec name t) u
        → Contains (found spec name t) u }
    ensures apart { (spec : Spec) (name : Bytes) (t : Term) (u v : Place) → Contains (outer spec name t) u
        → Contains (outer spec name t) v → IsAtOrBelow v u → v ≡ u }
    ensures covered { (spec : Spec) (name : Bytes) (t : Term) (v : Place) → Contains (found spec name t) v
        → (u : Place) × Contains (outer spec name t) u × IsAtOrBelow v u }
    ensures ends { (spec : Spec) (name : Bytes) (t : Term) (u : Place) → (xs : List Place)
        × (found spec name t ≡ xs ++ filter (applies_at spec name t) (behind u (places_in t))) }
{}
