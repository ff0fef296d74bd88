//! Laws of selections, spots and states, each as the contract of a function without code.
ghost use Rattle.std.specs.Prelude.{◌≡◌, ◌<◌, ℕ, List, ◌∷◌, Some, true};
ghost use Rattle.sg_kinds.specs.Values.{Bytes};
ghost use Rattle.sg_kinds.specs.Places.{Place};
ghost use Rattle.sg_kinds.specs.Terms.{Term};
ghost use Rattle.sg_kinds.specs.declared.spec.Spec.{Spec};
ghost use Rattle.sg_changes.specs.Chain.{HasNew, HasOld};
ghost use Rattle.sg_changes.specs.Changes.{Change, after_of, before_of, redone as behind, undone as before};
ghost use Rattle.sg_changes.specs.declared.spot.Selection.{Selection};
ghost use Rattle.sg_changes.specs.declared.spot.Spot.{Spot};
ghost use Rattle.sg_select.specs.RestingPlaces.{rests};
ghost use Rattle.sg_unparse.specs.Page.{Region, region_of};
ghost use Rattle.sg_states.specs.Selections.{is_selection, place_in, settled_selection};
ghost use Rattle.sg_states.specs.Seen.{first_line, is_spot, marks_seen, nothing_typed, respotted, typed_at};
ghost use Rattle.sg_states.specs.States.{State, marked, redone, replaced, taken_back, target, undone, viewed};
ghost use Rattle.sg_states.specs.declared.marks.Mark.{Mark};
ghost use Rattle.sg_states.specs.declared.marks.Move.{Move};

/// A settled selection is one of the term in that view, and one of the term is settled already.
#[tactic(auto, using(crate::proofs::Selecting::settled_selected, crate::proofs::Selecting::settled_stays))]
pub fn selections_settle()
    ensures settled { (spec : Spec) (v : ℕ) (t : Term) (s : Selection) →
        is_selection spec v t (place_in (settled_selection spec v t s)) (settled_selection spec v t s).count ≡ true }
    ensures stays { (spec : Spec) (v : ℕ) (t : Term) (s : Selection) →
        is_selection spec v t (place_in s) s.count ≡ true → settled_selection spec v t s ≡ s }
{}

/// The window of a spot that is settled in a view shows its first line, and a spot of the term stays in its own view.
#[tactic(auto, using(crate::proofs::Spotted::spot_stays))]
pub fn spots_are_seen()
    ensures seen { (spec : Spec) (height v : ℕ) (t : Term) (s : Spot) → 0 < height →
        is_spot spec height t (respotted spec height v t s) ≡ true }
    ensures stays { (spec : Spec) (height : ℕ) (t : Term) (s : Spot) → is_spot spec height t s ≡ true →
        respotted spec height s.view t s ≡ s }
{}

/// A move leads to a resting place.
#[tactic(auto, using(crate::proofs::Leading::leads_to_rest))]
pub fn moves_lead_to_resting_places()
    ensures { (move : Move) (spec : Spec) (t : Term) (u v : Place) → target move spec t u ≡ Some v →
        rests spec t v ≡ true }
{}

/// What is typed in the place of a node leaves the line in which it begins.
pub fn typing_moves_no_first_line()
    ensures { (spec : Spec) (v : ℕ) (t : Term) (u : Place) (text : Bytes) (r s : Region) →
        region_of (marks_seen spec v t nothing_typed) u ≡ Some r
        → region_of (marks_seen spec v t (typed_at u text)) u ≡ Some s → s.first.line ≡ first_line spec v t u }
{}

/// A change that is undone gives back what was before it: term, selection and window's top, and the changes before it
/// as far as the history keeps them. The change can be done again.
pub fn changes_go_back()
    ensures replaced { (spec : Spec) (height : ℕ) (u : Place) (s : Term) (select : Selection) (st : State) →
        is_spot spec height st.term st.spot ≡ true → undone spec height (replaced spec height u s select st)
        ≡ taken_back (replaced spec height u s select st) st }
    ensures marked { (spec : Spec) (height : ℕ) (mark : Mark) (st next : State) →
        is_spot spec height st.term st.spot ≡ true → marked spec height mark st ≡ Some next →
        undone spec height next ≡ taken_back next st }
{}

/// And done again it gives the same as at first.
pub fn changes_go_forth()
    ensures replaced { (spec : Spec) (height : ℕ) (u : Place) (s : Term) (select : Selection) (st : State) →
        0 < height → redone spec height (undone spec height (replaced spec height u s select st))
        ≡ replaced spec height u s select st }
    ensures marked { (spec : Spec) (height : ℕ) (mark : Mark) (st next : State) →
        0 < height → marked spec height mark st ≡ Some next → redone spec height (undone spec height next) ≡ next }
{}

/// Undo and redo of a change lead back to the same state, where what was selected and seen right after the change, or
/// right before it, is again, settled in the present view.
pub fn undo_and_redo()
    ensures redone { (spec : Spec) (height : ℕ) (st : State) (c : Change) (past : List Change) →
        st.past ≡ c ∷ past → HasNew st.term c → redone spec height (undone spec height st)
        ≡ record st { spot = respotted spec height st.spot.view st.term (after_of c) } }
    ensures undone { (spec : Spec) (height : ℕ) (st : State) (c : Change) (future : List Change) →
        st.future ≡ c ∷ future → HasOld st.term c → undone spec height (redone spec height st)
        ≡ record st { spot = respotted spec height st.spot.view st.term (before_of c) } }
{}

/// What was selected and seen before a change, or after it, is so again once the change is undone, or done again, in the
/// same view.
pub fn kept_spots_come_back()
    ensures undone { (spec : Spec) (height : ℕ) (st : State) (c : Change) (past : List Change) → st.past ≡ c ∷ past →
        is_spot spec height (before st.term c) (before_of c) ≡ true → (before_of c).view ≡ st.spot.view →
        (undone spec height st).spot ≡ before_of c }
    ensures redone { (spec : Spec) (height : ℕ) (st : State) (c : Change) (future : List Change) →
        st.future ≡ c ∷ future → is_spot spec height (behind st.term c) (after_of c) ≡ true →
        (after_of c).view ≡ st.spot.view → (redone spec height st).spot ≡ after_of c }
{}

/// Another view changes what is selected and seen, and nothing else; shown in it again nothing changes.
pub fn views_change_spots_alone()
    ensures alone { (spec : Spec) (height v : ℕ) (st : State) →
        viewed spec height v st ≡ record st { spot = (viewed spec height v st).spot } }
    ensures shown { (spec : Spec) (height v : ℕ) (st : State) → (viewed spec height v st).spot.view ≡ v }
    ensures twice { (spec : Spec) (height v : ℕ) (st : State) → 0 < height →
        viewed spec height v (viewed spec height v st) ≡ viewed spec height v st }
{}
