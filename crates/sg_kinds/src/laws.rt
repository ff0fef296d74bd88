// Laws of the definitions, each as the contract of a function without code.
ghost use Rattle.std.specs.Prelude.{◌≡◌, ◌<◌, ◌≤◌, ◌++◌, ℕ, List, Some, All, slice_get, option_map, length, true};
ghost use Rattle.sg_kinds.specs.Completing.{completing};
ghost use Rattle.sg_kinds.specs.Evaluation.{outcome_in, value_within};
ghost use Rattle.sg_kinds.specs.Expressions.{Expr};
ghost use Rattle.sg_kinds.specs.Fits.{Fits};
ghost use Rattle.sg_kinds.specs.Placeholder.{placeholder};
ghost use Rattle.sg_kinds.specs.Places.{Place, put, sub};
ghost use Rattle.sg_kinds.specs.Plain.{plain};
ghost use Rattle.sg_kinds.specs.InView.{in_view, own_or, schemes_in_view};
ghost use Rattle.sg_kinds.specs.Sound.{AreCounted, HasSchemes, HasShapes};
ghost use Rattle.sg_kinds.specs.Specification.{Operator, Spec};
ghost use Rattle.sg_kinds.specs.Terms.{Term, nodes_of, height_of};
ghost use Rattle.sg_kinds.specs.ValueOf.{value_of};
ghost use Rattle.sg_kinds.specs.Values.{is_within, same_value, Value, size_of, depth_of};

/// The plain term of a value has that value, and fits each phylum that some term with this value fits.
#[tactic(auto, using(crate::proofs::TermLaws::value_of_plain, crate::proofs::PlainFits::plain_fits))]
pub fn plain_terms()
    ensures value { (spec : Spec) (v : Value) (p : ℕ) → value_of (plain spec v p) ≡ v }
    ensures fits { (spec : Spec) (t : Term) (p : ℕ) → Fits spec t p → Fits spec (plain spec (value_of t) p) p }
{}

/// Completing terms and placeholders fit where the shapes of a specification are sound.
#[tactic(auto, using(crate::proofs::MadeFits::completing_fits, crate::proofs::MadeFits::placeholder_fits))]
pub fn made_terms_fit()
    ensures completing { (spec : Spec) → HasShapes spec → (p : ℕ) → p < length spec.phyla
        → Fits spec (completing spec p) p }
    ensures placeholder { (spec : Spec) → HasShapes spec → (p : ℕ) → p < length spec.phyla
        → Fits spec (placeholder spec p) p }
{}

/// The computed equality of values is their equality.
#[tactic(auto, using(crate::specs::SameValue::value_is, crate::specs::SameValue::value_same))]
pub fn same_is_equality()
    ensures only { (x y : Value) → same_value x y ≡ true → x ≡ y }
    ensures itself { (x : Value) → same_value x x ≡ true }
{}

/// Every outcome is in the limits of values.
#[tactic(auto, using(crate::proofs::Outcomes::outcome_within))]
pub fn outcomes_are_within()
    ensures { (spec : Spec) (room : ℕ) (e : Expr) (env : List Value) (left : ℕ) →
        is_within (outcome_in (value_within spec room e env left)) ≡ true }
{}

/// What was put at a place stands there, and to put back what stood there changes nothing.
#[tactic(auto, using(crate::proofs::TermLaws::sub_put_inside, crate::proofs::TermLaws::put_sub))]
pub fn puts_and_subterms()
    ensures inside { (t : Term) (u v : Place) (x s : Term) → sub t u ≡ Some x → sub (put t u s) (v ++ u) ≡ sub s v }
    ensures same { (t : Term) (u : Place) (x : Term) → sub t u ≡ Some x → put t u x ≡ t }
{}

/// Counts of a term and of its value: a term that fits is as deep as its value, has no more nodes than the value has
/// size, and is no deeper than it has nodes.
#[tactic(auto, using(crate::proofs::PlainFits::depth_of_value, crate::proofs::PlainFits::nodes_within_size, crate::proofs::PlainFits::height_within_nodes))]
pub fn counts_of_terms()
    ensures depth { (spec : Spec) (t : Term) (p : ℕ) → Fits spec t p → depth_of (value_of t) ≡ height_of t }
    ensures nodes { (t : Term) → nodes_of t ≤ size_of (value_of t) }
    ensures height { (t : Term) → height_of t ≤ nodes_of t }
{}

/// In a view a specification differs in the schemes of its operators alone: each has its own of the view, or else the
/// ordinary ones. It is as sound there, and view 0 is the specification itself.
#[tactic(auto, using(crate::proofs::InView::ordinary_view, crate::proofs::InView::op_in_view, crate::proofs::InView::schemes_in_views, crate::proofs::InView::few_in_views))]
pub fn views_change_schemes_alone()
    ensures ordinary { (spec : Spec) → in_view spec 0 ≡ spec }
    ensures operators { (spec : Spec) (v op : ℕ) → slice_get (in_view spec v).ops op
        ≡ option_map (λ (o : Operator). record o { schemes = own_or o.schemes (schemes_in_view spec.views v op) })
        (slice_get spec.ops op) }
    ensures schemes { (spec : Spec) (v : ℕ) → HasSchemes spec → HasSchemes (in_view spec v) }
    ensures few { (spec : Spec) (v : ℕ) → AreCounted spec
        → All (λ (o : Operator). length o.schemes ≤ 16) (in_view spec v).ops }
{}
