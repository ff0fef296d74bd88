//! Laws of pages, each as the contract of a function without code.
ghost use Rattle.std.specs.Prelude.{◌≡◌, ◌+◌, ◌<◌, ◌≤◌, ℕ, bytes_eq, List, [], ◌++◌, length, Option, Some, is_some, option_map};
ghost use Rattle.std.specs.List.{list_any};
ghost use Rattle.sg_kinds.specs.Values.{Bytes, Value};
ghost use Rattle.sg_kinds.specs.Terms.{Term};
ghost use Rattle.sg_kinds.specs.Places.{Place, put, sub};
ghost use Rattle.sg_kinds.specs.Nets.{Reference};
ghost use Rattle.sg_kinds.specs.declared.spec.Spec.{Spec};
ghost use Rattle.sg_forest.specs.declared.node_id.NodeId.{NodeId};
ghost use Rattle.sg_groves.specs.Evaluated.{IsAtOrBelow};
ghost use Rattle.sg_unparse.specs.Begins.{AreAlikeOutside, IsMoved, StandsAlone, begins_in, begins_on, margin_bound, none_typed};
ghost use Rattle.sg_unparse.specs.Cells.{Mark, cells_in, marks_of, unparsed};
ghost use Rattle.sg_unparse.specs.Owned.{AreOwned, before, AreTypedAlike, IsSpanOf};
ghost use Rattle.sg_unparse.specs.Page.{Region, Span, all_cells, cells_of, position_behind, region_of, span_of, spans_behind};
ghost use Rattle.sg_unparse.specs.Unparsed.{ends_of, unparsed_places};
ghost use Rattle.sg_unparse.specs.Written.{sheet_of};
ghost use Rattle.sg_unparse.specs.declared.page.Beginning.{Beginning};

/// Cells and spans of marks behind one another.
#[tactic(auto, using(crate::proofs::Streams::streams))]
pub fn marks_are_streams()
    ensures counted { (xs : List Mark) → length (all_cells xs) ≡ cells_in xs }
    ensures cells { (xs ys : List Mark) → all_cells (xs ++ ys) ≡ all_cells xs ++ all_cells ys }
    ensures spans { (n : ℕ) (xs ys : List Mark) →
        spans_behind n (xs ++ ys) ≡ spans_behind n xs ++ spans_behind (n + cells_in xs) ys }
{}

/// What is written for a node belongs to it and to nodes below it.
#[tactic(auto, using(crate::proofs::Owners::unparsed_owned))]
pub fn nodes_write_for_themselves()
    ensures { (spec : Spec) (value : Reference Place → Value) (typed : Place → Option Bytes)
        (u : Place) (t : Term) (m : ℕ) → AreOwned u (unparsed spec value typed u t m).0 }
{}

/// The nodes that end are exactly those that are unparsed, each behind those below it: the root, and the children of a
/// node that is one of them and shows its scheme, where their places there are not `..`.
/// A node has a region exactly where it is one of them.
pub fn unparsed_nodes_end()
    ensures ends { (spec : Spec) (value : Reference Place → Value) (typed : Place → Option Bytes)
        (u : Place) (t : Term) (m : ℕ) → ends_of (unparsed spec value typed u t m).0 ≡ unparsed_places spec typed u t }
    ensures regions { (spec : Spec) (value : Reference Place → Value) (typed : Place → Option Bytes)
        (u : Place) (t : Term) (m : ℕ) (v : Place) →
        is_some (region_of (unparsed spec value typed u t m).0 v)
        ≡ list_any (bytes_eq v) (unparsed_places spec typed u t) }
{}

/// A cell stands in the span of a node exactly where its owner is the node or one below it.
pub fn spans_hold_what_is_owned()
    ensures { (spec : Spec) (value : Reference Place → Value) (typed : Place → Option Bytes)
        (u : Place) (t : Term) (m : ℕ) (v : Place) (s : Span) → span_of (unparsed spec value typed u t m).0 v ≡ Some s →
        IsSpanOf v (all_cells (unparsed spec value typed u t m).0) s }
{}

/// A node begins in the position behind the page of what is written before it.
pub fn nodes_begin_behind_what_is_before()
    ensures { (spec : Spec) (value : Reference Place → Value) (typed : Place → Option Bytes)
        (u : Place) (t : Term) (m : ℕ) (v : Place) (r : Region)
        → region_of (unparsed spec value typed u t m).0 v ≡ Some r →
        r.first ≡ position_behind (cells_of (before v (unparsed spec value typed u t m).0)) }
{}

/// What is typed at a node, or below it, changes nothing that is written before it, so the node begins in one position
/// whatever is typed there.
pub fn typing_moves_nothing_before()
    ensures written { (spec : Spec) (value : Reference Place → Value)
        (typed others : Place → Option Bytes) (v : Place) →
        AreTypedAlike v typed others → (u : Place) (t : Term) (m : ℕ) →
        before v (unparsed spec value typed u t m).0 ≡ before v (unparsed spec value others u t m).0 }
    ensures begins { (spec : Spec) (value : Reference Place → Value) (typed others : Place → Option Bytes) (v : Place) →
        AreTypedAlike v typed others → (u : Place) (t : Term) (m : ℕ) (r s : Region) →
        region_of (unparsed spec value typed u t m).0 v ≡ Some r →
        region_of (unparsed spec value others u t m).0 v ≡ Some s → r.first ≡ s.first }
{}

/// Where a node begins on a page is where it begins among the marks, if fewer cells than a page has are before it.
pub fn pages_tell_where_nodes_begin()
    ensures page { (at : Place → NodeId) (n : NodeId) (v : Place) (marks : List Mark) (b : Beginning) →
        StandsAlone at n v marks → begins_on (sheet_of at marks) n ≡ Some b → b.cells < 1048576 →
        begins_in marks v ≡ Some b }
    ensures marks { (at : Place → NodeId) (n : NodeId) (v : Place) (marks : List Mark) (b : Beginning) →
        StandsAlone at n v marks → begins_in marks v ≡ Some b → b.cells ≤ 1048576 →
        begins_on (sheet_of at marks) n ≡ Some b }
    ensures none { (at : Place → NodeId) (n : NodeId) (v : Place) (marks : List Mark) →
        StandsAlone at n v marks → is_some (begins_on (sheet_of at marks) n) ≡ is_some (begins_in marks v) }
    ensures there { (marks : List Mark) (v : Place) → is_some (region_of marks v) ≡ is_some (begins_in marks v) }
    ensures line { (marks : List Mark) (v : Place) (b : Beginning) →
        begins_in marks v ≡ Some b → b.cells ≤ 1048576 →
        option_map (λ r. r.first.line) (region_of marks v) ≡ Some (1 + b.newlines) }
{}

/// Where a term changes strictly below a node, and values only there, what is written before that node stays. So where
/// a node at it or below it begins is found from where another began before, and from where the two begin in what is
/// written for the changed node alone, before and after, from margin 0.
pub fn parts_tell_where_nodes_begin()
    ensures { (spec : Spec) (value other : Reference Place → Value) (t : Term) (p z : Place) (s x y : Term)
        (v w : Place) (old from to : Beginning) (m : ℕ) →
        (z ≡ [] → ⊥) → AreAlikeOutside p value other →
        sub t p ≡ Some x → sub (put t (z ++ p) s) p ≡ Some y → IsAtOrBelow v p → IsAtOrBelow w p →
        begins_in (marks_of spec value none_typed t) v ≡ Some old →
        begins_in (unparsed spec value none_typed p x 0).0 v ≡ Some from →
        begins_in (unparsed spec other none_typed p y 0).0 w ≡ Some to →
        margin_bound spec t ≤ m →
        IsMoved (marks_of spec other none_typed (put t (z ++ p) s)) w old from to m }
{}
