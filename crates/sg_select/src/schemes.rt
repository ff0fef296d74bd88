// What the schemes of a node and of its parent say of it.
ghost use Rattle.std.specs.Prelude.{◌≡◌, ◌<◌, ℕ, length, slice_get, unwrap_or, Some};
ghost use Rattle.sg_kinds.specs.Sound.{is_pair};
ghost use Rattle.sg_kinds.specs.Terms.{Term};
ghost use Rattle.sg_forest.specs.Trees.{IsLive};
ghost use Rattle.sg_groves.specs.Grove.{nodes, spec_shown};
ghost use Rattle.sg_groves.specs.Holds.{Holds};
ghost use Rattle.sg_unparse.specs.Unparsed.{child_places};
ghost use Rattle.sg_select.specs.RestingPlaces.{begins_resting as begins, child_place as place_of_child, is_shown as shows, leads_on as leads_to_kid, is_rest as is_rest_of, rests_under as rests_there};

use sg_forest::NodeId;
use sg_kinds::ids::OpId;
use sg_kinds::marks::{ChildPlace, Shape};
use sg_kinds::row::item;
use sg_kinds::spec::{Item, Spec};
use sg_terms::Terms;
use sg_unparse::current;

/// The place of child `k` among the items of a scheme, counted from 0; `..` where there is none.
pub fn place_in(items: &[Item], k: usize) -> ChildPlace
    ensures { result ≡ unwrap_or (slice_get (child_places items.now) k) ChildPlace.Hidden }
{
    let mut left = k;
    for item in items {
        if let Item::Child(place) = item {
            if left == 0 {
                return *place;
            }
            left -= 1;
        }
    }
    ChildPlace::Hidden
}

/// The items of the current scheme of a node; none where it has no scheme.
pub fn items_of(terms: &Terms, n: NodeId) -> &[Item]
    requires { IsLive (nodes terms.now) n }
    ensures { (t : Term) → Holds terms.now n t → (k : ℕ)
        → unwrap_or (slice_get (child_places result.now) k) ChildPlace.Hidden ≡ place_of_child (spec_shown terms.now) t k }
{
    terms.facts();
    match current(terms, n) {
        Some(scheme) => scheme.items.as_slice(),
        None => &[],
    }
}

/// The place of a child in the current scheme of a node; `..` where it has none there.
pub fn child_place(terms: &Terms, n: NodeId, k: usize) -> ChildPlace
    requires { IsLive (nodes terms.now) n }
    ensures { (t : Term) → Holds terms.now n t → result ≡ place_of_child (spec_shown terms.now) t k }
{
    place_in(items_of(terms, n), k)
}

/// Whether a node shows a child that has this place in its current scheme: the place is not `..`.
pub fn is_shown(place: ChildPlace) -> bool
    ensures { result ≡ shows place }
{
    !matches!(place, ChildPlace::Hidden)
}

/// Whether a selection may go on from a node that can be reached to a child: the node is not elided and shows it.
pub fn leads_on(terms: &Terms, n: NodeId, k: usize) -> bool
    requires { IsLive (nodes terms.now) n }
    ensures { (t : Term) → Holds terms.now n t → result ≡ leads_to_kid (spec_shown terms.now) t k }
{
    !terms.elided(n) && is_shown(child_place(terms, n, k))
}

// whether the current scheme of a node begins with `@`; a leaf counts so
fn begins_resting(terms: &Terms, n: NodeId) -> bool
    requires { IsLive (nodes terms.now) n }
    ensures { (t : Term) → Holds terms.now n t → result ≡ begins (spec_shown terms.now) t }
{
    terms.facts();
    match current(terms, n) {
        Some(scheme) => scheme.rests,
        None => terms.op(n).is_none(),
    }
}

/// Whether an operator is the binary one of a list.
pub fn is_pair_of_list(spec: &Spec, op: OpId) -> bool
    requires { op < length spec.now.ops }
    ensures { result ≡ is_pair spec.now op }
{
    let operator = item(spec.ops.as_slice(), op.number as usize);
    let is_list = match spec.phyla.place(operator.phylum.number) {
        Some(phylum) => matches!(phylum.shape, Shape::Listed | Shape::OptionalListed),
        None => false,
    };
    is_list && operator.args.len() == 2
}

// whether child `k` of a node is the rest of a list
fn is_rest(terms: &Terms, n: NodeId, k: usize) -> bool
    requires { IsLive (nodes terms.now) n }
    ensures { (t : Term) → Holds terms.now n t → result ≡ is_rest_of (spec_shown terms.now) t k }
{
    terms.facts();
    match terms.op(n) {
        Some(op) => k == 1 && is_pair_of_list(terms.spec(), op),
        None => false,
    }
}

/// Whether a child of a node that can be reached is a resting place.
pub fn rests_under(terms: &Terms, n: NodeId, k: usize, kid: NodeId) -> bool
    requires node { IsLive (nodes terms.now) n }
    requires kid { IsLive (nodes terms.now) kid }
    ensures { (t y : Term) → Holds terms.now n t → Holds terms.now kid y
        → result ≡ rests_there (spec_shown terms.now) t k y }
{
    rests_at(terms, n, k, kid, child_place(terms, n, k))
}

/// The same by the place of the child in the node's current scheme.
pub fn rests_at(terms: &Terms, n: NodeId, k: usize, kid: NodeId, place: ChildPlace) -> bool
    requires node { IsLive (nodes terms.now) n }
    requires kid { IsLive (nodes terms.now) kid }
    ensures { (t y : Term) → Holds terms.now n t → Holds terms.now kid y
        → place ≡ place_of_child (spec_shown terms.now) t k → result ≡ rests_there (spec_shown terms.now) t k y }
{
    let rests = matches!(place, ChildPlace::Resting);
    rests && !is_rest(terms, n, k) && begins_resting(terms, kid)
}
